//! `decide` with `--json`: replies to a text with a report of the decision of the problem that it poses.
ghost use Rattle.std.specs.Prelude.{◌≡◌, Ok, IfOk};
ghost use Rattle.kat_model.specs.Problems.{ProblemParts};
ghost use Rattle.while_lang.specs.Files.{FileParts};
ghost use Rattle.problem_file.specs.Reads.{Reads};
ghost use Rattle.while_lang.specs.Concrete.{IsConcrete, Agrees};
ghost use Rattle.abstraction.specs.Abstracts.{AbstractParts, abstract_of};
ghost use Rattle.abstraction.specs.Readings.{Reading, KeepsStated, GoalHoldsBy};
ghost use Rattle.tool_inputs.specs.FileProblem.{Poses};
ghost use Rattle.tool_decide.specs.DecideJson.{IsReported, ReportHeadline, DecideJsonReply};

use crate::decide::{evidence_status, know_numbers};
use bisim_worklist::decide;
use kat_model::{NoMemory, Problem};
use kat_report::json_report;
use std::alloc::Global;
use tool_inputs::{EarlyEnd, Reply, TextCommand, problem_in, reply_to_text};

// Returns the reply to a problem.
fn report_reply(alloc: Global, problem: &Problem) -> Result<Reply, NoMemory>
    ensures { IfOk result (λ r. IsReported problem.now r.status r.output.items) }
{
    let evidence = decide(alloc, problem)?;
    know_numbers(problem, &evidence);
    // A problem is within the limits, so if both sides are the same, there is a chain.
    let _ = problem.tests();
    Ok(Reply {
        status: evidence_status(&evidence),
        output: json_report(alloc, problem, &evidence)?,
    })
}

/// `decide` FILE `--json`
#[derive(Clone, Copy)]
pub struct DecideJsonCommand;

impl TextCommand for DecideJsonCommand {
    ghost use Rattle.tool_decide.specs.Working.ReportReplies.{decide_json_long};

    ghost replies = { λ _. DecideJsonReply };

    fn text_reply(&self, alloc: Global, text: &[u8]) -> Result<Reply, EarlyEnd> {
        let problem = problem_in(alloc, text)?;
        Ok(report_reply(alloc, &problem)?)
    }

    ghost refuses_long = { λ _. decide_json_long };
}

/// Returns the reply of `decide` with `--json` to the bytes of a text: that of `decide_bytes`, with one line of JSON
/// that contains the text of the evidence instead of this text. Fails only when out of memory.
pub fn decide_json_bytes(alloc: Global, text: &[u8]) -> Result<Reply, NoMemory>
    ensures headline { (q : ProblemParts) → Poses text.now q
        → IfOk result (λ r. ReportHeadline q r.status r.output.items) }
    ensures stores { (f : FileParts) → Reads text.now f → IsConcrete f → IfOk result (λ r. r.status ≡ 0 → Agrees f) }
    ensures readings { (f : FileParts) (a : AbstractParts) (reading : Reading) → Reads text.now f → abstract_of f ≡ Ok a → KeepsStated f a reading
        → IfOk result (λ r. r.status ≡ 0 → GoalHoldsBy f a reading f.goal) }
    ensures reply { IfOk result (λ r. DecideJsonReply text.now r.status r.output.items) }
{
    let reply = reply_to_text(alloc, &DecideJsonCommand, text)?;
    Ok(reply)
}
