//! `replay`: prints the string that bytes spell, with what it shows about the problem that a text poses.
ghost use Rattle.std.specs.Prelude.{[], None, IfOk};
ghost use Rattle.kat_model.specs.Problems.{ProblemParts};
ghost use Rattle.tool_inputs.specs.FileProblem.{Poses};
ghost use Rattle.tool_check.specs.Replay.{IsGiven, IsReplayed, ReplaysBytes, ReplayHeadline, ReplayReply};

use crate::check::rejection;
use cert_checker::Reason;
use certificate::Evidence;
use kat_model::{NoMemory, Problem};
use kat_report::{no_string_line, replay_text};
use std::alloc::Global;
use string_tables::{Finding, GString, verdict};
use tool_inputs::{EarlyEnd, PairCommand, Reply, evidence_in, line, reply_to_pair};

// Returns the reply to a string with this finding.
fn finding_reply(alloc: Global, string: &GString, finding: &Finding) -> Result<Reply, NoMemory>
    ensures { IfOk result (λ r. IsGiven string.now finding.now r.status r.output.items) }
{
    if let Finding::Shape(k) = finding {
        return rejection(alloc, &Reason::Shape(*k));
    }
    Ok(Reply {
        status: 0,
        output: replay_text(alloc, string, finding)?,
    })
}

// Returns the reply to a problem and evidence.
fn replay_reply(alloc: Global, problem: &Problem, evidence: &Evidence) -> Result<Reply, NoMemory>
    ensures { IfOk result (λ r. IsReplayed problem.now evidence.now r.status r.output.items) }
{
    match evidence {
        Evidence::Equal(_) => line(alloc, 3, no_string_line()),
        Evidence::Different(string) => {
            let finding = verdict(alloc, problem, string)?;
            finding_reply(alloc, string, &finding)
        }
    }
}

/// `replay` FILE EVIDENCE
#[derive(Clone, Copy)]
pub struct ReplayCommand;

impl PairCommand for ReplayCommand {
    ghost use Rattle.tool_check.specs.Working.ReplayReplies.{replay_reply};

    type Question = Problem;

    ghost steps = { λ _. ReplaysBytes };

    ghost replies = { λ _. ReplayReply };

    ghost limit = { λ _. None };

    ghost long_line = { λ _. [] };

    fn limit(&self) -> Option<u64> {
        None
    }

    fn long_line(&self) -> &'static [u8] {
        b""
    }

    fn bytes_reply(
        &self,
        alloc: Global,
        question: &Problem,
        bytes: &[u8],
    ) -> Result<Reply, EarlyEnd> {
        let evidence = evidence_in(alloc, bytes)?;
        Ok(replay_reply(alloc, question, &evidence)?)
    }

    ghost refuses_long = { λ _ q bytes past. absurd past };

    ghost is_reply = { λ _. replay_reply };
}

/// Returns the reply of `replay` to the bytes of a text and of evidence. If the text asks a question, the status is 0
/// exactly when the evidence is the text of a string that fits the question, which is printed with what it shows; 2
/// exactly when the bytes are not the text of evidence; and 3 exactly when they are the text of a string that does not
/// fit, or of a certificate. Fails only when out of memory.
pub fn replay_bytes(alloc: Global, text: &[u8], evidence: &[u8]) -> Result<Reply, NoMemory>
    ensures headline { (q : ProblemParts) → Poses text.now q
        → IfOk result (λ r. ReplayHeadline evidence.now q r.status r.output.items) }
    ensures reply { IfOk result (λ r. ReplayReply text.now evidence.now r.status r.output.items) }
{
    let reply = reply_to_pair(alloc, &ReplayCommand, text, evidence)?;
    Ok(reply)
}
