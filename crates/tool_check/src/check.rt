//! `check`: checks whether bytes are evidence that shows its claim about the problem that a text poses.
ghost use Rattle.std.specs.Prelude.{◌≡◌, ℕ, [], None, Ok, IfOk};
ghost use Rattle.kat_model.specs.Problems.{ProblemParts};
ghost use Rattle.kat_model.specs.Expressions.{CondTree};
ghost use Rattle.kat_model.specs.declared.expression.Width.{Width};
ghost use Rattle.while_lang.specs.Programs.{ProgTree};
ghost use Rattle.problem_file.specs.ProgramTexts.{programs_text, triple_text, ArePrintable, IsTriplePrintable};
ghost use Rattle.while_lang.specs.Files.{FileParts};
ghost use Rattle.problem_file.specs.Reads.{Reads};
ghost use Rattle.while_lang.specs.Concrete.{IsConcrete, Agrees};
ghost use Rattle.abstraction.specs.Abstracts.{AbstractParts, abstract_of};
ghost use Rattle.abstraction.specs.Readings.{Reading, KeepsStated, GoalHoldsBy};
ghost use Rattle.kat_report.specs.Acceptances.{accepted_line};
ghost use Rattle.kat_report.specs.Reasons.{reason_line};
ghost use Rattle.tool_inputs.specs.EvidenceBytes.{evidence_status};
ghost use Rattle.tool_inputs.specs.FileProblem.{Poses};
ghost use Rattle.tool_inputs.specs.StoreAnswers.{AlwaysEndAlike, AlwaysMeets};
ghost use Rattle.tool_check.specs.Check.{IsChecked, ChecksBytes, CheckHeadline, CheckReply};

use cert_checker::{Answer, Reason, check};
use certificate::Evidence;
use kat_model::{NoMemory, Problem};
use kat_report::{accepted_line, reason_line};
use std::alloc::Global;
use tool_inputs::{EarlyEnd, PairCommand, Reply, evidence_in, line, reply_to_pair};

/// Returns a rejection for this reason.
pub(crate) fn rejection(alloc: Global, reason: &Reason) -> Result<Reply, NoMemory>
    ensures { IfOk result (λ r. (r.status ≡ 3) × (r.output.items ≡ reason_line reason.now)) }
{
    Ok(Reply {
        status: 3,
        output: reason_line(alloc, reason)?,
    })
}

fn acceptance(alloc: Global, evidence: &Evidence) -> Result<Reply, NoMemory>
    ensures { IfOk result (λ r. (r.status ≡ evidence_status evidence.now) × (r.output.items ≡ accepted_line evidence.now)) }
{
    match evidence {
        Evidence::Equal(_) => line(alloc, 0, accepted_line(evidence)),
        Evidence::Different(_) => line(alloc, 1, accepted_line(evidence)),
    }
}

// Returns the reply to a problem and evidence.
fn check_reply(alloc: Global, problem: &Problem, evidence: &Evidence) -> Result<Reply, NoMemory>
    ensures { IfOk result (λ r. IsChecked problem.now evidence.now r.status r.output.items) }
{
    match check(alloc, problem, evidence)? {
        Answer::Accepted => acceptance(alloc, evidence),
        Answer::Rejected(reason) => rejection(alloc, &reason),
    }
}

/// `check` FILE EVIDENCE
#[derive(Clone, Copy)]
pub struct CheckCommand;

impl PairCommand for CheckCommand {
    ghost use Rattle.tool_check.specs.Working.CheckReplies.{check_reply};

    type Question = Problem;

    ghost steps = { λ _. ChecksBytes };

    ghost replies = { λ _. CheckReply };

    ghost limit = { λ _. None };

    ghost long_line = { λ _. [] };

    fn limit(&self) -> Option<u64> {
        None
    }

    fn long_line(&self) -> &'static [u8] {
        b""
    }

    fn bytes_reply(
        &self,
        alloc: Global,
        question: &Problem,
        bytes: &[u8],
    ) -> Result<Reply, EarlyEnd> {
        let evidence = evidence_in(alloc, bytes)?;
        Ok(check_reply(alloc, question, &evidence)?)
    }

    ghost refuses_long = { λ _ q bytes past. absurd past };

    ghost is_reply = { λ _. check_reply };
}

/// Returns the reply of `check` to the bytes of a text and of evidence from any source. If the text asks a question,
/// the status depends on the evidence. It is 0 exactly when the evidence is the text of an accepted certificate; then
/// both sides denote one relation in every finite table that satisfies the hypotheses, and the goal of a concrete file
/// holds for all its stores. It is 1 exactly when the evidence is the text of a string that refutes the question; then
/// they do not. It is 2 exactly when the bytes are not the text of evidence, and 3 exactly when the evidence does not
/// show its claim. Fails only when out of memory.
pub fn check_bytes(alloc: Global, text: &[u8], evidence: &[u8]) -> Result<Reply, NoMemory>
    ensures headline { (q : ProblemParts) → Poses text.now q
        → IfOk result (λ r. CheckHeadline evidence.now q r.status r.output.items) }
    ensures programs { (w : Width) (v : ℕ) (p q : ProgTree) → ArePrintable w v p q → text.now ≡ programs_text w v p q
        → IfOk result (λ r. r.status ≡ 0 → AlwaysEndAlike w v p q) }
    ensures triples { (w : Width) (v : ℕ) (b : CondTree) (p : ProgTree) (c : CondTree) → IsTriplePrintable w v b p c → text.now ≡ triple_text w v b p c
        → IfOk result (λ r. r.status ≡ 0 → AlwaysMeets w v b p c) }
    ensures stores { (f : FileParts) → Reads text.now f → IsConcrete f → IfOk result (λ r. r.status ≡ 0 → Agrees f) }
    ensures readings { (f : FileParts) (a : AbstractParts) (reading : Reading) → Reads text.now f → abstract_of f ≡ Ok a → KeepsStated f a reading
        → IfOk result (λ r. r.status ≡ 0 → GoalHoldsBy f a reading f.goal) }
    ensures reply { IfOk result (λ r. CheckReply text.now evidence.now r.status r.output.items) }
{
    let reply = reply_to_pair(alloc, &CheckCommand, text, evidence)?;
    Ok(reply)
}
