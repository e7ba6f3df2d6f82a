//! `decide`: replies to a text with the decision of the problem that it poses.
ghost use Rattle.std.specs.Prelude.{◌≡◌, ℕ, length, Ok, IfOk};
ghost use Rattle.kat_model.specs.Problems.{ProblemParts};
ghost use Rattle.kat_model.specs.Expressions.{CondTree};
ghost use Rattle.kat_model.specs.declared.expression.Width.{Width};
ghost use Rattle.while_lang.specs.Programs.{ProgTree};
ghost use Rattle.problem_file.specs.Questions.{question_text, IsPrintable};
ghost use Rattle.problem_file.specs.ProgramTexts.{programs_text, triple_text, ArePrintable, IsTriplePrintable};
ghost use Rattle.while_lang.specs.Files.{FileParts};
ghost use Rattle.problem_file.specs.Reads.{Reads};
ghost use Rattle.while_lang.specs.Concrete.{IsConcrete, Agrees};
ghost use Rattle.abstraction.specs.Abstracts.{AbstractParts, abstract_of};
ghost use Rattle.abstraction.specs.Readings.{Reading, KeepsStated, GoalHoldsBy};
ghost use Rattle.certificate.specs.Decisions.{IsDecision};
ghost use Rattle.certificate.specs.Texts.{IsEvidence};
ghost use Rattle.tool_inputs.specs.EvidenceBytes.{Spells, evidence_status};
ghost use Rattle.tool_inputs.specs.FileProblem.{Poses};
ghost use Rattle.tool_inputs.specs.StoreAnswers.{AlwaysEndAlike, AlwaysMeets, programs_abstraction, triple_abstraction};
ghost use Rattle.tool_decide.specs.Decide.{IsDecided, Headline, StoreHeadline, DecideReply};

use bisim_worklist::decide;
use certificate::{Evidence, write};
use kat_model::{NoMemory, Problem};
use std::alloc::Global;
use tool_inputs::{EarlyEnd, Reply, TextCommand, problem_in, reply_to_text};

/// Returns the number of nodes, which is below 2^64.
pub fn count<T>(nodes: &[T]) -> usize
    ensures { result ≡ length nodes.now }
{
    nodes.len()
}

// Shows that the evidence of a decision reads back: its numbers are below counts of the problem or of nodes, so they
// fit in 64 bits.
pub(crate) fn know_numbers(problem: &Problem, evidence: &Evidence)
    requires { IsDecision problem.now evidence.now }
    ensures { IsEvidence evidence.now }
{
    // A problem has at most 48 tests and 48 actions, and a certificate in memory has fewer than 2^64 nodes.
    let _ = problem.tests();
    match evidence {
        Evidence::Equal(cert) => {
            let _ = count(cert.test_nodes());
            let _ = count(cert.term_nodes());
        }
        Evidence::Different(_) => {}
    }
}

// Returns the text of a decision, which reads back as the same decision.
fn text(alloc: Global, problem: &Problem, evidence: &Evidence) -> Result<Vec<u8>, NoMemory>
    requires { IsDecision problem.now evidence.now }
    ensures { IfOk result (λ v. Spells v.items evidence.now) }
{
    know_numbers(problem, evidence);
    write(alloc, evidence)
}

pub(crate) fn evidence_status(evidence: &Evidence) -> u8
    ensures { result ≡ evidence_status evidence.now }
{
    match evidence {
        Evidence::Equal(_) => 0,
        Evidence::Different(_) => 1,
    }
}

/// Returns the reply with the text of a decision.
pub(crate) fn decided_reply(
    alloc: Global,
    problem: &Problem,
    evidence: &Evidence,
) -> Result<Reply, NoMemory>
    requires { IsDecision problem.now evidence.now }
    ensures { IfOk result (λ r. IsDecided problem.now r.status r.output.items) }
{
    // A problem is within the limits, so if both sides are the same, there is a chain.
    let _ = problem.tests();
    Ok(Reply {
        status: evidence_status(evidence),
        output: text(alloc, problem, evidence)?,
    })
}

/// Returns the reply of `decide` to a problem. If both sides denote one relation in every table that satisfies the
/// hypotheses, the status is 0 with the text of a certificate; otherwise it is 1 with the text of a shortest string
/// that refutes the problem. Fails only when out of memory.
pub fn decide_reply(alloc: Global, problem: &Problem) -> Result<Reply, NoMemory>
    ensures { IfOk result (λ r. IsDecided problem.now r.status r.output.items) }
{
    let evidence = decide(alloc, problem)?;
    decided_reply(alloc, problem, &evidence)
}

/// `decide` FILE
#[derive(Clone, Copy)]
pub struct DecideCommand;

impl TextCommand for DecideCommand {
    ghost use Rattle.tool_decide.specs.Working.DecideReplies.{decide_long};

    ghost replies = { λ _. DecideReply };

    fn text_reply(&self, alloc: Global, text: &[u8]) -> Result<Reply, EarlyEnd> {
        let problem = problem_in(alloc, text)?;
        Ok(decide_reply(alloc, &problem)?)
    }

    ghost refuses_long = { λ _. decide_long };
}

/// Returns the reply of `decide` to the bytes of a text. If the text asks a question, the status is 0 or 1: 0 exactly
/// when both sides denote one relation in every finite table that satisfies the hypotheses, with the text of an
/// accepted certificate; 1 exactly when they do not, with the text of a shortest string that refutes the question.
/// Otherwise it is 2, with the line that gives the reason. If the text is a concrete file and the status is 0, its goal
/// holds for all its stores: both programs end in the same stores from each store, or the triple holds for every run
/// that ends. The goal of any file with status 0 holds for all its stores, whatever predicates and relations on stores
/// its declared tests and actions are, as long as these satisfy its hypotheses. Status 1 says that the question over
/// tests and actions fails, and nothing about stores. Fails only when out of memory.
pub fn decide_bytes(alloc: Global, text: &[u8]) -> Result<Reply, NoMemory>
    // For the plainest text of a question, whose meaning needs no grammar.
    ensures plain { (q : ProblemParts) → IsPrintable q → text.now ≡ question_text q
        → IfOk result (λ r. Headline q r.status r.output.items) }
    // For the plainest texts of two programs, and of a triple of one program, over `v` variables of the width `w`.
    ensures programs { (w : Width) (v : ℕ) (p q : ProgTree) → ArePrintable w v p q → text.now ≡ programs_text w v p q
        → IfOk result (λ r. StoreHeadline (programs_abstraction w v p q) (AlwaysEndAlike w v p q) r.status r.output.items) }
    ensures triples { (w : Width) (v : ℕ) (b : CondTree) (p : ProgTree) (c : CondTree) → IsTriplePrintable w v b p c → text.now ≡ triple_text w v b p c
        → IfOk result (λ r. StoreHeadline (triple_abstraction w v b p c) (AlwaysMeets w v b p c) r.status r.output.items) }
    // For every text.
    ensures headline { (q : ProblemParts) → Poses text.now q
        → IfOk result (λ r. Headline q r.status r.output.items) }
    ensures stores { (f : FileParts) → Reads text.now f → IsConcrete f → IfOk result (λ r. r.status ≡ 0 → Agrees f) }
    // For every reading of the declared tests and actions that satisfies the stated hypotheses.
    ensures readings { (f : FileParts) (a : AbstractParts) (reading : Reading) → Reads text.now f → abstract_of f ≡ Ok a → KeepsStated f a reading
        → IfOk result (λ r. r.status ≡ 0 → GoalHoldsBy f a reading f.goal) }
    ensures reply { IfOk result (λ r. DecideReply text.now r.status r.output.items) }
{
    let reply = reply_to_text(alloc, &DecideCommand, text)?;
    Ok(reply)
}
