//! Checks whether a chain is a proof.
ghost use Rattle.std.specs.Prelude.{◌≡◌, ◌↔◌, IfOk, MatchOption};
ghost use Rattle.kat_model.specs.Trees.{kat_tree};
ghost use Rattle.kat_model.specs.Problems.{IsInRange};
ghost use Rattle.kat_model.specs.Relations.{Same};
ghost use Rattle.chain_rules.specs.Chains.{lines_of};
ghost use Rattle.chain_rules.specs.ChainViews.{unboxed};
ghost use Rattle.chain_rules.specs.Chained.{IsChained, Answers, HasTermsInRange};
ghost use Rattle.chain_rules.specs.Working.LineViews.{lines_at};
ghost use Rattle.chain_rules.specs.Working.LineChecks.{IsLineCheck};
ghost use Rattle.chain_rules.specs.declared.answer.ChainAnswer.TheVariants.{Accepted};

use crate::answer::{ChainAnswer, ChainReason};
use crate::chain::{Chain, Line};
use crate::equality::same_term;
use crate::lines::{holds, last_term};
use kat_model::{Kat, NoMemory, Problem};
use std::alloc::Global;

// The result for lines in text order. The numbers saturate at `usize::MAX`.
#[derive(Clone, Copy)]
enum LineCheck {
    // All lines hold; this is their number.
    AllHold(usize),
    // The number of the first line that fails.
    FirstFailing(usize),
}

// Checks the line after this term, and the lines of its inner chain.
#[cycle(check)]
fn check_line(
    alloc: Global,
    problem: &Problem,
    line: &Line,
    before: &Kat,
) -> Result<LineCheck, NoMemory>
    requires before { IsInRange problem.now.tests problem.now.actions (kat_tree before.now) }
    requires after { IsInRange problem.now.tests problem.now.actions (kat_tree line.now.next) }
    requires inner { MatchOption (unboxed line.now.inner) (Unit {0}) (HasTermsInRange problem.now.tests problem.now.actions) }
    ensures { IfOk result (IsLineCheck problem.now (lines_at (kat_tree before.now) line.now)) }
{
    if !holds(alloc, problem, before, line)? {
        return Ok(LineCheck::FirstFailing(0));
    }
    let Some(inner) = &line.inner else {
        return Ok(LineCheck::AllHold(1));
    };
    match check_lines(alloc, problem, inner)? {
        LineCheck::AllHold(count) => Ok(LineCheck::AllHold(count.saturating_add(1))),
        LineCheck::FirstFailing(number) => { Ok(LineCheck::FirstFailing(number.saturating_add(1))) }
    }
}

// Checks all lines of the chain.
#[cycle(check)]
fn check_lines(alloc: Global, problem: &Problem, chain: &Chain) -> Result<LineCheck, NoMemory>
    requires { HasTermsInRange problem.now.tests problem.now.actions chain.now }
    ensures { IfOk result (IsLineCheck problem.now (lines_of chain.now)) }
{
    let mut count: usize = 0;
    let mut before = &chain.first;
    'lines: for line in &chain.lines {
        match check_line(alloc, problem, line, before)? {
            LineCheck::AllHold(more) => count = count.saturating_add(more),
            LineCheck::FirstFailing(number) => {
                return Ok(LineCheck::FirstFailing(count.saturating_add(number)));
            }
        }
        before = &line.next;
    }
    Ok(LineCheck::AllHold(count))
}

fn answer_of(alloc: Global, problem: &Problem, chain: &Chain) -> Result<ChainAnswer, NoMemory>
    requires { HasTermsInRange problem.now.tests problem.now.actions chain.now }
    ensures { IfOk result (Answers problem.now chain.now) }
{
    if !same_term(&chain.first, problem.left()) {
        return Ok(ChainAnswer::Rejected(ChainReason::Start));
    }
    if !same_term(last_term(chain), problem.right()) {
        return Ok(ChainAnswer::Rejected(ChainReason::End));
    }
    match check_lines(alloc, problem, chain)? {
        LineCheck::AllHold(_) => Ok(ChainAnswer::Accepted),
        LineCheck::FirstFailing(number) => Ok(ChainAnswer::Rejected(ChainReason::Step(number))),
    }
}

/// Checks that the chain leads from the left side of the problem to its right side by lines that hold, including those
/// of inner chains. Otherwise gives the first reason why not. Terms are compared as trees. A line holds if its term and
/// the term before it are equal outside its place, and the two subterms there are the sides of an instance of its
/// axiom, in one order or the other. `Lfp` and `Rfp` need an inner chain from the left side of their premise to its
/// right side; the other axioms permit none. Fails only when out of memory.
pub fn check_chain(alloc: Global, problem: &Problem, chain: &Chain) -> Result<ChainAnswer, NoMemory>
    requires { HasTermsInRange problem.now.tests problem.now.actions chain.now }
    // The answer is correct: a rejection has the first reason.
    ensures answer { IfOk result (Answers problem.now chain.now) }
    ensures accepted { IfOk result (λ answer. (answer ≡ Accepted) ↔ IsChained problem.now chain.now) }

    // If the chain is accepted, both sides are the same.
    ensures sound { IfOk result (λ answer. answer ≡ Accepted → Same problem.now) }
{
    let answer = answer_of(alloc, problem, chain)?;
    Ok(answer)
}
