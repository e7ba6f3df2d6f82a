//! The short hypotheses of a problem, which concern single atoms and single moves, and the long ones.
ghost use Rattle.std.specs.Prelude.{◌≡◌, IfOk};
ghost use Rattle.std.specs.List.{list_any};
ghost use Rattle.kat_model.specs.Trees.{kat_tree};
ghost use Rattle.kat_model.specs.Degrees.{degree as degree', is_short as is_short', long_hyps, with_hyps};
ghost use Rattle.goal_forms.specs.Capped.{capped};

use kat_model::{Kat, NoMemory, Problem};
use std::alloc::Global;

// Returns the degree of the term, or 2 if it is higher or not bounded.
fn degree(term: &Kat) -> u8
    ensures { result ≡ capped (degree' (kat_tree term.now)) }
{
    match term {
        Kat::Zero | Kat::One | Kat::Test(_) => 0,
        Kat::Act(_) => 1,
        Kat::Sum(e, f) => degree(e).max(degree(f)),
        Kat::Seq(e, f) => degree(e).saturating_add(degree(f)).min(2),
        Kat::Star(e) => { if degree(e) == 0 { 0 } else { 2 } }
    }
}

/// Whether the hypothesis is short: of degree at most 1.
pub fn is_short(hyp: &Kat) -> bool
    ensures { result ≡ is_short' (kat_tree hyp.now) }
{
    degree(hyp) <= 1
}

/// Whether some hypothesis of the problem is short.
pub fn has_short(problem: &Problem) -> bool
    ensures { result ≡ list_any is_short' problem.now.hyps }
{
    for hyp in problem.hyps() {
        if is_short(hyp) {
            return true;
        }
    }
    false
}

/// Returns the problem with only its long hypotheses. Fails only when out of memory.
pub fn long_problem(alloc: Global, problem: &Problem) -> Result<Problem, NoMemory>
    ensures { IfOk result (λ p. p ≡ with_hyps problem.now (long_hyps problem.now)) }
{
    let mut longs = Vec::new(alloc);
    for hyp in problem.hyps() {
        if !is_short(hyp) {
            longs.push(hyp.copy(alloc)?)?;
        }
    }
    let left = problem.left().copy(alloc)?;
    let right = problem.right().copy(alloc)?;
    match Problem::new(problem.tests(), problem.actions(), longs, left, right) {
        Ok(long) => Ok(long),
        Err(_) => unreachable!(),
    }
}
