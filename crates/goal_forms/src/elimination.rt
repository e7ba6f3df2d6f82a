//! Elimination of hypotheses: the terms that are compared in place of the sides.
ghost use Rattle.std.specs.Prelude.{◌≡◌, ◌≤◌, map, IfOk};
ghost use Rattle.kat_model.specs.Trees.{kat_tree};
ghost use Rattle.kat_model.specs.Closed.{closed, actions_below, universal_of, inside};
ghost use Rattle.goal_forms.specs.ClosedTrees.{closed_trees};

use kat_model::{Kat, NoMemory, Problem, sum_of};
use std::alloc::Global;

/// The terms that are compared in place of the sides of a problem, and the universal term if there are hypotheses.
pub struct Closed {
    pub left: Kat,
    pub right: Kat,
    pub universal: Option<Kat>,
}

// Explicit, so that it is proved once and not at each end of each function that owns one.
impl Drop for Closed {
    fn drop(self) {
        let Closed {
            left: _left,
            right: _right,
            universal: _universal,
        } = self;
    }
}

// Returns the actions below the count, in order.
fn actions(alloc: Global, count: usize) -> Result<Vec<Kat>, NoMemory>
    ensures { IfOk result (λ v. map kat_tree v.items ≡ actions_below count) }
{
    let mut list = Vec::new(alloc);
    for action in 0..count {
        list.push(Kat::Act(action))?;
    }
    Ok(list)
}

// Returns the term that accepts every string over the actions below the count.
fn universal(alloc: Global, count: usize) -> Result<Kat, NoMemory>
    ensures { IfOk result (λ e. kat_tree e ≡ universal_of count) }
{
    let list = actions(alloc, count)?;
    let step = sum_of(alloc, list)?;
    Kat::new_star(alloc, step)
}

fn copies(alloc: Global, terms: &[Kat]) -> Result<Vec<Kat>, NoMemory>
    ensures { IfOk result (λ v. map kat_tree v.items ≡ map kat_tree terms.now) }
{
    let mut list = Vec::new(alloc);
    for term in terms {
        list.push(term.copy(alloc)?)?;
    }
    Ok(list)
}

// Returns the product of `anything`, the term and `anything`.
fn surround(alloc: Global, anything: &Kat, term: Kat) -> Result<Kat, NoMemory>
    ensures { IfOk result (λ e. kat_tree e ≡ inside (kat_tree anything.now) (kat_tree term)) }
{
    let before = anything.copy(alloc)?;
    let after = anything.copy(alloc)?;
    let end = Kat::new_seq(alloc, term, after)?;
    Kat::new_seq(alloc, before, end)
}

/// Returns the closed terms of a problem (elimination of hypotheses `e = 0`: Cohen 1994; Kozen and Smith 1996). Without
/// hypotheses they are both sides, and there is no universal term. Otherwise let `u` be the star of the sum of all
/// actions in order and `h` the sum of the hypotheses; each side `e` becomes `e + u.(h.u)`, and `u` is the universal
/// term. Fails only when out of memory.
pub fn eliminate(alloc: Global, problem: &Problem) -> Result<Closed, NoMemory>
    ensures { IfOk result (λ c. closed_trees c ≡ closed problem.now) }
{
    let left = problem.left().copy(alloc)?;
    let right = problem.right().copy(alloc)?;
    if problem.hyps().is_empty() {
        return Ok(Closed {
            left,
            right,
            universal: None,
        });
    }
    let anything = universal(alloc, problem.actions())?;
    let hyps = copies(alloc, problem.hyps())?;
    let excluded = sum_of(alloc, hyps)?;
    let broken = surround(alloc, &anything, excluded)?;
    let again = broken.copy(alloc)?;
    Ok(Closed {
        left: Kat::new_sum(alloc, left, broken)?,
        right: Kat::new_sum(alloc, right, again)?,
        universal: Some(anything),
    })
}
