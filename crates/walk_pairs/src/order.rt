//! The order in which to process the actions of a pair: those with fewer moves first. Pairs of small sets make pairs of
//! larger sets congruent, but not conversely.
ghost use Rattle.std.specs.Prelude.{◌≡◌, ◌<◌, ◌↔◌, ℕ, IfOk, map};
ghost use Rattle.kat_model.specs.Members.{Has};

use kat_model::{NoMemory, append};
use partial_derivs::Guarded;
use std::alloc::Global;

// Returns the number of moves by the action.
fn count_of(moves: &[Guarded], act: usize) -> usize {
    moves.iter().filter(|guarded| guarded.act == act).count()
}

// Returns each action below `actions`, preceded by the number of its moves.
fn action_counts(
    alloc: Global,
    left: &[Guarded],
    right: &[Guarded],
    actions: usize,
) -> Result<Vec<(usize, usize)>, NoMemory>
    ensures { IfOk result (λ v. (a : ℕ) → Has (map (λ p. p.1) v.items) a ↔ (a < actions)) }
{
    let mut list = Vec::new(alloc);
    for act in 0..actions {
        let count = count_of(left, act).saturating_add(count_of(right, act));
        append(&mut list, (count, act))?;
    }
    Ok(list)
}

/// Returns the actions below `actions`, those with fewer moves first. No clause depends on the order.
pub fn actions_in_order(
    alloc: Global,
    left: &[Guarded],
    right: &[Guarded],
    actions: usize,
) -> Result<Vec<usize>, NoMemory>
    ensures { IfOk result (λ v. (a : ℕ) → Has v.items a ↔ (a < actions)) }
{
    let mut order = action_counts(alloc, left, right, actions)?;
    order.sort()?;
    let mut acts = Vec::new(alloc);
    for (_, act) in &order {
        acts.push(*act)?;
    }
    Ok(acts)
}
