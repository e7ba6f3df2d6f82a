//! Goals as two sides: that one term is below another, and Hoare triples.
ghost use Rattle.std.specs.Prelude.{◌≡◌, IfOk};
ghost use Rattle.kat_model.specs.Trees.{kat_tree, test_tree};
ghost use Rattle.goal_forms.specs.Sides.{side_trees, below_sides, failing_run, triple_sides};

use kat_model::{Kat, NoMemory, Test};
use std::alloc::Global;

/// The two terms that a goal compares.
#[derive(Drop)]
pub struct Sides {
    pub left: Kat,
    pub right: Kat,
}

/// Returns the sides of the goal that `small` relates only what `large` relates: `small + large` and `large` (Kozen
/// 1997). Fails only when out of memory; the terms are dropped then.
pub fn below(alloc: Global, small: Kat, large: Kat) -> Result<Sides, NoMemory>
    ensures { IfOk result (λ s. side_trees s ≡ below_sides (kat_tree small) (kat_tree large)) }
{
    let right = large.copy(alloc)?;
    let left = Kat::new_sum(alloc, small, large)?;
    Ok(Sides { left, right })
}

/// Returns the runs that break the Hoare triple of `pre`, `body` and `post`, the runs of the body that begin in `pre`
/// and end outside `post`: `pre.body.!post`. The triple holds exactly when this term is 0 (partial correctness; Kozen
/// 2000). Fails only when out of memory; the trees are dropped then.
pub fn failing_run(alloc: Global, pre: Test, body: Kat, post: Test) -> Result<Kat, NoMemory>
    ensures { IfOk result
        (λ e. kat_tree e ≡ failing_run (test_tree pre) (kat_tree body) (test_tree post)) }
{
    let failure = Kat::Test(Test::new_not(alloc, post)?);
    let end = Kat::new_seq(alloc, body, failure)?;
    Kat::new_seq(alloc, Kat::Test(pre), end)
}

/// Returns the sides of the Hoare triple of `pre`, `body` and `post`: the runs that break it, `pre.body.!post`, and `0`
/// (partial correctness; Kozen 2000). Fails only when out of memory; the trees are dropped then.
pub fn triple(alloc: Global, pre: Test, body: Kat, post: Test) -> Result<Sides, NoMemory>
    ensures { IfOk result (λ s. side_trees s ≡ triple_sides (test_tree pre) (kat_tree body) (test_tree post)) }
{
    let left = failing_run(alloc, pre, body, post)?;
    Ok(Sides {
        left,
        right: Kat::Zero,
    })
}
