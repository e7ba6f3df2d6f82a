//! A bound on the number of pairs that prove guarded terms equal.
ghost use Rattle.std.specs.Prelude.{◌≡◌, ◌+◌, ◌*◌, []};
ghost use Rattle.std.specs.Option.{SomeIff};
ghost use Rattle.kat_model.specs.Trees.{acts};
ghost use Rattle.kat_model.specs.Guarded.{IsGuarded};

use crate::guards::guarded;
use kat_model::Problem;

/// Returns an upper bound on the number of pairs in a certificate of the problem, if both sides are guarded and there
/// are no hypotheses, and `None` otherwise. Allocates no memory.
pub fn pair_bound(problem: &Problem) -> Option<u64>
    ensures { SomeIff result
        ((problem.now.hyps ≡ []) × IsGuarded problem.now.left × IsGuarded problem.now.right)
        ((acts problem.now.left + 2) * (acts problem.now.right + 2)) }
{
    let left = problem.left();
    let right = problem.right();
    if problem.hyps().is_empty() && guarded(left) && guarded(right) {
        return Some((left.acts() + 2) * (right.acts() + 2));
    }
    None
}
