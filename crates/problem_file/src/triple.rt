//! The term of a stated triple.
ghost use Rattle.std.specs.Prelude.{◌≡◌, IfOk};
ghost use Rattle.kat_model.specs.Trees.{kat_tree};
ghost use Rattle.kat_model.specs.Expressions.{cond_tree};
ghost use Rattle.problem_file.specs.Files.{triple_term};

use goal_forms::failing_run;
use kat_model::{Cond, Kat, NoMemory, test_without_comparisons};
use std::alloc::Global;

// Builds the term of the runs of the body that start where `pre` holds and end where `post` does not. The triple holds
// if the term is 0.
pub(crate) fn triple_term(alloc: Global, pre: Cond, body: Kat, post: Cond) -> Result<Kat, NoMemory>
    ensures { IfOk result (λ e. kat_tree e ≡ triple_term (cond_tree pre) (kat_tree body) (cond_tree post)) }
{
    let pre = test_without_comparisons(alloc, pre)?;
    let post = test_without_comparisons(alloc, post)?;
    failing_run(alloc, pre, body, post)
}
