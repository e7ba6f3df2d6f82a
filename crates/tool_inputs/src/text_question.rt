//! Questions of texts.
ghost use Rattle.std.specs.Prelude.{◌<◌, ℕ, List, length};
ghost use Rattle.kat_model.specs.declared.limits.TheConstants.{MAX_TEXT_BYTES};
ghost use Rattle.kat_report.specs.InputLines.{too_long_line};
ghost use Rattle.tool_inputs.specs.Steps.{IsRefusal};
ghost use Rattle.tool_inputs.specs.ReplySpecs.{Yields};

use crate::reply::EarlyEnd;
use crate::text_problem::problem_in;
use kat_model::Problem;
use std::alloc::Global;

/// A question that a text may pose. `poses` says that a text poses it, `accepts` that a text poses one, and `declines`
/// that it poses none, with the line that gives the reason.
pub trait TextQuestion: Sized + Drop {
    ghost poses: { List ℕ → Self → Type 0 };

    ghost accepts: { List ℕ → Type 0 };

    ghost declines: { List ℕ → List ℕ → Type 0 };

    /// Returns the question that a text poses. A text that poses none is refused with the line that gives the reason.
    fn of_text(alloc: Global, text: &[u8]) -> Result<Self, EarlyEnd>
        ensures { Yields (poses text.now) (IsRefusal (declines text.now)) result };

    ghost is_accepted: { (text : List ℕ) (q : Self) → poses text q → accepts text };

    ghost is_declined: { (text line : List ℕ) → declines text line → accepts text → ⊥ };

    /// A text that is too long is refused with its line.
    ghost declines_long: { (text : List ℕ) → MAX_TEXT_BYTES < length text → declines text too_long_line };
}

impl TextQuestion for Problem {
    ghost use Rattle.tool_inputs.specs.FileProblem.{Poses, HasProblem};
    ghost use Rattle.tool_inputs.specs.TextProblem.{HasNoProblem};
    ghost use Rattle.tool_inputs.specs.Working.Questions.{has_problem, problem_or_none, long_problem};

    ghost poses = { Poses };

    ghost accepts = { HasProblem };

    ghost declines = { HasNoProblem };

    fn of_text(alloc: Global, text: &[u8]) -> Result<Problem, EarlyEnd> {
        problem_in(alloc, text)
    }

    ghost is_accepted = { has_problem };

    ghost is_declined = { problem_or_none };

    ghost declines_long = { long_problem };
}
