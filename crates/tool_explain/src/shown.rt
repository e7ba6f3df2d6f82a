//! The file that a text is read as, with its abstraction.
ghost use Rattle.std.specs.Prelude.{◌≡◌, Ok};
ghost use Rattle.abstraction.specs.Abstracts.{HasNumbersInRange, abstract_of};
ghost use Rattle.tool_inputs.specs.TextProblem.{HasNoAbstraction, HasNoProblem};
ghost use Rattle.tool_inputs.specs.Steps.{IsRefusal};
ghost use Rattle.tool_inputs.specs.ReplySpecs.{Yields};
ghost use Rattle.tool_explain.specs.Working.ShownTexts.{IsShown, IsShownFile};

use abstraction::Abstract;
use std::alloc::Global;
use tool_inputs::{EarlyEnd, TextQuestion, abstract_in, file_of};
use while_lang::File;

/// A file and its abstraction.
pub struct ShownFile {
    pub file: File,
    pub shown: Abstract,
}

// Explicit, so that it is proved once and not at each end of each function that owns one.
impl Drop for ShownFile {
    fn drop(self) {
        let ShownFile {
            file: _file,
            shown: _shown,
        } = self;
    }
}

// Abstracts a file.
fn shown_file(alloc: Global, file: File) -> Result<ShownFile, EarlyEnd>
    requires { HasNumbersInRange file }
    ensures { Yields (IsShownFile file) (IsRefusal (HasNoAbstraction file)) result }
{
    let shown = abstract_in(alloc, &file)?;
    Ok(ShownFile { file, shown })
}

// Reads a text, and abstracts its file.
fn shown_in(alloc: Global, text: &[u8]) -> Result<ShownFile, EarlyEnd>
    ensures { Yields (IsShown text.now) (IsRefusal (HasNoProblem text.now)) result }
{
    let file = file_of(alloc, text)?;
    shown_file(alloc, file)
}

impl TextQuestion for ShownFile {
    ghost use Rattle.tool_inputs.specs.FileProblem.{HasProblem};
    ghost use Rattle.tool_inputs.specs.Working.Questions.{problem_or_none, long_problem};
    ghost use Rattle.tool_explain.specs.Working.ShownTexts.{shown_has_problem};

    ghost poses = { IsShown };

    ghost accepts = { HasProblem };

    ghost declines = { HasNoProblem };

    fn of_text(alloc: Global, text: &[u8]) -> Result<ShownFile, EarlyEnd> {
        shown_in(alloc, text)
    }

    ghost is_accepted = { shown_has_problem };

    ghost is_declined = { problem_or_none };

    ghost declines_long = { long_problem };
}
