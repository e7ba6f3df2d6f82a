//! The concrete file that a text is read as, with its abstraction.
ghost use Rattle.abstraction.specs.Abstracts.{HasNumbersInRange};
ghost use Rattle.tool_inputs.specs.Steps.{IsRefusal};
ghost use Rattle.tool_inputs.specs.ReplySpecs.{Yields};
ghost use Rattle.tool_try.specs.Questions.{IsConcreteText, DeclinesConcrete, IsConcreteFile, DeclinesFile};

use crate::texts::not_concrete_line;
use abstraction::Abstract;
use std::alloc::Global;
use tool_inputs::{EarlyEnd, TextQuestion, abstract_in, file_of, refusal};
use while_lang::File;

/// A concrete file and its abstraction.
pub struct ConcreteFile {
    pub file: File,
    pub shown: Abstract,
}

// Explicit, so that it is proved once and not at each end of each function that owns one.
impl Drop for ConcreteFile {
    fn drop(self) {
        let ConcreteFile {
            file: _file,
            shown: _shown,
        } = self;
    }
}

// Abstracts a file. A file that is not concrete is refused.
fn concrete_file(alloc: Global, file: File) -> Result<ConcreteFile, EarlyEnd>
    requires { HasNumbersInRange file }
    ensures { Yields (IsConcreteFile file) (IsRefusal (DeclinesFile file)) result }
{
    if !file.concrete() {
        return Err(refusal(alloc, not_concrete_line()));
    }
    let shown = abstract_in(alloc, &file)?;
    Ok(ConcreteFile { file, shown })
}

// Reads a text, and abstracts its file.
fn concrete_in(alloc: Global, text: &[u8]) -> Result<ConcreteFile, EarlyEnd>
    ensures { Yields (IsConcreteText text.now) (IsRefusal (DeclinesConcrete text.now)) result }
{
    let file = file_of(alloc, text)?;
    concrete_file(alloc, file)
}

impl TextQuestion for ConcreteFile {
    ghost use Rattle.tool_try.specs.Questions.{HasConcrete};
    ghost use Rattle.tool_try.specs.Working.Questions.{some_concrete, concrete_or_none, long_concrete};

    ghost poses = { IsConcreteText };

    ghost accepts = { HasConcrete };

    ghost declines = { DeclinesConcrete };

    fn of_text(alloc: Global, text: &[u8]) -> Result<ConcreteFile, EarlyEnd> {
        concrete_in(alloc, text)
    }

    ghost is_accepted = { some_concrete };

    ghost is_declined = { concrete_or_none };

    ghost declines_long = { long_concrete };
}
