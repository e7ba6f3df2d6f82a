//! The problem that a text poses.
ghost use Rattle.std.specs.Prelude.{◌≡◌, ◌≢◌};
ghost use Rattle.text_parser.specs.declared.fault.TextFault.TheVariants.{NoMemory as NoRoom};
ghost use Rattle.kat_report.specs.Refusals.{text_fault_line};
ghost use Rattle.problem_file.specs.Reads.{Reads};
ghost use Rattle.tool_inputs.specs.TextProblem.{IsFaulty};
ghost use Rattle.tool_inputs.specs.Steps.{IsRefusal};
ghost use Rattle.tool_inputs.specs.ReplySpecs.{Yields, IsPosedBy, EndsWith};

use crate::file_problem::problem_of;
use crate::reply::{EarlyEnd, Reply};
use kat_model::{NoMemory, Problem};
use kat_report::text_fault_line;
use problem_file::{File, read};
use std::alloc::Global;
use text_parser::TextFault;

/// Returns the reply to a text with this fault: a refusal, unless memory ran out.
pub fn text_fault_end(alloc: Global, fault: TextFault) -> EarlyEnd
    ensures { EndsWith (λ status output. (status ≡ 2) × ((fault ≢ NoRoom) × (output ≡ text_fault_line fault))) result }
{
    match fault {
        TextFault::NoMemory => EarlyEnd::NoMemory,
        _ => match text_fault_line(alloc, &fault) {
            Ok(output) => EarlyEnd::Replied(Reply { status: 2, output }),
            Err(NoMemory) => EarlyEnd::NoMemory,
        },
    }
}

/// Reads the text of a problem file. A text with a first fault is refused with the line of the fault.
pub fn file_of(alloc: Global, text: &[u8]) -> Result<File, EarlyEnd>
    ensures { Yields (Reads text.now) (IsRefusal (IsFaulty text.now)) result }
{
    match read(alloc, text) {
        Ok(file) => Ok(file),
        Err(fault) => Err(text_fault_end(alloc, fault)),
    }
}

/// Returns the problem that a text poses. A text that poses none is refused with the line that gives the reason.
pub fn problem_in(alloc: Global, text: &[u8]) -> Result<Problem, EarlyEnd>
    ensures { IsPosedBy text.now result }
{
    let file = file_of(alloc, text)?;
    problem_of(alloc, &file)
}
