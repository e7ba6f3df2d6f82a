//! The problem of a file, which is that of its abstraction.
ghost use Rattle.std.specs.Prelude.{◌≡◌, ◌≢◌, Ok};
ghost use Rattle.abstraction.specs.declared.fault.AbstractFault.TheVariants.{NoMemory as NoRoom};
ghost use Rattle.while_lang.specs.Trees.{goal_tree};
ghost use Rattle.abstraction.specs.Abstracts.{HasNumbersInRange, abstract_of, with_goal};
ghost use Rattle.kat_report.specs.AbstractRefusals.{abstract_fault_line};
ghost use Rattle.tool_inputs.specs.TextProblem.{HasNoAbstraction};
ghost use Rattle.tool_inputs.specs.Steps.{IsRefusal};
ghost use Rattle.tool_inputs.specs.ReplySpecs.{Yields, EndsWith, IsQuestionOf};

use crate::reply::{EarlyEnd, Reply};
use abstraction::{Abstract, AbstractFault, abstracted, abstracted_for};
use kat_model::{NoMemory, Problem};
use kat_report::abstract_fault_line;
use std::alloc::Global;
use while_lang::{File, Goal};

// Returns the reply to a file that has no abstraction for this reason: a refusal, unless memory ran out.
fn fault_end(alloc: Global, fault: AbstractFault) -> EarlyEnd
    ensures { EndsWith (λ status output. (status ≡ 2) × ((fault ≢ NoRoom) × (output ≡ abstract_fault_line fault))) result }
{
    match fault {
        AbstractFault::NoMemory => EarlyEnd::NoMemory,
        _ => match abstract_fault_line(alloc, &fault) {
            Ok(output) => EarlyEnd::Replied(Reply { status: 2, output }),
            Err(NoMemory) => EarlyEnd::NoMemory,
        },
    }
}

/// Returns the abstraction of a file. A file without an abstraction is refused with the line that gives the reason.
pub fn abstract_in(alloc: Global, file: &File) -> Result<Abstract, EarlyEnd>
    requires { HasNumbersInRange file.now }
    ensures { Yields (λ a. abstract_of file.now ≡ Ok a) (IsRefusal (HasNoAbstraction file.now)) result }
{
    match abstracted(alloc, file) {
        Ok(shown) => Ok(shown),
        Err(fault) => Err(fault_end(alloc, fault)),
    }
}

/// Returns the abstraction of a file with only this goal. A file without an abstraction is refused with the line that
/// gives the reason.
pub fn abstract_for(alloc: Global, file: &File, goal: &Goal) -> Result<Abstract, EarlyEnd>
    requires { HasNumbersInRange (with_goal file.now (goal_tree goal.now)) }
    ensures { Yields (λ a. abstract_of (with_goal file.now (goal_tree goal.now)) ≡ Ok a) (IsRefusal (HasNoAbstraction (with_goal file.now (goal_tree goal.now)))) result }
{
    match abstracted_for(alloc, file, goal) {
        Ok(shown) => Ok(shown),
        Err(fault) => Err(fault_end(alloc, fault)),
    }
}

/// Returns the problem of a file, which is that of its abstraction.
pub(crate) fn problem_of(alloc: Global, file: &File) -> Result<Problem, EarlyEnd>
    requires { HasNumbersInRange file.now }
    ensures { Yields (IsQuestionOf file.now) (IsRefusal (HasNoAbstraction file.now)) result }
{
    Ok(abstract_in(alloc, file)?.into_problem())
}
