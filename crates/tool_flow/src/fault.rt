//! The line that reports why two graphs have no problem.
ghost use Rattle.std.specs.Prelude.{◌≡◌, ◌≢◌, IfOk};
ghost use Rattle.flow_abstraction.specs.declared.fault.FlowFault.TheVariants.{NoMemory as NoRoom};
ghost use Rattle.tool_inputs.specs.ReplySpecs.{EndsWith};
ghost use Rattle.tool_flow.specs.FlowFaults.{flow_fault_word, flow_fault_line};

use flow_abstraction::FlowFault;
use kat_model::NoMemory;
use std::alloc::Global;
use text_print::put;
use tool_inputs::{EarlyEnd, Reply};

fn word(fault: &FlowFault) -> &'static str
    ensures { result.now ≡ flow_fault_word fault.now }
{
    match fault {
        FlowFault::NoMemory => "NoMemory",
        FlowFault::UncutLoop => "UncutLoop",
        FlowFault::TooManyPaths => "TooManyPaths",
        FlowFault::TooLarge => "TooLarge",
        FlowFault::TooManyTests => "TooManyTests",
        FlowFault::TooManyActions => "TooManyActions",
        FlowFault::ProblemTooLarge => "ProblemTooLarge",
    }
}

fn fault_line(alloc: Global, fault: &FlowFault) -> Result<Vec<u8>, NoMemory>
    ensures { IfOk result (λ v. v.items ≡ flow_fault_line fault.now) }
{
    let mut line = Vec::new(alloc);
    put(&mut line, b"refused: ")?;
    put(&mut line, word(fault).as_bytes())?;
    put(&mut line, b"\n")?;
    Ok(line)
}

/// Returns the reply to graphs that have no problem for this reason: a refusal, unless memory ran out.
pub(crate) fn fault_end(alloc: Global, fault: FlowFault) -> EarlyEnd
    ensures { EndsWith (λ status output. (status ≡ 2) × ((fault ≢ NoRoom) × (output ≡ flow_fault_line fault))) result }
{
    match fault {
        FlowFault::NoMemory => EarlyEnd::NoMemory,
        _ => match fault_line(alloc, &fault) {
            Ok(output) => EarlyEnd::Replied(Reply { status: 2, output }),
            Err(NoMemory) => EarlyEnd::NoMemory,
        },
    }
}
