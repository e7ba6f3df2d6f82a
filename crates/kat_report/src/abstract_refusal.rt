//! The line that reports why a file has no abstraction.
ghost use Rattle.std.specs.Prelude.{◌≡◌, IfOk};
ghost use Rattle.kat_report.specs.AbstractRefusals.{abstract_fault_word, abstract_fault_line};

use abstraction::AbstractFault;
use kat_model::NoMemory;
use std::alloc::Global;
use text_print::{put, put_word};

fn word(fault: &AbstractFault) -> &'static str
    ensures { result.now ≡ abstract_fault_word fault.now }
{
    match fault {
        AbstractFault::NoMemory => "NoMemory",
        AbstractFault::TooManyTests => "TooManyTests",
        AbstractFault::TooManyActions => "TooManyActions",
        AbstractFault::ProblemTooLarge => "ProblemTooLarge",
    }
}

/// Returns the line `refused: WORD`, which reports why a file has no abstraction. Fails only when out of memory.
pub fn abstract_fault_line(alloc: Global, fault: &AbstractFault) -> Result<Vec<u8>, NoMemory>
    ensures { IfOk result (λ v. v.items ≡ abstract_fault_line fault.now) }
{
    let mut line = b"refused: ".to_vec(alloc)?;
    put_word(&mut line, word(fault))?;
    put(&mut line, b"\n")?;
    Ok(line)
}
