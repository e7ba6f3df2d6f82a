//! The line with the reason why a program has no form with one loop.
ghost use Rattle.std.specs.Prelude.{◌≡◌, IfOk};
ghost use Rattle.tool_programs.specs.FormFaults.{form_fault_line};

use kat_model::NoMemory;
use kat_report::numbered_line;
use one_loop::OneLoopFault;
use std::alloc::Global;

// Returns the line with the reason why a program has no form with one loop: `refused: TooManyVars`, or `refused:
// TooManyStatements N` with the number of statements. The fault `NoMemory` has no line; its text is empty. Fails only when
// out of memory.
pub(crate) fn form_fault_line(alloc: Global, fault: OneLoopFault) -> Result<Vec<u8>, NoMemory>
    ensures { IfOk result (λ line. line.items ≡ form_fault_line fault) }
{
    match fault {
        OneLoopFault::NoMemory => Ok(Vec::new(alloc)),
        OneLoopFault::TooManyVars => Ok(b"refused: TooManyVars\n".to_vec(alloc)?),
        OneLoopFault::TooManyStatements(n) => {
            numbered_line(alloc, b"refused: TooManyStatements ", n)
        }
    }
}
