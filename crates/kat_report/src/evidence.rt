//! The line with the reason why evidence is refused.
ghost use Rattle.std.specs.Prelude.{◌≡◌, ◌≢◌, ◌++◌, ◌∷◌, [], IfOk, OnOk};
ghost use Rattle.kat_report.specs.Refusals.{evidence_word, evidence_place, place_text, evidence_fault_line};

use certificate::EvidenceFault;
use kat_model::NoMemory;
use std::alloc::Global;
use text_print::{put_number, put_word};

fn word(fault: &EvidenceFault) -> &'static str
    ensures { result.now ≡ evidence_word fault.now }
{
    match fault {
        EvidenceFault::NoMemory => "NoMemory",
        EvidenceFault::Header => "Header",
        EvidenceFault::Line(_) => "Line",
        EvidenceFault::NodeOrder(_) => "NodeOrder",
        EvidenceFault::DoubleNode(_) => "DoubleNode",
        EvidenceFault::SetOrder(_) => "SetOrder",
        EvidenceFault::NumberTooWide(_) => "NumberTooWide",
        EvidenceFault::Truncated => "Truncated",
        EvidenceFault::Trailing(_) => "Trailing",
    }
}

fn place(fault: &EvidenceFault) -> Option<u64>
    ensures { result ≡ evidence_place fault.now }
{
    match fault {
        EvidenceFault::NoMemory | EvidenceFault::Header | EvidenceFault::Truncated => None,
        EvidenceFault::Line(n)
        | EvidenceFault::NodeOrder(n)
        | EvidenceFault::DoubleNode(n)
        | EvidenceFault::SetOrder(n)
        | EvidenceFault::NumberTooWide(n)
        | EvidenceFault::Trailing(n) => Some(*n),
    }
}

// Appends the word of a fault, a space and the line number, if any, and a line feed.
fn put_fault(alloc: Global, line: &mut Vec<u8>, fault: &EvidenceFault) -> Result<(), NoMemory>
    ensures { OnOk result (line.new.items ≡ line.old.items ++ (evidence_word fault.now ++ place_text (evidence_place fault.now) ++ 10 ∷ [])) }
{
    put_word(line, word(fault))?;
    if let Some(n) = place(fault) {
        put_word(line, " ")?;
        put_number(alloc, line, n)?;
    }
    line.push(b'\n')?;
    Ok(())
}

/// Returns the line with the reason why evidence is refused: `refused: evidence WORD` with the name of the fault, and a
/// space and the line number, counted from 1, if the fault is in a line. The fault `NoMemory` has no line. Fails only
/// when out of memory.
pub fn evidence_fault_line(alloc: Global, fault: &EvidenceFault) -> Result<Vec<u8>, NoMemory>
    requires { fault.now ≢ EvidenceFault.NoMemory }
    ensures { IfOk result (λ line. line.items ≡ evidence_fault_line fault.now) }
{
    let mut line = b"refused: evidence ".to_vec(alloc)?;
    put_fault(alloc, &mut line, fault)?;
    Ok(line)
}
