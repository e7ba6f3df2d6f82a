//! The line with the reason why a text is refused.
ghost use Rattle.std.specs.Prelude.{◌≡◌, ◌≢◌, ◌++◌, ◌∷◌, [], codes, IfOk, OnOk};
ghost use Rattle.kat_report.specs.Refusals.{fault_word, fault_place, text_fault_line, place_text};

use kat_model::NoMemory;
use std::alloc::Global;
use text_parser::TextFault;
use text_print::{put_numbered, put_word};

fn word(fault: &TextFault) -> &'static str
    ensures { result.now ≡ fault_word fault.now }
{
    match fault {
        TextFault::NoMemory => "NoMemory",
        TextFault::TooLong => "TooLong",
        TextFault::NotUtf8(_) => "NotUtf8",
        TextFault::BadToken(_) => "BadToken",
        TextFault::Syntax(_) => "Syntax",
        TextFault::TooDeep(_) => "TooDeep",
        TextFault::NumberTooWide(_) => "NumberTooWide",
        TextFault::UnknownName(_) => "UnknownName",
        TextFault::DoubleName(_) => "DoubleName",
        TextFault::Sort(_) => "Sort",
        TextFault::TooLarge(_) => "TooLarge",
        TextFault::TooMany(_) => "TooMany",
        TextFault::NoGoal => "NoGoal",
        TextFault::TwoGoals(_) => "TwoGoals",
    }
}

fn place(fault: &TextFault) -> Option<usize>
    ensures { result ≡ fault_place fault.now }
{
    match fault {
        TextFault::NoMemory | TextFault::TooLong | TextFault::NoGoal => None,
        TextFault::NotUtf8(at)
        | TextFault::BadToken(at)
        | TextFault::Syntax(at)
        | TextFault::TooDeep(at)
        | TextFault::NumberTooWide(at)
        | TextFault::UnknownName(at)
        | TextFault::DoubleName(at)
        | TextFault::Sort(at)
        | TextFault::TooLarge(at)
        | TextFault::TooMany(at)
        | TextFault::TwoGoals(at) => Some(*at),
    }
}

/// Appends the end of a line that refuses a text: the word of the fault, a space and the place in bytes, if any, and a
/// line feed. Fails only when out of memory.
pub fn put_fault(alloc: Global, line: &mut Vec<u8>, fault: &TextFault) -> Result<(), NoMemory>
    ensures { OnOk result (line.new.items ≡ line.old.items ++ (fault_word fault.now ++ place_text (fault_place fault.now) ++ 10 ∷ [])) }
{
    put_word(line, word(fault))?;
    if let Some(at) = place(fault) {
        put_numbered(alloc, line, " ", at)?;
    }
    line.push(b'\n')?;
    Ok(())
}

/// Returns the line with the reason why a text is refused: `refused: WORD`, and a space and the place in bytes, if any.
/// Fails only when out of memory.
pub fn text_fault_line(alloc: Global, fault: &TextFault) -> Result<Vec<u8>, NoMemory>
    requires { fault.now ≢ TextFault.NoMemory }
    ensures { IfOk result (λ line. line.items ≡ text_fault_line fault.now) }
{
    let mut line = b"refused: ".to_vec(alloc)?;
    put_fault(alloc, &mut line, fault)?;
    Ok(line)
}
