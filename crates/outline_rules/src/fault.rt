//! Faults of a text that is not the text of notes.
ghost use Rattle.std.specs.Prelude.{◌≡◌};
ghost use Rattle.outline_rules.specs.declared.fault.NotesFault.TheVariants.{NoMemory as NoRoom};

use kat_model::NoMemory;
use std::alloc::{AllocError, AllocFailed};

/// The first fault of a text that is not the text of notes. Lines are counted from 1.
#[derive(Clone, Copy)]
pub enum NotesFault {
    /// Memory ran out.
    NoMemory,
    /// Line 1 is not `kat 1 outline`.
    Header,
    /// The line has no form that is allowed at its position.
    Line(u64),
    /// A branch names a node that is not earlier, or a note names an undefined node.
    NodeOrder(u64),
    /// The node of the line equals an earlier one.
    DoubleNode(u64),
    /// A numeral of the line is 2^64 or more.
    NumberTooWide(u64),
    /// The text ends before a complete line `end`.
    Truncated,
    /// Bytes follow the line `end`. The number is that of the line after it.
    Trailing(u64),
}

impl From<NoMemory> for NotesFault {
    ghost from_gives = { λ _ fault. fault ≡ NoRoom };

    fn from(_: NoMemory) -> Self {
        NotesFault::NoMemory
    }
}

impl From<AllocError> for NotesFault {
    ghost from_gives = { λ _ fault. fault ≡ NoRoom };

    fn from(_: AllocError) -> Self {
        NotesFault::NoMemory
    }
}

impl<T: Drop> From<AllocFailed<T>> for NotesFault {
    ghost from_gives = { λ _ fault. fault ≡ NoRoom };

    fn from(_: AllocFailed<T>) -> Self {
        NotesFault::NoMemory
    }
}
