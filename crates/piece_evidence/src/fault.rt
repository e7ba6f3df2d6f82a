//! Faults of texts that are not evidence for pieces.
ghost use Rattle.std.specs.Prelude.{◌≡◌};
ghost use Rattle.piece_evidence.specs.declared.fault.SectionFault.TheVariants.{NoMemory as NoRoom};

use kat_model::NoMemory;
use std::alloc::AllocFailed;

/// The first fault of a text that is not evidence for pieces. Lines are counted from 1.
#[derive(Clone, Copy, Debug, PartialEq, Eq)]
pub enum SectionFault {
    /// Out of memory.
    NoMemory,
    /// Line 1 is not `kat 1 agree`.
    Header,
    /// The line is not one that is allowed there: `piece K` or `end` between sections, `kat 1 agree` after `end`.
    Line(u64),
    /// The number of a piece, in this line, is 2^64 or more.
    NumberTooWide(u64),
    /// The text ends before a complete line `end` that is not in a section, or within a line after it.
    Truncated,
}

impl From<NoMemory> for SectionFault {
    ghost from_gives = { λ _ fault. fault ≡ NoRoom };

    fn from(_: NoMemory) -> Self {
        SectionFault::NoMemory
    }
}

impl<T: Drop> From<AllocFailed<T>> for SectionFault {
    ghost from_gives = { λ _ fault. fault ≡ NoRoom };

    fn from(_: AllocFailed<T>) -> Self {
        SectionFault::NoMemory
    }
}
