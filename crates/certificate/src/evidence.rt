//! Evidence, and the faults of a text that is not the text of evidence.
ghost use Rattle.std.specs.Prelude.{◌≡◌};
ghost use Rattle.certificate.specs.declared.evidence.EvidenceFault.TheVariants.{NoMemory as NoRoom};

use crate::cert::Cert;
use kat_model::NoMemory;
use std::alloc::{AllocError, AllocFailed};
use string_tables::GString;

/// Evidence for an answer.
#[derive(Drop)]
pub enum Evidence {
    /// A certificate that both sides are the same.
    Equal(Cert),
    /// A string that refutes that they are the same.
    Different(GString),
}

/// The first fault of a text that is not the text of evidence. Lines are counted from 1.
#[derive(Clone, Copy, Debug, PartialEq, Eq)]
pub enum EvidenceFault {
    /// Out of memory.
    NoMemory,
    /// Line 1 is not one of `kat 1 equal`, `kat 2 equal`, `kat 1 equal under` and `kat 1 different`.
    Header,
    /// The line has none of the forms that are allowed there.
    Line(u64),
    /// The line names a node that no earlier line defines.
    NodeOrder(u64),
    /// The node of the line equals an earlier node of the same kind.
    DoubleNode(u64),
    /// A set of the line is not strictly ascending.
    SetOrder(u64),
    /// A numeral of the line is 2^64 or more.
    NumberTooWide(u64),
    /// The text ends before a complete line `end`.
    Truncated,
    /// Bytes follow the line `end`. This is the number of the line after it.
    Trailing(u64),
}

impl From<NoMemory> for EvidenceFault {
    ghost from_gives = { λ _ fault. fault ≡ NoRoom };

    fn from(_: NoMemory) -> Self {
        EvidenceFault::NoMemory
    }
}

impl From<AllocError> for EvidenceFault {
    ghost from_gives = { λ _ fault. fault ≡ NoRoom };

    fn from(_: AllocError) -> Self {
        EvidenceFault::NoMemory
    }
}

impl<T: Drop> From<AllocFailed<T>> for EvidenceFault {
    ghost from_gives = { λ _ fault. fault ≡ NoRoom };

    fn from(_: AllocFailed<T>) -> Self {
        EvidenceFault::NoMemory
    }
}
