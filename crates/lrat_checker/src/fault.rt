//! Faults of texts.
ghost use Rattle.std.specs.Prelude.{◌≡◌};
ghost use Rattle.lrat_checker.specs.declared.fault.CnfFault.TheVariants.{NoMemory as NoRoomForCnf};
ghost use Rattle.lrat_checker.specs.declared.fault.ProofFault.TheVariants.{NoMemory as NoRoomForProof};

use kat_model::NoMemory;
use std::alloc::{AllocError, AllocFailed};

/// The first fault of a DIMACS CNF text, with its line. Lines are numbered from 1. The line of a fault of the end of
/// the text is the last line, which is empty if the text ends with a line feed.
#[derive(Clone, Copy, PartialEq, Eq, Debug)]
pub enum CnfFault {
    /// Out of memory.
    NoMemory,
    /// The text does not begin with `p cnf VARIABLES CLAUSES`, where both are decimal numbers.
    Header(usize),
    /// There are more variables than `MAX_VARIABLE`, or 2^64 clauses or more.
    TooLarge(usize),
    /// The word is not 0 or a literal: a decimal number, or one after a minus sign.
    NotLiteral(usize),
    /// The variable of a literal is greater than the number of variables.
    UnknownVariable(usize),
    /// The text ends within a clause, which a 0 ends.
    Unended(usize),
    /// The number of clauses is not that of the header.
    WrongCount(usize),
}

/// The first fault of an LRAT text, with its line. Lines are numbered from 1. The line of a fault of the end of the
/// text is the last line, which is empty if the text ends with a line feed.
#[derive(Clone, Copy, PartialEq, Eq, Debug)]
pub enum ProofFault {
    /// Out of memory.
    NoMemory,
    /// The word is not an id: a decimal number from 1 to 2^64 - 1.
    NotId(usize),
    /// The word is not 0 or a literal: a decimal number, or one after a minus sign, whose variable is at most
    /// `MAX_VARIABLE`.
    NotLiteral(usize),
    /// The word is not 0 or a hint: an id, or one after a minus sign.
    NotHint(usize),
    /// The text ends within a line of the proof, which a 0 ends.
    Unended(usize),
}

impl From<NoMemory> for CnfFault {
    ghost from_gives = { λ _ fault. fault ≡ NoRoomForCnf };

    fn from(_: NoMemory) -> Self {
        CnfFault::NoMemory
    }
}

impl From<AllocError> for CnfFault {
    ghost from_gives = { λ _ fault. fault ≡ NoRoomForCnf };

    fn from(_: AllocError) -> Self {
        CnfFault::NoMemory
    }
}

impl<T: Drop> From<AllocFailed<T>> for CnfFault {
    ghost from_gives = { λ _ fault. fault ≡ NoRoomForCnf };

    fn from(_: AllocFailed<T>) -> Self {
        CnfFault::NoMemory
    }
}

impl From<NoMemory> for ProofFault {
    ghost from_gives = { λ _ fault. fault ≡ NoRoomForProof };

    fn from(_: NoMemory) -> Self {
        ProofFault::NoMemory
    }
}

impl From<AllocError> for ProofFault {
    ghost from_gives = { λ _ fault. fault ≡ NoRoomForProof };

    fn from(_: AllocError) -> Self {
        ProofFault::NoMemory
    }
}

impl<T: Drop> From<AllocFailed<T>> for ProofFault {
    ghost from_gives = { λ _ fault. fault ≡ NoRoomForProof };

    fn from(_: AllocFailed<T>) -> Self {
        ProofFault::NoMemory
    }
}
