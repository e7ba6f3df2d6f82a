//! Input and output of the program as traits, and sending of bytes.
ghost use Rattle.std.specs.Prelude.{◌≡◌, ◌<◌, ◌^◌, ℕ, List, Option, OnOk, OnErr};
ghost use Rattle.std.specs.Io.KnownBytes.{Appends};
ghost use Rattle.kat_io.specs.Outside.{HasCause, AppendsPrefix, Puts};
ghost use Rattle.kat_io.specs.KnownContent.{KnownContent};
ghost use Rattle.kat_io.specs.Gets.{IsCounted, GetsFrom};
ghost use Rattle.kat_io.specs.declared.outside.GetFault.TheVariants.{NoMemory};

use std::alloc::{AllocError, Global};

/// The sink failed. Its count of faults rose in the call.
#[derive(Clone, Copy, Debug, PartialEq, Eq)]
pub struct Failed;

/// Why a shelf returned no content.
#[derive(Clone, Copy, PartialEq, Eq)]
pub enum GetFault {
    /// Out of memory.
    NoMemory,
    /// The shelf failed on that name, or the name is missing. Its count of faults rose in the call.
    Failed,
    /// The content has more bytes than the limit.
    TooLong,
}

impl From<AllocError> for GetFault {
    ghost from_gives = { λ _ e. e ≡ NoMemory };

    fn from(_: AllocError) -> Self {
        GetFault::NoMemory
    }
}

/// A shelf of contents by name.
pub trait Shelf {
    /// What is known about the content under a name.
    ghost content: { Self → List ℕ → KnownContent };

    /// The number of failures, saturated at 2^64 - 1.
    ghost faults: { Self → ℕ };

    /// The last name on which it failed.
    ghost last_failed: { Self → Option (List ℕ) };

    /// Returns the whole content of a name, unless it has more bytes than the limit. Copies the name before it reads
    /// anything. A missing name is a fault. The contents of the shelf do not change.
    fn get(&mut self, alloc: Global, name: &str, limit: Option<u64>) -> Result<Vec<u8>, GetFault>
        ensures cause { IsCounted result name.now (faults self.old) (faults self.new) (last_failed self.old) (last_failed self.new) }
        ensures whole { GetsFrom (content self.old name.now) result limit }
        ensures kept { (other : List ℕ) → content self.new other ≡ content self.old other };
}

/// A sink of bytes.
pub trait Sink {
    /// The bytes taken so far, if known.
    ghost taken: { Self → Option (List ℕ) };

    /// The number of failures, saturated at 2^64 - 1.
    ghost faults: { Self → ℕ };

    /// Takes a prefix of `piece`, at least one byte unless it is empty, and returns its length. If nothing of a piece
    /// that is not empty can be taken, this is a fault. Takes nothing on a fault.
    fn put(&mut self, piece: &[u8]) -> Result<usize, Failed>
        ensures bytes { Puts (taken self.old) (taken self.new) result piece.now }
        ensures cause { HasCause (faults self.old) (faults self.new) result };
}

/// Puts until all bytes are taken. After a fault, a proper prefix of `bytes` was taken. Takes no memory.
pub fn send<K: Sink>(sink: &mut K, bytes: &[u8]) -> Result<(), Failed>
    ensures sent { OnOk result (Appends (K.taken sink.old) (K.taken sink.new) bytes.now) }
    ensures front { OnErr result (AppendsPrefix (K.taken sink.old) (K.taken sink.new) bytes.now) }
    ensures cause { HasCause (K.faults sink.old) (K.faults sink.new) result }
{
    let mut rest = bytes;
    while !rest.is_empty() {
        let count = sink.put(rest)?;
        rest = &rest[count..];
    }
    Ok(())
}
