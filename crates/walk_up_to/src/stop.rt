//! Why a walk stops early.
ghost use Rattle.std.specs.Prelude.{◌≡◌};
ghost use Rattle.walk_up_to.specs.declared.stop.EarlyStop.TheVariants.{NoMemory as NoRoom};

use kat_model::NoMemory;
use std::alloc::AllocError;

/// Why a walk stops early.
#[derive(Clone, Copy)]
pub enum EarlyStop {
    /// Out of memory.
    NoMemory,
    /// The walk needs more pairs than may be listed.
    PairLimit,
    /// There is a limit on the number of pairs, and the walk costs more than a limited walk may cost.
    CostLimit,
}

impl From<NoMemory> for EarlyStop {
    ghost from_gives = { λ _ stop. stop ≡ NoRoom };

    fn from(_: NoMemory) -> Self {
        EarlyStop::NoMemory
    }
}

impl From<AllocError> for EarlyStop {
    ghost from_gives = { λ _ stop. stop ≡ NoRoom };

    fn from(_: AllocError) -> Self {
        EarlyStop::NoMemory
    }
}
