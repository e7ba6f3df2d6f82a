//! The reasons why edges are not split.
ghost use Rattle.std.specs.Prelude.{◌≡◌};
ghost use Rattle.flow_edges.specs.declared.splits.split_fault.SplitFault.TheVariants.{NoMemory as NoRoom};

use kat_model::NoMemory;

/// The reason why edges are not split.
#[derive(Clone, Copy)]
pub enum SplitFault {
    /// Out of memory.
    NoMemory,
    /// There would be more than `MAX_WAYS` edges from one place.
    TooManyPaths,
}

impl From<NoMemory> for SplitFault {
    ghost from_gives = { λ _ fault. fault ≡ NoRoom };

    fn from(_: NoMemory) -> Self {
        SplitFault::NoMemory
    }
}
