//! The reasons why a graph has no places.
ghost use Rattle.std.specs.Prelude.{◌≡◌};
ghost use Rattle.flow_places.specs.declared.fault.PlaceFault.TheVariants.{NoMemory as NoRoom};

use kat_model::NoMemory;

/// The reason why a graph has no places.
#[derive(Clone, Copy)]
pub enum PlaceFault {
    /// Out of memory.
    NoMemory,
    /// A loop that is reached has no place.
    UncutLoop,
}

impl From<NoMemory> for PlaceFault {
    ghost from_gives = { λ _ fault. fault ≡ NoRoom };

    fn from(_: NoMemory) -> Self {
        PlaceFault::NoMemory
    }
}
