//! The reasons why there is no term.
ghost use Rattle.std.specs.Prelude.{◌≡◌};
ghost use Rattle.flow_places.specs.declared.term_fault.TermFault.TheVariants.{NoMemory as NoRoom};

use kat_model::NoMemory;

/// The reason why elimination gives no term.
#[derive(Clone, Copy)]
pub enum TermFault {
    /// Out of memory.
    NoMemory,
    /// After some place is eliminated, the terms between the others have more than `MAX_TERM_NODES` nodes together.
    TooLarge,
}

impl From<NoMemory> for TermFault {
    ghost from_gives = { λ _ fault. fault ≡ NoRoom };

    fn from(_: NoMemory) -> Self {
        TermFault::NoMemory
    }
}
