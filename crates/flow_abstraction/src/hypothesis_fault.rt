//! The reasons why hypotheses are not made.
ghost use Rattle.std.specs.Prelude.{◌≡◌};
ghost use Rattle.flow_abstraction.specs.declared.hypothesis_fault.HypothesisFault.TheVariants.{NoMemory as NoRoom};

use kat_model::NoMemory;

/// The reason why hypotheses are not made.
#[derive(Clone, Copy)]
pub(crate) enum HypothesisFault {
    /// Out of memory.
    NoMemory,
    /// There are more than `MAX_HYPS` hypotheses.
    TooMany,
}

impl From<NoMemory> for HypothesisFault {
    ghost from_gives = { λ _ fault. fault ≡ NoRoom };

    fn from(_: NoMemory) -> Self {
        HypothesisFault::NoMemory
    }
}
