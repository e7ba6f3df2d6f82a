//! The reasons why a match has no piece.
ghost use Rattle.std.specs.Prelude.{◌≡◌};
ghost use Rattle.flow_matches.specs.declared.fault.MatchFault.TheVariants.{NoMemory as NoRoom};

use kat_model::NoMemory;

/// The reason why a match has no piece.
#[derive(Clone, Copy)]
pub enum MatchFault {
    /// Out of memory.
    NoMemory,
    /// The exits of these two matches, by their numbers, share a block of the second graph, so that nothing decides by
    /// which of them the second graph leaves.
    Ambiguous(usize, usize),
}

impl From<NoMemory> for MatchFault {
    ghost from_gives = { λ _ fault. fault ≡ NoRoom };

    fn from(_: NoMemory) -> Self {
        MatchFault::NoMemory
    }
}
