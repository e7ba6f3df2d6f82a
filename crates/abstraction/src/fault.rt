//! The reasons why a file has no abstraction.
ghost use Rattle.std.specs.Prelude.{◌≡◌};
ghost use Rattle.abstraction.specs.declared.fault.AbstractFault.TheVariants.{NoMemory as NoRoom};

use kat_model::NoMemory;
use std::alloc::AllocError;

/// The reason why a file has no abstraction.
#[derive(Clone, Copy)]
pub enum AbstractFault {
    /// Out of memory.
    NoMemory,
    /// There are more than `MAX_TESTS` tests: the declared ones and the comparisons of the goal.
    TooManyTests,
    /// There are more than `MAX_ACTIONS` actions: the declared ones and the assignments of the goal.
    TooManyActions,
    /// The problem has more than `MAX_TERM_NODES` nodes, including the derived hypotheses.
    ProblemTooLarge,
}

impl From<NoMemory> for AbstractFault {
    ghost from_gives = { λ _ fault. fault ≡ NoRoom };

    fn from(_: NoMemory) -> Self {
        AbstractFault::NoMemory
    }
}

impl From<AllocError> for AbstractFault {
    ghost from_gives = { λ _ fault. fault ≡ NoRoom };

    fn from(_: AllocError) -> Self {
        AbstractFault::NoMemory
    }
}
