//! The reasons why a program has no form.
ghost use Rattle.std.specs.Prelude.{◌≡◌};
ghost use Rattle.one_loop.specs.declared.fault.OneLoopFault.TheVariants.{NoMemory as NoRoom};

use kat_model::NoMemory;

/// The reason why a program has no form.
#[derive(Clone, Copy)]
pub enum OneLoopFault {
    /// Out of memory.
    NoMemory,
    /// There are `MAX_VARS` variables, which leaves no room for the counter.
    TooManyVars,
    /// There are more statements than the greatest number of the width, including nested ones. Holds their number, or
    /// `u64::MAX` if it is larger.
    TooManyStatements(u64),
}

impl From<NoMemory> for OneLoopFault {
    ghost from_gives = { λ _ fault. fault ≡ NoRoom };

    fn from(_: NoMemory) -> Self {
        OneLoopFault::NoMemory
    }
}
