//! The reasons why there is no table.
ghost use Rattle.std.specs.Prelude.{◌≡◌};
ghost use Rattle.flow_edges.specs.declared.fault.TableFault.TheVariants.{NoMemory as NoRoom};

use kat_model::NoMemory;

/// The reason why there is no table of tests or actions.
#[derive(Clone, Copy)]
pub enum TableFault {
    /// Out of memory.
    NoMemory,
    /// The edges have more than `MAX_TESTS` comparisons.
    TooManyTests,
    /// The edges have more than `MAX_ACTIONS` actions that change something.
    TooManyActions,
}

impl From<NoMemory> for TableFault {
    ghost from_gives = { λ _ fault. fault ≡ NoRoom };

    fn from(_: NoMemory) -> Self {
        TableFault::NoMemory
    }
}
