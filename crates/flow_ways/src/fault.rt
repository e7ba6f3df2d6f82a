//! The reasons why ways are not found.
ghost use Rattle.std.specs.Prelude.{◌≡◌};
ghost use Rattle.flow_ways.specs.Faults.{way_fault_of};
ghost use Rattle.flow_ways.specs.declared.fault.WayFault.TheVariants.{NoMemory as NoRoom};

use flow_forms::FormFault;
use kat_model::NoMemory;

/// The reason why ways are not found.
#[derive(Clone, Copy)]
pub enum WayFault {
    /// Out of memory.
    NoMemory,
    /// A form is too large.
    TooLarge,
    /// There are more than `MAX_WAYS` ways from one place.
    TooManyPaths,
}

impl From<NoMemory> for WayFault {
    ghost from_gives = { λ _ fault. fault ≡ NoRoom };

    fn from(_: NoMemory) -> Self {
        WayFault::NoMemory
    }
}

impl From<FormFault> for WayFault {
    ghost from_gives = { λ reason fault. fault ≡ way_fault_of reason };

    fn from(fault: FormFault) -> Self {
        match fault {
            FormFault::NoMemory => WayFault::NoMemory,
            FormFault::TooLarge => WayFault::TooLarge,
        }
    }
}
