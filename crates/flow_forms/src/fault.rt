//! The reasons why a form is not made.
ghost use Rattle.std.specs.Prelude.{◌≡◌};
ghost use Rattle.flow_forms.specs.declared.fault.FormFault.TheVariants.{NoMemory as NoRoom};

use kat_model::NoMemory;

/// The reason why a form is not made.
#[derive(Clone, Copy)]
pub enum FormFault {
    /// Out of memory.
    NoMemory,
    /// The form has more than `MAX_FORM_NODES` nodes, or more than `MAX_FORM_PARTS` parts of sums are to be written for
    /// it.
    TooLarge,
}

impl From<NoMemory> for FormFault {
    ghost from_gives = { λ _ fault. fault ≡ NoRoom };

    fn from(_: NoMemory) -> Self {
        FormFault::NoMemory
    }
}
