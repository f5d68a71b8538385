use base_types::NoMemory;
use thiserror::Error;

/// Why an item is not read in a form.
#[derive(Clone, Copy, Debug, Eq, Error, PartialEq)]
pub enum FormFault {
    /// The item has another shape.
    #[error("the item has another shape")]
    Shape,
    /// No memory was left.
    #[error("no memory is left")]
    NoMemory,
}

impl From<NoMemory> for FormFault {
    ghost use Rattle.std.specs.Prelude.{◌≡◌};
    ghost use Rattle.cbor_fields.specs.declared.fault.FormFault.TheVariants as faults;

    ghost from_gives = { λ _ e. e ≡ faults.NoMemory };

    fn from(_: NoMemory) -> FormFault {
        FormFault::NoMemory
    }
}
