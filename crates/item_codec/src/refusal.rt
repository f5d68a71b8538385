ghost use Rattle.std.specs.Prelude.{◌≡◌};
ghost use Rattle.cbor_fields.specs.declared.fault.FormFault.TheVariants as form;

use cbor_fields::FormFault;

/// Why an item is refused, by a type of a codec's own. One refusal is want of memory.
pub trait Refusal: Drop {
    ghost no_memory: { Self };

    /// The refusal for want of memory.
    fn out_of_memory() -> Self
        ensures is { result ≡ no_memory };
}

impl Refusal for FormFault {
    ghost no_memory = { form.NoMemory };

    fn out_of_memory() -> FormFault {
        FormFault::NoMemory
    }
}
