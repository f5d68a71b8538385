use base_types::NoMemory;
use cbor_core::Fault;
use item_codec::Refusal;
use thiserror::Error;

/// Why bytes are not read as an envelope.
#[derive(Clone, Copy, Debug, Eq, Error, PartialEq)]
pub enum EnvelopeFault {
    /// The bytes spell no item, and this is their first fault.
    #[error("no CBOR item: {0}")]
    Cbor(Fault),
    /// A part is missing or has another shape. `member` is 0 for the envelope as a whole, 2 for the
    /// wrapper with the digest and the blocks, 3 for the manifest, 12 for its sequence number, 13 for
    /// its common part, and 15 for its identifier.
    #[error("the member {member} has another shape")]
    Shape { member: u64 },
    /// No memory was left.
    #[error("no memory is left")]
    NoMemory,
}

impl From<NoMemory> for EnvelopeFault {
    ghost use Rattle.std.specs.Prelude.{◌≡◌};
    ghost use Rattle.suit_envelope.specs.declared.fault.EnvelopeFault.TheVariants as faults;

    ghost from_gives = { λ _ e. e ≡ faults.NoMemory };

    fn from(_: NoMemory) -> EnvelopeFault {
        EnvelopeFault::NoMemory
    }
}

impl Refusal for EnvelopeFault {
    ghost use Rattle.suit_envelope.specs.declared.fault.EnvelopeFault.TheVariants as faults;

    ghost no_memory = { faults.NoMemory };

    fn out_of_memory() -> EnvelopeFault {
        EnvelopeFault::NoMemory
    }
}
