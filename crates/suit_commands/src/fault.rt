use base_types::NoMemory;
use cbor_core::Fault;
use item_codec::Refusal;
use thiserror::Error;

/// Why bytes are not read as a sequence, or a sequence is not run.
#[derive(Clone, Copy, Debug, Eq, Error, PartialEq)]
pub enum SequenceFault {
    /// The bytes spell no item, and this is their first fault. Its place counts in the bytes of the
    /// sequence that has it.
    #[error("no CBOR item: {0}")]
    Cbor(Fault),
    /// A part has another shape.
    #[error("a part has another shape")]
    Shape,
    /// No command has this number.
    #[error("no command has the number {0}")]
    Command(u64),
    /// No parameter has this label.
    #[error("no parameter has the label {0}")]
    Parameter(u64),
    /// A sequence stands inside more than 8 others.
    #[error("a sequence stands inside more than 8 others")]
    Nesting,
    /// No component has this index. No reader answers it.
    #[error("no component has the index {0}")]
    Index(u64),
    /// No memory was left.
    #[error("no memory is left")]
    NoMemory,
}

impl From<NoMemory> for SequenceFault {
    ghost use Rattle.std.specs.Prelude.{◌≡◌};
    ghost use Rattle.suit_commands.specs.declared.fault.SequenceFault.TheVariants as faults;

    ghost from_gives = { λ _ e. e ≡ faults.NoMemory };

    fn from(_: NoMemory) -> SequenceFault {
        SequenceFault::NoMemory
    }
}

impl Refusal for SequenceFault {
    ghost use Rattle.suit_commands.specs.declared.fault.SequenceFault.TheVariants as faults;

    ghost no_memory = { faults.NoMemory };

    fn out_of_memory() -> SequenceFault {
        SequenceFault::NoMemory
    }
}
