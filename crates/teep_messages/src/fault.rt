use base_types::NoMemory;
use cbor_core::Fault;
use item_codec::Refusal;
use thiserror::Error;

/// Why bytes are not read as a message.
#[derive(Clone, Copy, Debug, Eq, Error, PartialEq)]
pub enum MessageFault {
    /// The bytes spell no item, and this is their first fault.
    #[error("no CBOR item: {0}")]
    Cbor(Fault),
    /// The first item is none of the numbers 1, 2, 3, 5 and 6.
    #[error("no kind of message has the number {0}")]
    Kind(u64),
    /// A part has another shape. `field` is the label of an option, 100 for the message as a whole,
    /// 101 for the options, 102 for the suites, 103 for the profiles, 104 for the items, and 105 for
    /// the code.
    #[error("the field {field} has another shape")]
    Shape { field: u64 },
    /// The option with the label `field` is a byte string that is too short or too long.
    #[error("the field {field} has another size")]
    Size { field: u64 },
    /// No memory was left.
    #[error("no memory is left")]
    NoMemory,
}

impl From<NoMemory> for MessageFault {
    ghost use Rattle.std.specs.Prelude.{◌≡◌};
    ghost use Rattle.teep_messages.specs.declared.fault.MessageFault.TheVariants as faults;

    ghost from_gives = { λ _ e. e ≡ faults.NoMemory };

    fn from(_: NoMemory) -> MessageFault {
        MessageFault::NoMemory
    }
}

impl Refusal for MessageFault {
    ghost use Rattle.teep_messages.specs.declared.fault.MessageFault.TheVariants as faults;

    ghost no_memory = { faults.NoMemory };

    fn out_of_memory() -> MessageFault {
        MessageFault::NoMemory
    }
}
