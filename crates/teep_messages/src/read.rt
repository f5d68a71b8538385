ghost use Rattle.std.specs.Prelude.{◌≡◌, ◌⊎◌, IfOk, Ok, Err};
ghost use Rattle.item_codec.specs.Answers.{Answers, IsAnswer};
ghost use Rattle.item_codec.specs.Fields.{shaped};
ghost use Rattle.item_codec.specs.Whole.{BytesAnswer};
ghost use Rattle.teep_messages.specs.declared.message.Message.{Message};
ghost use Rattle.teep_messages.specs.declared.fault.MessageFault.{MessageFault};
ghost use Rattle.teep_messages.specs.Messages.{MessageIs, RefusedAs, message_of, parts_in, question_in, question_of, plain_in, error_in, error_of};

use crate::fault::MessageFault;
use crate::forms::{OperationPair, ProfileArray};
use crate::labels::{
    CODE, ERROR, ITEMS, MESSAGE, PROFILES, QUERY_REQUEST, QUERY_RESPONSE, SUCCESS, SUITES, UPDATE,
};
use crate::message::Message;
use crate::options::Options;
use crate::read_options::read_options;
use cbor_core::{CborFault, Item, decode_whole};
use cbor_fields::{Form, ListOf, Unsigned};
use item_codec::read_part;
use std::alloc::Global;

impl Message {
    /// Reads a message from its bytes.
    ///
    /// A refusal is the first in this order. `Cbor` where the bytes spell no item (RFC 8949, section
    /// 4.2.1). `Shape` of 100 where the item is no array, or its first item is not unsigned. `Kind`
    /// where that number is no kind's. `Shape` of 100 where another number of items follows. `Shape`
    /// of 101 where the options are no map. The options in ascending order of labels, each `Shape`
    /// and then `Size` with its label. `Shape` of 102 for the suites, 103 for the profiles, 104 for
    /// the items, and 105 for the code. `NoMemory` where no memory is left.
    pub fn read(alloc: Global, bytes: &[u8]) -> Result<Message, MessageFault>
        // The bytes are the message that is read.
        ensures found { IfOk result (λ message. MessageIs message bytes.now) }
        // The message that the bytes are is read, unless memory runs out.
        ensures only { (message : Message) → MessageIs message bytes.now → IsAnswer MessageFault.NoMemory result (Ok message) }
        // A refusal but NoMemory is the one that comes first.
        ensures bad { (fault : MessageFault) → result ≡ Err fault → (fault ≡ MessageFault.NoMemory) ⊎ RefusedAs bytes.now fault }
        // The refusal that comes first is the answer, unless memory runs out.
        ensures refused { (fault : MessageFault) → RefusedAs bytes.now fault → IsAnswer MessageFault.NoMemory result (Err fault) }
    {
        read_bytes(alloc, bytes)
    }
}

/// The message that bytes are.
fn read_bytes(alloc: Global, bytes: &[u8]) -> Result<Message, MessageFault>
    ensures { BytesAnswer MessageFault.NoMemory (λ f. MessageFault.Cbor f) message_of bytes.now result }
{
    match decode_whole(alloc, bytes) {
        Ok(item) => read_item(alloc, &item),
        Err(CborFault::Bad(fault)) => Err(MessageFault::Cbor(fault)),
        Err(CborFault::NoMemory) => Err(MessageFault::NoMemory),
    }
}

/// The message that an item is.
#[tactic(auto, unfolding(crate::specs::Messages::message_of))]
fn read_item(alloc: Global, item: &Item) -> Result<Message, MessageFault>
    ensures { Answers MessageFault.NoMemory (message_of item.now) result }
{
    let Some([kind, parts @ ..]) = item.as_array() else {
        return Err(MessageFault::Shape { field: MESSAGE });
    };
    match kind.as_unsigned() {
        Some(number) => read_parts(alloc, number, parts),
        None => Err(MessageFault::Shape { field: MESSAGE }),
    }
}

/// The value of a part that has the form, or `Shape` with the part's number.
fn read_shaped<V: Drop, F: Form<V>>(
    alloc: Global,
    item: &Item,
    number: u64,
) -> Result<V, MessageFault>
    ensures { Answers MessageFault.NoMemory (shaped (MessageFault.Shape number) F.view item.now) result }
{
    read_part::<V, MessageFault, F>(alloc, item, MessageFault::Shape { field: number })
}

/// The message of a kind with these parts.
fn read_parts(alloc: Global, kind: u64, parts: &[Item]) -> Result<Message, MessageFault>
    ensures { Answers MessageFault.NoMemory (parts_in kind parts.now) result }
{
    match kind {
        QUERY_REQUEST => read_question(alloc, parts),
        QUERY_RESPONSE => Ok(Message::QueryResponse {
            options: read_plain(alloc, parts)?,
        }),
        UPDATE => Ok(Message::Update {
            options: read_plain(alloc, parts)?,
        }),
        SUCCESS => Ok(Message::Success {
            options: read_plain(alloc, parts)?,
        }),
        ERROR => read_error(alloc, parts),
        _ => Err(MessageFault::Kind(kind)),
    }
}

/// The question with these parts.
fn read_question(alloc: Global, parts: &[Item]) -> Result<Message, MessageFault>
    ensures { Answers MessageFault.NoMemory (question_in parts.now) result }
{
    match parts {
        [options, suites, profiles, items] => { read_four(alloc, options, suites, profiles, items) }
        _ => Err(MessageFault::Shape { field: MESSAGE }),
    }
}

/// The question with these four parts.
fn read_four(
    alloc: Global,
    options: &Item,
    suites: &Item,
    profiles: &Item,
    items: &Item,
) -> Result<Message, MessageFault>
    ensures { Answers MessageFault.NoMemory (question_of options.now suites.now profiles.now items.now) result }
{
    let options = read_options(alloc, options)?;
    let suites = read_shaped::<_, ListOf<ListOf<OperationPair>>>(alloc, suites, SUITES)?;
    let profiles = read_shaped::<_, ListOf<ProfileArray>>(alloc, profiles, PROFILES)?;
    let items = read_shaped::<_, Unsigned>(alloc, items, ITEMS)?;
    Ok(Message::QueryRequest {
        options,
        suites,
        profiles,
        items,
    })
}

/// The options of a kind that has nothing else.
fn read_plain(alloc: Global, parts: &[Item]) -> Result<Options, MessageFault>
    ensures { Answers MessageFault.NoMemory (plain_in parts.now) result }
{
    match parts {
        [options] => read_options(alloc, options),
        _ => Err(MessageFault::Shape { field: MESSAGE }),
    }
}

/// The error with these parts.
fn read_error(alloc: Global, parts: &[Item]) -> Result<Message, MessageFault>
    ensures { Answers MessageFault.NoMemory (error_in parts.now) result }
{
    match parts {
        [options, code] => read_two(alloc, options, code),
        _ => Err(MessageFault::Shape { field: MESSAGE }),
    }
}

/// The error with these two parts.
fn read_two(alloc: Global, options: &Item, code: &Item) -> Result<Message, MessageFault>
    ensures { Answers MessageFault.NoMemory (error_of options.now code.now) result }
{
    let options = read_options(alloc, options)?;
    let code = read_shaped::<_, Unsigned>(alloc, code, CODE)?;
    Ok(Message::Error { options, code })
}
