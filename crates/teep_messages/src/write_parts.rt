ghost use Rattle.std.specs.Prelude.{◌≡◌, IfOk};
ghost use Rattle.cbor_core.specs.declared.item.Item.TheVariants as i;
ghost use Rattle.teep_messages.specs.Written as Written;

use crate::forms::{OperationPair, ProfileArray};
use crate::labels::{ERROR, QUERY_REQUEST, QUERY_RESPONSE, SUCCESS, UPDATE};
use crate::message::Message;
use crate::operation::{Profile, Suite};
use crate::options::Options;
use crate::write_options::write_options;
use base_types::{List, OrMemory};
use cbor_core::Item;
use cbor_fields::{Form, ListOf};
use std::alloc::Global;

/// The item that a message is written as.
pub fn write_item(alloc: Global, message: &Message) -> OrMemory<Item>
    ensures { IfOk result (λ x. x ≡ Written.written message.now) }
{
    match message {
        Message::QueryRequest {
            options,
            suites,
            profiles,
            items,
        } => write_question(alloc, options, suites, profiles, *items),
        Message::QueryResponse { options } => write_plain(alloc, QUERY_RESPONSE, options),
        Message::Update { options } => write_plain(alloc, UPDATE, options),
        Message::Success { options } => write_plain(alloc, SUCCESS, options),
        Message::Error { options, code } => write_error(alloc, options, *code),
    }
}

/// The item of a question.
fn write_question(
    alloc: Global,
    options: &Options,
    suites: &List<Suite>,
    profiles: &List<Profile>,
    items: u64,
) -> OrMemory<Item>
    ensures { IfOk result (λ x. x ≡ i.Array (Written.question options.now suites.now profiles.now items)) }
{
    let mut members = List::new(alloc);
    members.push(Item::Unsigned(QUERY_REQUEST))?;
    members.push(write_options(alloc, options)?)?;
    members.push(ListOf::<ListOf<OperationPair>>::write(alloc, suites)?)?;
    members.push(ListOf::<ProfileArray>::write(alloc, profiles)?)?;
    members.push(Item::Unsigned(items))?;
    Ok(Item::Array(members))
}

/// The item of a kind that has nothing but options.
fn write_plain(alloc: Global, kind: u64, options: &Options) -> OrMemory<Item>
    ensures { IfOk result (λ x. x ≡ i.Array (Written.plain kind options.now)) }
{
    let mut members = List::new(alloc);
    members.push(Item::Unsigned(kind))?;
    members.push(write_options(alloc, options)?)?;
    Ok(Item::Array(members))
}

/// The item of an error.
fn write_error(alloc: Global, options: &Options, code: u64) -> OrMemory<Item>
    ensures { IfOk result (λ x. x ≡ i.Array (Written.failure options.now code)) }
{
    let mut members = List::new(alloc);
    members.push(Item::Unsigned(ERROR))?;
    members.push(write_options(alloc, options)?)?;
    members.push(Item::Unsigned(code))?;
    Ok(Item::Array(members))
}
