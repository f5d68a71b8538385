ghost use Rattle.item_codec.specs.Answers.{Answers};
ghost use Rattle.item_codec.specs.Fields.{in_map, in_array};
ghost use Rattle.teep_messages.specs.Forms.{reported_of, requested_of, operation_of, profile_of};
ghost use Rattle.teep_messages.specs.Forms as Forms;
ghost use Rattle.teep_messages.specs.Written as Written;

use crate::operation::Operation;
use crate::reported::Reported;
use crate::requested::Requested;
use base_types::{List, OrMemory};
use cbor_core::{Item, Pair, copy_items};
use cbor_fields::{Form, FormFault, Id, Truth, Unsigned};
use item_codec::{put_needed_row, put_row, read_part, take_field, take_needed};
use std::alloc::Global;

const ID: u64 = 16;

const SEQUENCE: u64 = 17;

const FLAG: u64 = 18;

/// A map `{16: id, 17: sequence}`.
pub struct ReportedMap;

impl Form<Reported> for ReportedMap {
    ghost view = { reported_of };

    ghost written = { Written.reported };

    #[tactic(auto, using(item_codec::proofs::Public::Forms::form_reads))]
    fn read(alloc: Global, item: &Item) -> Result<Reported, FormFault> {
        read_reported(alloc, item)
    }

    fn write(alloc: Global, value: &Reported) -> OrMemory<Item> {
        let pairs = List::new(alloc);
        let pairs = put_needed_row::<_, Unsigned>(alloc, pairs, SEQUENCE, &value.sequence)?;
        let pairs = put_needed_row::<_, Id>(alloc, pairs, ID, &value.id)?;
        Ok(Item::Map(pairs))
    }
}

fn read_reported(alloc: Global, item: &Item) -> Result<Reported, FormFault>
    ensures { Answers FormFault.NoMemory (in_map FormFault.Shape Forms.reported_in item.now) result }
{
    match item.as_map() {
        Some(pairs) => read_reported_pairs(alloc, pairs),
        None => Err(FormFault::Shape),
    }
}

fn read_reported_pairs(alloc: Global, pairs: &[Pair]) -> Result<Reported, FormFault>
    ensures { Answers FormFault.NoMemory (Forms.reported_in pairs.now) result }
{
    let shape = FormFault::Shape;
    let (id, pairs) = take_needed::<_, _, Id>(alloc, pairs, ID, shape, shape)?;
    let (sequence, pairs) = take_needed::<_, _, Unsigned>(alloc, pairs, SEQUENCE, shape, shape)?;
    match pairs {
        [] => Ok(Reported { id, sequence }),
        _ => Err(FormFault::Shape),
    }
}

/// A map `{16: id}`, with 17 and 18 where wanted.
pub struct RequestedMap;

impl Form<Requested> for RequestedMap {
    ghost view = { requested_of };

    ghost written = { Written.requested };

    #[tactic(auto, using(item_codec::proofs::Public::Forms::form_reads))]
    fn read(alloc: Global, item: &Item) -> Result<Requested, FormFault> {
        read_requested(alloc, item)
    }

    fn write(alloc: Global, value: &Requested) -> OrMemory<Item> {
        let pairs = List::new(alloc);
        let pairs = put_row::<_, Truth>(alloc, pairs, FLAG, &value.flag)?;
        let pairs = put_row::<_, Unsigned>(alloc, pairs, SEQUENCE, &value.sequence)?;
        let pairs = put_needed_row::<_, Id>(alloc, pairs, ID, &value.id)?;
        Ok(Item::Map(pairs))
    }
}

fn read_requested(alloc: Global, item: &Item) -> Result<Requested, FormFault>
    ensures { Answers FormFault.NoMemory (in_map FormFault.Shape Forms.requested_in item.now) result }
{
    match item.as_map() {
        Some(pairs) => read_requested_pairs(alloc, pairs),
        None => Err(FormFault::Shape),
    }
}

fn read_requested_pairs(alloc: Global, pairs: &[Pair]) -> Result<Requested, FormFault>
    ensures { Answers FormFault.NoMemory (Forms.requested_in pairs.now) result }
{
    let shape = FormFault::Shape;
    let (id, pairs) = take_needed::<_, _, Id>(alloc, pairs, ID, shape, shape)?;
    let (sequence, pairs) = take_field::<_, _, Unsigned>(alloc, pairs, SEQUENCE, shape)?;
    let (flag, pairs) = take_field::<_, _, Truth>(alloc, pairs, FLAG, shape)?;
    match pairs {
        [] => Ok(Requested { id, sequence, flag }),
        _ => Err(FormFault::Shape),
    }
}

/// An array `[tag, alg]`.
pub struct OperationPair;

impl Form<Operation> for OperationPair {
    ghost view = { operation_of };

    ghost written = { Written.operation };

    #[tactic(auto, using(item_codec::proofs::Public::Forms::form_reads))]
    fn read(alloc: Global, item: &Item) -> Result<Operation, FormFault> {
        read_operation(alloc, item)
    }

    fn write(alloc: Global, value: &Operation) -> OrMemory<Item> {
        let mut members = List::new(alloc);
        members.push(Item::Unsigned(value.tag))?;
        members.push(value.alg.try_clone(alloc)?)?;
        Ok(Item::Array(members))
    }
}

fn read_operation(alloc: Global, item: &Item) -> Result<Operation, FormFault>
    ensures { Answers FormFault.NoMemory (in_array FormFault.Shape Forms.operation_in item.now) result }
{
    let Some([tag, alg]) = item.as_array() else {
        return Err(FormFault::Shape);
    };
    let tag = read_part::<_, _, Unsigned>(alloc, tag, FormFault::Shape)?;
    let alg = alg.try_clone(alloc)?;
    Ok(Operation { tag, alg })
}

/// An array of one or more items of any kind.
pub struct ProfileArray;

impl Form<List<Item>> for ProfileArray {
    ghost view = { profile_of };

    ghost written = { Written.profile };

    #[tactic(auto, using(item_codec::proofs::Public::Forms::form_reads))]
    fn read(alloc: Global, item: &Item) -> Result<List<Item>, FormFault> {
        read_profile(alloc, item)
    }

    fn write(alloc: Global, members: &List<Item>) -> OrMemory<Item> {
        Ok(Item::Array(copy_items(alloc, members.as_slice())?))
    }
}

fn read_profile(alloc: Global, item: &Item) -> Result<List<Item>, FormFault>
    ensures { Answers FormFault.NoMemory (in_array FormFault.Shape Forms.profile_in item.now) result }
{
    match item.as_array() {
        None | Some([]) => Err(FormFault::Shape),
        Some(members) => Ok(copy_items(alloc, members)?),
    }
}
