ghost use Rattle.std.specs.Prelude.{◌≡◌, ◌⊎◌, IfOk, Ok, Err};
ghost use Rattle.cbor_core.specs.declared.item.Item.{out-Item};
ghost use Rattle.item_codec.specs.Answers.{Answers, IsAnswer};
ghost use Rattle.item_codec.specs.Fields.{shaped, in_array};
ghost use Rattle.cbor_core.specs.Views.{unsigned_of};
ghost use Rattle.cbor_core.specs.Views as Views;
ghost use Rattle.suit_commands.specs.declared.command.Command.{Command};
ghost use Rattle.suit_commands.specs.declared.fault.SequenceFault.{SequenceFault};
ghost use Rattle.suit_commands.specs.Sequences.{Sequence, SequenceIs, RefusedAs, sequence_in, sequence_by, members_in, wrapped_sequence, each_wrapped, try_each, try_in, kept_of, command_of, command_at};

use crate::command::{Command, SEQUENCE_LEVELS, Sequence};
use crate::fault::SequenceFault;
use crate::numbers::{
    ABORT, CLASS, COPY, DEVICE, FETCH, IMAGE_MATCH, OVERRIDE, RUN_SEQUENCE, SET_INDEX, TRY_EACH,
    VENDOR, WRITE,
};
use crate::read_parameters::read_parameters;
use base_types::List;
use cbor_core::{CborFault, Item, decode_whole};
use cbor_fields::Unsigned;
use item_codec::read_part;
use std::alloc::Global;

/// Reads a sequence from its bytes.
///
/// A refusal is the first in the order of the walk: command by command, in one the number before the
/// argument, in an argument alternative by alternative and pair by pair. `Cbor` where the bytes spell
/// no item (RFC 8949, section 4.2.1), with the place in the bytes of that sequence. `Shape` where the
/// item is no array, or its count is odd, before any command is looked at; where a number or a label is
/// no unsigned integer; where an argument has another shape. `Command` where no command has the number,
/// and `Parameter` where no parameter has the label. `Nesting` where a sequence stands inside more than
/// 8 others, before its bytes are looked at. `NoMemory` where no memory is left. The work is linear in
/// the bytes, once for each level of sequences.
pub fn read(alloc: Global, bytes: &[u8]) -> Result<Sequence, SequenceFault>
    // The bytes are the sequence that is read.
    ensures found { IfOk result (λ sequence. SequenceIs sequence bytes.now) }
    // The sequence that the bytes are is read, unless memory runs out.
    ensures only { (sequence : Sequence) → SequenceIs sequence bytes.now → IsAnswer SequenceFault.NoMemory result (Ok sequence) }
    // A refusal but NoMemory is the one that comes first.
    ensures bad { (fault : SequenceFault) → result ≡ Err fault → (fault ≡ SequenceFault.NoMemory) ⊎ RefusedAs bytes.now fault }
    // The refusal that comes first is the answer, unless memory runs out.
    ensures refused { (fault : SequenceFault) → RefusedAs bytes.now fault → IsAnswer SequenceFault.NoMemory result (Err fault) }
{
    read_bytes(alloc, SEQUENCE_LEVELS, bytes)
}

/// The sequence that bytes are, where so many levels are left.
#[cycle(reader)]
fn read_bytes(alloc: Global, levels: u8, bytes: &[u8]) -> Result<Sequence, SequenceFault>
    ensures { Answers SequenceFault.NoMemory (sequence_in levels bytes.now) result }
{
    if levels == 0 {
        return Err(SequenceFault::Nesting);
    }
    match decode_whole(alloc, bytes) {
        Ok(item) => read_sequence(alloc, levels - 1, &item),
        Err(CborFault::Bad(fault)) => Err(SequenceFault::Cbor(fault)),
        Err(CborFault::NoMemory) => Err(SequenceFault::NoMemory),
    }
}

/// The sequence that an item is, where so many levels are left inside.
#[cycle(reader)]
fn read_sequence(alloc: Global, inside: u8, item: &Item) -> Result<Sequence, SequenceFault>
    ensures { Answers SequenceFault.NoMemory (sequence_by (sequence_in inside) item.now) result }
{
    match item.as_array() {
        Some(members) => read_members(alloc, inside, members),
        None => Err(SequenceFault::Shape),
    }
}

/// The sequence of an array's members.
#[cycle(reader)]
fn read_members(alloc: Global, inside: u8, members: &[Item]) -> Result<Sequence, SequenceFault>
    ensures { Answers SequenceFault.NoMemory (members_in (sequence_in inside) members.now) result }
{
    if members.len() % 2 != 0 {
        return Err(SequenceFault::Shape);
    }
    let mut commands = List::new(alloc);
    for at in 0..members.len() / 2 {
        let command = read_command(alloc, inside, &members[2 * at], &members[2 * at + 1])?;
        commands.push(command)?;
    }
    Ok(commands)
}

/// The command of a number and an argument.
#[cycle(reader)]
fn read_command(
    alloc: Global,
    inside: u8,
    number: &Item,
    argument: &Item,
) -> Result<Command, SequenceFault>
    ensures { Answers SequenceFault.NoMemory (command_at (sequence_in inside) number.now argument.now) result }
{
    let number = read_part::<_, _, Unsigned>(alloc, number, SequenceFault::Shape)?;
    match number {
        TRY_EACH => read_try_each(alloc, inside, argument),
        OVERRIDE => Ok(Command::Override(read_parameters(alloc, argument)?)),
        RUN_SEQUENCE => Ok(Command::RunSequence(read_wrapped(alloc, inside, argument)?)),
        _ => read_kept(alloc, number, argument),
    }
}

/// The number that a command keeps.
fn read_number(alloc: Global, argument: &Item) -> Result<u64, SequenceFault>
    ensures { Answers SequenceFault.NoMemory (shaped SequenceFault.Shape unsigned_of argument.now) result }
{
    read_part::<_, _, Unsigned>(alloc, argument, SequenceFault::Shape)
}

/// The command of a number whose argument is a number that is kept.
fn read_kept(alloc: Global, number: u64, argument: &Item) -> Result<Command, SequenceFault>
    ensures { Answers SequenceFault.NoMemory (kept_of number argument.now) result }
{
    match number {
        VENDOR => Ok(Command::Vendor(read_number(alloc, argument)?)),
        CLASS => Ok(Command::Class(read_number(alloc, argument)?)),
        IMAGE_MATCH => Ok(Command::ImageMatch(read_number(alloc, argument)?)),
        DEVICE => Ok(Command::Device(read_number(alloc, argument)?)),
        ABORT => Ok(Command::Abort(read_number(alloc, argument)?)),
        WRITE => Ok(Command::Write(read_number(alloc, argument)?)),
        FETCH => Ok(Command::Fetch(read_number(alloc, argument)?)),
        COPY => Ok(Command::Copy(read_number(alloc, argument)?)),
        SET_INDEX => Ok(Command::SetIndex(read_number(alloc, argument)?)),
        _ => Err(SequenceFault::Command(number)),
    }
}

/// The sequence that a byte string wraps.
#[cycle(reader)]
fn read_wrapped(alloc: Global, inside: u8, item: &Item) -> Result<Sequence, SequenceFault>
    ensures { Answers SequenceFault.NoMemory (wrapped_sequence (sequence_in inside) item.now) result }
{
    match item.as_bytes() {
        Some(bytes) => read_bytes(alloc, inside, bytes),
        None => Err(SequenceFault::Shape),
    }
}

/// The sequences that byte strings wrap.
#[cycle(reader)]
fn read_each(alloc: Global, inside: u8, items: &[Item]) -> Result<List<Sequence>, SequenceFault>
    ensures { Answers SequenceFault.NoMemory (each_wrapped (sequence_in inside) items.now) result }
{
    let mut sequences = List::new(alloc);
    for item in items {
        sequences.push(read_wrapped(alloc, inside, item)?)?;
    }
    Ok(sequences)
}

/// Whether an item is null.
fn is_null(item: &Item) -> bool
    ensures { result ≡ Views.is_null (out-Item item.now) }
{
    match item {
        Item::Null => true,
        _ => false,
    }
}

/// The alternatives of an array's members.
#[cycle(reader)]
fn read_alternatives(alloc: Global, inside: u8, members: &[Item]) -> Result<Command, SequenceFault>
    ensures { Answers SequenceFault.NoMemory (try_in (sequence_in inside) members.now) result }
{
    let Some((last, first)) = members.split_last() else {
        return Err(SequenceFault::Shape);
    };
    if is_null(last) {
        let alternatives = read_each(alloc, inside, first)?;
        return Ok(Command::TryEach {
            alternatives,
            null_last: true,
        });
    }
    let alternatives = read_each(alloc, inside, members)?;
    Ok(Command::TryEach {
        alternatives,
        null_last: false,
    })
}

/// The alternatives of an item.
#[cycle(reader)]
fn read_try_each(alloc: Global, inside: u8, item: &Item) -> Result<Command, SequenceFault>
    ensures { Answers SequenceFault.NoMemory (try_each (sequence_in inside) item.now) result }
{
    match item.as_array() {
        Some(members) => read_alternatives(alloc, inside, members),
        None => Err(SequenceFault::Shape),
    }
}
