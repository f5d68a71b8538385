ghost use Rattle.std.specs.Prelude.{◌≡◌, ◌∷◌, ℕ, List, IfOk};
ghost use Rattle.std.specs.List.{AllByRecursion};
ghost use Rattle.base_types.specs.Bytes.{IsBytes};
ghost use Rattle.cbor_core.specs.declared.item.Item.TheVariants as i;
ghost use Rattle.cbor_core.specs.Spelling.{Spells};
ghost use Rattle.item_codec.specs.Wrapped.{wrap};
ghost use Rattle.suit_commands.specs.declared.command.Command.{out-Command};
ghost use Rattle.suit_commands.specs.Sequences.{SequenceIs};
ghost use Rattle.suit_commands.specs.Written.{argument_by, members, alternative_items, written_in};
ghost use Rattle.suit_commands.specs.Written as Written;
ghost use Rattle.suit_commands.specs.Proper.{AreProperCommands, IsProperCommandBy, IsProperIn, IsProperSequence};

use crate::command::{Command, SEQUENCE_LEVELS, Sequence};
use crate::numbers::{
    ABORT, CLASS, COPY, DEVICE, FETCH, IMAGE_MATCH, OVERRIDE, RUN_SEQUENCE, SET_INDEX, TRY_EACH,
    VENDOR, WRITE,
};
use crate::write_parameters::write_parameters;
use base_types::{List, Octets, OrMemory};
use cbor_core::{Item, encode};
use std::alloc::Global;

/// Writes a proper sequence as its bytes. Refused for want of memory alone.
///
/// A sequence is proper where
///
/// - at most 9 levels of sequences stand inside one another, itself the first;
/// - each `TryEach` has an alternative, or `null_last` is true;
/// - each digest has the size of its algorithm's;
/// - bytes spell the item of each level (RFC 8949, section 4.2.1): numbers and lengths have 64 bits, bytes
///   8, and texts are UTF-8.
///
/// Each sequence that was read is proper, and each that is proper is some bytes (`proper_sequences`).
pub fn write(alloc: Global, sequence: &Sequence) -> OrMemory<Octets>
    requires { IsProperSequence sequence.now }
    // The bytes are this sequence, so that they are read as it.
    ensures is { IfOk result (λ bytes. SequenceIs sequence.now bytes) }
    // No other bytes are this sequence: what was read is written as it was.
    ensures one { IfOk result (λ bytes. (other : List ℕ) → IsBytes other → SequenceIs sequence.now other → other ≡ bytes) }
{
    write_bytes(alloc, SEQUENCE_LEVELS, sequence)
}

/// The bytes of a sequence, where so many levels are left.
#[cycle(writer)]
fn write_bytes(alloc: Global, levels: u8, sequence: &Sequence) -> OrMemory<Octets>
    requires { IsProperIn levels sequence.now }
    ensures { IfOk result (λ bytes. Spells (written_in levels sequence.now) bytes) }
{
    let item = write_sequence(alloc, levels, sequence)?;
    encode(alloc, &item)
}

/// The array of a sequence.
#[cycle(writer)]
fn write_sequence(alloc: Global, levels: u8, sequence: &Sequence) -> OrMemory<Item>
    requires { IsProperIn levels sequence.now }
    ensures { IfOk result (λ x. x ≡ written_in levels sequence.now) }
{
    Ok(Item::Array(write_members(alloc, levels - 1, sequence.as_slice())?))
}

/// The numbers and arguments of commands, where so many levels are left inside.
#[cycle(writer)]
fn write_members(alloc: Global, inside: u8, commands: &[Command]) -> OrMemory<List<Item>>
    requires { AreProperCommands (IsProperIn inside) commands.now }
    ensures { IfOk result (λ xs. xs ≡ members (wrap (written_in inside)) commands.now) }
{
    let mut items = List::new(alloc);
    for command in commands {
        items.push(Item::Unsigned(number_of(command)))?;
        items.push(write_argument(alloc, inside, command)?)?;
    }
    Ok(items)
}

/// The number of a command.
fn number_of(command: &Command) -> u64
    ensures { result ≡ Written.number_of command.now }
{
    match command {
        Command::Vendor(_) => VENDOR,
        Command::Class(_) => CLASS,
        Command::ImageMatch(_) => IMAGE_MATCH,
        Command::Device(_) => DEVICE,
        Command::Abort(_) => ABORT,
        Command::Write(_) => WRITE,
        Command::Fetch(_) => FETCH,
        Command::Copy(_) => COPY,
        Command::SetIndex(_) => SET_INDEX,
        Command::TryEach { .. } => TRY_EACH,
        Command::Override(_) => OVERRIDE,
        Command::RunSequence(_) => RUN_SEQUENCE,
    }
}

/// The argument of a command.
#[cycle(writer)]
fn write_argument(alloc: Global, inside: u8, command: &Command) -> OrMemory<Item>
    requires { IsProperCommandBy (IsProperIn inside) (out-Command command.now) }
    ensures { IfOk result (λ x. x ≡ argument_by (wrap (written_in inside)) (out-Command command.now)) }
{
    match command {
        Command::Vendor(n)
        | Command::Class(n)
        | Command::ImageMatch(n)
        | Command::Device(n)
        | Command::Abort(n)
        | Command::Write(n)
        | Command::Fetch(n)
        | Command::Copy(n)
        | Command::SetIndex(n) => Ok(Item::Unsigned(*n)),
        Command::TryEach {
            alternatives,
            null_last,
        } => write_try_each(alloc, inside, alternatives.as_slice(), *null_last),
        Command::Override(parameters) => write_parameters(alloc, parameters),
        Command::RunSequence(sequence) => write_wrapped(alloc, inside, sequence),
    }
}

/// The byte string that wraps a sequence.
#[cycle(writer)]
fn write_wrapped(alloc: Global, inside: u8, sequence: &Sequence) -> OrMemory<Item>
    requires { IsProperIn inside sequence.now }
    ensures { IfOk result (λ x. x ≡ wrap (written_in inside) sequence.now) }
{
    Ok(Item::Bytes(write_bytes(alloc, inside, sequence)?))
}

/// The array of alternatives.
#[cycle(writer)]
fn write_try_each(
    alloc: Global,
    inside: u8,
    alternatives: &[Sequence],
    null_last: bool,
) -> OrMemory<Item>
    requires { AllByRecursion (IsProperIn inside) alternatives.now }
    ensures { IfOk result (λ x. x ≡ i.Array (alternative_items (wrap (written_in inside)) alternatives.now null_last)) }
{
    let mut items = List::new(alloc);
    for sequence in alternatives {
        items.push(write_wrapped(alloc, inside, sequence)?)?;
    }
    if null_last {
        items.push(Item::Null)?;
    }
    Ok(Item::Array(items))
}
