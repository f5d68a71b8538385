use crate::{
    Refusal, put_first, put_needed_row, put_row, read_known, read_known_sized, read_part,
    read_required, take_field, take_needed, unwrap_item,
};
use base_types::{List, NoMemory, Octets};
use cbor_core::{Item, Pair, decode_whole};
use cbor_fields::{ByteString, FormFault, Id, TextString, Unsigned, negative_field};
use std::alloc::Global;
use std::test::Fail;

// Why an item is refused here.
#[derive(Clone, Copy, Debug, Drop, Eq, PartialEq)]
enum Trouble {
    Missing,
    Shape(u64),
    Size,
    Unknown,
    NoMemory,
}

impl Refusal for Trouble {
    ghost use Rattle.item_codec.specs.declared.tests.Trouble.TheVariants as troubles;

    ghost no_memory = { troubles.NoMemory };

    fn out_of_memory() -> Trouble {
        Trouble::NoMemory
    }
}

// A value that is read.
const GOOD: Option<Trouble> = None;

// A map {1: unsigned} with 2, a text, where wanted, and nothing else.
fn read_ordered(alloc: Global, item: &Item) -> Result<u64, Trouble> {
    let Some(pairs) = item.as_map() else {
        return Err(Trouble::Shape(0));
    };
    let (number, pairs) = take_needed::<_, _, Unsigned>(
        alloc,
        pairs,
        1,
        Trouble::Missing,
        Trouble::Shape(1),
    )?;
    let (_text, pairs) = take_field::<_, _, TextString>(alloc, pairs, 2, Trouble::Shape(2))?;
    match pairs {
        [] => Ok(number),
        _ => Err(Trouble::Unknown),
    }
}

// A map with -1, a byte string, and 3, an identifier, and 4, of two or three bytes, where wanted.
fn read_labelled(alloc: Global, item: &Item) -> Result<u64, Trouble> {
    let Some(pairs) = item.as_map() else {
        return Err(Trouble::Shape(0));
    };
    let public = negative_field(pairs, 0);
    read_required::<_, _, ByteString>(alloc, public, Trouble::Missing, Trouble::Shape(1))?;
    read_known::<_, _, Id>(alloc, pairs, 3, Trouble::Shape(3))?;
    read_known_sized(alloc, pairs, 4, 2, 3, Trouble::Shape(4), Trouble::Size)?;
    Ok(0)
}

// A wrapped unsigned integer.
fn read_wrapped(alloc: Global, item: &Item) -> Result<u64, Trouble> {
    let content = unwrap_item(alloc, item, Trouble::Shape(0))?;
    read_part::<_, _, Unsigned>(alloc, &content, Trouble::Shape(1))
}

// The readers by a number.
fn read_by(alloc: Global, reader: u8, item: &Item) -> Result<u64, Trouble> {
    match reader {
        0 => read_ordered(alloc, item),
        1 => read_labelled(alloc, item),
        _ => read_wrapped(alloc, item),
    }
}

#[test]
fn the_first_refusal_comes(rt: HostRuntime) -> Result<(), Fail> {
    let alloc = rt.alloc();
    let table: [(u8, &[u8], Option<Trouble>); 22] = [
        (0, &[0x80], Some(Trouble::Shape(0))),
        (0, &[0xa1, 1, 7], GOOD),
        (0, &[0xa2, 1, 7, 2, 0x60], GOOD),
        (0, &[0xa0], Some(Trouble::Missing)),
        (0, &[0xa1, 2, 0x60], Some(Trouble::Missing)),
        (0, &[0xa2, 1, 0x60, 2, 0], Some(Trouble::Shape(1))),
        (0, &[0xa2, 1, 7, 2, 0], Some(Trouble::Shape(2))),
        (0, &[0xa2, 1, 7, 3, 0], Some(Trouble::Unknown)),
        // {0: 0, 1: 7} and {1: 7, -1: 0}
        (0, &[0xa2, 0, 0, 1, 7], Some(Trouble::Missing)),
        (0, &[0xa2, 1, 7, 0x20, 0], Some(Trouble::Unknown)),
        (1, &[0x00], Some(Trouble::Shape(0))),
        (1, &[0xa1, 0x20, 0x40], GOOD),
        // {3: [h''], 4: h'0101', 7: 0, -1: h'', -2: 0}
        (
            1,
            &[
                0xa5, 3, 0x81, 0x40, 4, 0x42, 1, 1, 7, 0, 0x20, 0x40, 0x21, 0,
            ],
            GOOD,
        ),
        (1, &[0xa1, 0x21, 0x40], Some(Trouble::Missing)),
        (1, &[0xa2, 3, 0, 0x20, 0], Some(Trouble::Shape(1))),
        (1, &[0xa2, 3, 0x80, 0x20, 0x40], Some(Trouble::Shape(3))),
        (1, &[0xa2, 4, 0x60, 0x20, 0x40], Some(Trouble::Shape(4))),
        (1, &[0xa2, 4, 0x41, 1, 0x20, 0x40], Some(Trouble::Size)),
        (2, &[0x41, 7], GOOD),
        (2, &[0x07], Some(Trouble::Shape(0))),
        // h'0000' spells no item, and h'f6' null
        (2, &[0x42, 0, 0], Some(Trouble::Shape(0))),
        (2, &[0x41, 0xf6], Some(Trouble::Shape(1))),
    ];
    for (at, (reader, bytes, want)) in table.iter().enumerate() {
        let item = decode_whole(alloc, bytes)?;
        assert_eq!(rt; read_by(alloc, *reader, &item).err(), *want, "row {at}");
    }
    Ok(())
}

// The bytes of {1: number, 2: text, -1: h''}, where there is a text.
fn written(alloc: Global, number: u64, text: &Option<Octets>) -> Result<Item, NoMemory> {
    let pairs: List<Pair> = List::new(alloc);
    let pairs = put_first(pairs, Item::Negative(0), Item::Bytes(Octets::new(alloc)))?;
    let pairs = put_row::<_, ByteString>(alloc, pairs, 2, text)?;
    let pairs = put_needed_row::<_, Unsigned>(alloc, pairs, 1, &number)?;
    Ok(Item::Map(pairs))
}

#[test]
fn rows_are_written_in_their_order(rt: HostRuntime) -> Result<(), Fail> {
    let alloc = rt.alloc();
    let text = Octets::from_slice(alloc, &[9])?;
    let table: [(Option<Octets>, &[u8]); 2] = [
        (None, &[0xa2, 1, 7, 0x20, 0x40]),
        (Some(text), &[0xa3, 1, 7, 2, 0x41, 9, 0x20, 0x40]),
    ];
    for (at, (text, want)) in table.iter().enumerate() {
        let item = written(alloc, 7, text)?;
        assert!(rt; item == decode_whole(alloc, want)?, "row {at}");
    }
    Ok(())
}

#[test]
fn forms_refuse_for_want_of_memory_as_such(rt: HostRuntime) -> Result<(), Fail> {
    assert_eq!(rt; FormFault::out_of_memory(), FormFault::NoMemory);
    Ok(())
}
