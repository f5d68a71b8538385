use crate::{
    ByteString, Form, FormFault, Id, ListOf, TextString, Truth, Unsigned, fields_put_back,
    forms_determine, has_keys_among, into_bytes, into_map, lists_determine, negative_field,
    other_pairs, put_field, put_needed, read_field, read_needed,
};
use base_types::{List, Octets};
use cbor_core::{Item, decode_whole};
use std::alloc::Global;
use std::test::Fail;

#[test]
fn each_form_reads_its_items_alone(rt: HostRuntime) -> Result<(), Fail> {
    let alloc = rt.alloc();
    // 5, h'07', "a", true, [h'01'], [], [5], {}
    let table: [(&[u8], [bool; 7]); 8] = [
        (&[0x05], [true, false, false, false, false, false, false]),
        (&[0x41, 7], [false, true, false, false, false, false, false]),
        (
            &[0x61, 0x61],
            [false, false, true, false, false, false, false],
        ),
        (&[0xf5], [false, false, false, true, false, false, false]),
        (
            &[0x81, 0x41, 1],
            [false, false, false, false, true, false, true],
        ),
        (&[0x80], [false, false, false, false, false, true, true]),
        (
            &[0x81, 0x05],
            [false, false, false, false, false, true, false],
        ),
        (&[0xa0], [false, false, false, false, false, false, false]),
    ];
    for (at, (bytes, want)) in table.iter().enumerate() {
        let item = decode_whole(alloc, bytes)?;
        let read = [
            Unsigned::read(alloc, &item).is_ok(),
            ByteString::read(alloc, &item).is_ok(),
            TextString::read(alloc, &item).is_ok(),
            Truth::read(alloc, &item).is_ok(),
            Id::read(alloc, &item).is_ok(),
            ListOf::<Unsigned>::read(alloc, &item).is_ok(),
            ListOf::<ByteString>::read(alloc, &item).is_ok(),
        ];
        assert_eq!(rt; read, *want, "row {at}");
    }
    Ok(())
}

#[test]
fn fields_are_found_by_their_labels(rt: HostRuntime) -> Result<(), Fail> {
    let alloc = rt.alloc();
    // {1: 5, 2: [h'01'], -1: 0}
    let item = decode_whole(
        alloc,
        &[0xa3, 0x01, 0x05, 0x02, 0x81, 0x41, 0x01, 0x20, 0x00],
    )?;
    let pairs = item.as_map().unwrap_or(&[]);
    let id = Octets::from_slice(alloc, &[0x81, 0x41, 0x01])?;
    assert!(rt; read_needed::<u64, Unsigned>(alloc, pairs, 1)? == 5);
    assert!(rt; read_field::<Octets, Id>(alloc, pairs, 2)? == Some(id));
    assert!(rt; read_field::<u64, Unsigned>(alloc, pairs, 3)?.is_none());
    let absent = read_needed::<u64, Unsigned>(alloc, pairs, 3).err();
    assert_eq!(rt; absent, Some(FormFault::Shape));
    let misshapen = read_field::<bool, Truth>(alloc, pairs, 1).err();
    assert_eq!(rt; misshapen, Some(FormFault::Shape));
    let others: List<_> = other_pairs(alloc, &[1, 2], pairs)?;
    assert_eq!(rt; others.len(), 1);
    assert!(rt; !has_keys_among(&[1, 2], pairs));
    // {1: 5, 2: 0}
    let item = decode_whole(alloc, &[0xa2, 0x01, 0x05, 0x02, 0x00])?;
    let pairs = item.as_map().unwrap_or(&[]);
    assert!(rt; has_keys_among(&[1, 2], pairs) && has_keys_among(&[1, 2, 3], pairs));
    assert!(rt; !has_keys_among(&[1], pairs) && !has_keys_among(&[2, 1], pairs));
    Ok(())
}

// Whether the value that is read of the item of bytes is written as the item.
fn is_written<V: Drop, F: Form<V>>(alloc: Global, bytes: &[u8]) -> Result<bool, Fail> {
    let item = decode_whole(alloc, bytes)?;
    let value = F::read(alloc, &item)?;
    Ok(F::write(alloc, &value)? == item)
}

#[test]
fn each_form_writes_what_it_reads(rt: HostRuntime) -> Result<(), Fail> {
    let alloc = rt.alloc();
    forms_determine();
    lists_determine::<u64, Unsigned>();
    // [h'01', h'']
    let id = &[0x82, 0x41, 1, 0x40];
    assert!(rt; is_written::<_, Unsigned>(alloc, &[0x18, 0x40])?);
    assert!(rt; is_written::<_, ByteString>(alloc, &[0x42, 7, 8])?);
    assert!(rt; is_written::<_, TextString>(alloc, &[0x61, 0x61])?);
    assert!(rt; is_written::<_, Truth>(alloc, &[0xf4])?);
    assert!(rt; is_written::<_, Id>(alloc, id)?);
    assert!(rt; is_written::<_, ListOf<ByteString>>(alloc, id)?);
    Ok(())
}

#[test]
fn bytes_of_no_item_are_written_as_null(rt: HostRuntime) -> Result<(), Fail> {
    let alloc = rt.alloc();
    let table: [&[u8]; 3] = [&[], &[0x18, 0x05], &[0x00, 0x00]];
    for bytes in &table {
        let id = Octets::from_slice(alloc, bytes)?;
        assert!(rt; Id::write(alloc, &id)? == Item::Null);
    }
    Ok(())
}

#[test]
fn fields_are_put_in_their_places(rt: HostRuntime) -> Result<(), Fail> {
    let alloc = rt.alloc();
    fields_put_back();
    // {1: 5, 9: h'', 24: null, -1: 0, "a": 0}, and with 0, 8, 10 and 23
    let before = decode_whole(
        alloc,
        &[
            0xa5, 0x01, 0x05, 0x09, 0x40, 0x18, 0x18, 0xf6, 0x20, 0x00, 0x61, 0x61, 0x00,
        ],
    )?;
    let after = decode_whole(
        alloc,
        &[
            0xa9, 0x00, 0x00, 0x01, 0x05, 0x08, 0x40, 0x09, 0x40, 0x0a, 0xf5, 0x17, 0x07, 0x18,
            0x18, 0xf6, 0x20, 0x00, 0x61, 0x61, 0x00,
        ],
    )?;
    let pairs = into_map(before).unwrap_or(List::new(alloc));
    assert!(rt; negative_field(pairs.as_slice(), 0).is_some());
    assert!(rt; negative_field(pairs.as_slice(), 1).is_none());
    let pairs = put_needed::<_, Unsigned>(alloc, pairs, 23, &7)?;
    let pairs = put_field::<_, ByteString>(alloc, pairs, 8, &Some(Octets::new(alloc)))?;
    let pairs = put_field::<_, Truth>(alloc, pairs, 11, &None)?;
    let pairs = put_field::<_, Truth>(alloc, pairs, 10, &Some(true))?;
    let pairs = put_needed::<_, Unsigned>(alloc, pairs, 0, &0)?;
    assert!(rt; Item::Map(pairs) == after);
    assert!(rt; into_bytes(after).is_none());
    let nine = Octets::from_slice(alloc, &[9])?;
    assert!(rt; into_bytes(Item::Bytes(nine)).is_some());
    Ok(())
}
