use crate::{
    array_in, bytes_in, check_whole, field_in, first, first_map, first_pair, is_label, map_in,
    negative_in, null_in, open, open_first, span, tagged_in, text_in, unsigned_in,
};
use cbor_heads::{Fault, Head, Kind, Why};
use std::test::Fail;

#[test]
fn names_the_first_fault_and_its_place(rt: HostRuntime) -> Result<(), Fail> {
    let rows: [(&[u8], usize, Why); 40] = [
        (&[], 0, Why::CutHead),
        (&[0x18], 0, Why::CutHead),
        (&[0x19, 0x00], 0, Why::CutHead),
        (&[0x1a, 0x00, 0x00, 0x00], 0, Why::CutHead),
        (
            &[0x3b, 0x00, 0x00, 0x00, 0x00, 0x00, 0x00, 0x00],
            0,
            Why::CutHead,
        ),
        (&[0x82, 0x01], 2, Why::CutHead),
        (&[0xc6], 1, Why::CutHead),
        // an array and a map of 2^64 - 1 parts, of which none stands there: a fault, and no want of memory
        (
            &[0x9b, 0xff, 0xff, 0xff, 0xff, 0xff, 0xff, 0xff, 0xff],
            9,
            Why::CutHead,
        ),
        (
            &[0xbb, 0xff, 0xff, 0xff, 0xff, 0xff, 0xff, 0xff, 0xff],
            9,
            Why::CutHead,
        ),
        (&[0x42, 0x00], 0, Why::CutBody),
        (&[0x81, 0x62, 0x61], 1, Why::CutBody),
        (&[0x1c], 0, Why::BadInfo),
        (&[0x5f], 0, Why::BadInfo),
        (&[0xfc], 0, Why::BadInfo),
        (&[0xff], 0, Why::BadInfo),
        (&[0x18, 0x05], 0, Why::LongForm),
        (&[0x38, 0x17], 0, Why::LongForm),
        (&[0x19, 0x00, 0xff], 0, Why::LongForm),
        (&[0x1a, 0x00, 0x00, 0xff, 0xff], 0, Why::LongForm),
        (
            &[0x1b, 0x00, 0x00, 0x00, 0x00, 0xff, 0xff, 0xff, 0xff],
            0,
            Why::LongForm,
        ),
        (&[0x82, 0x01, 0x98, 0x01, 0x00], 2, Why::LongForm),
        // no UTF-8: a lone byte, an overlong form, a surrogate, above 10ffff
        (&[0x61, 0xff], 0, Why::BadText),
        (&[0x62, 0xc0, 0x80], 0, Why::BadText),
        (&[0x63, 0xed, 0xa0, 0x80], 0, Why::BadText),
        (&[0x81, 0x64, 0xf4, 0x90, 0x80, 0x80], 1, Why::BadText),
        // equal keys, and keys that fall: by number, by type, bytewise though longer
        (&[0xa2, 0x01, 0x00, 0x01, 0x00], 3, Why::KeyOrder),
        (&[0xa2, 0x02, 0x00, 0x01, 0x00], 3, Why::KeyOrder),
        (&[0xa2, 0x20, 0x00, 0x01, 0x00], 3, Why::KeyOrder),
        (&[0xa2, 0x40, 0x00, 0x18, 0x18, 0x00], 3, Why::KeyOrder),
        (
            &[0xa2, 0x62, 0x61, 0x61, 0x00, 0x61, 0x62, 0x00],
            5,
            Why::KeyOrder,
        ),
        // the key's place and not the value's, also where the value is faulty
        (&[0xa2, 0x01, 0x00, 0x01, 0xff], 3, Why::KeyOrder),
        // keys that fall in the second byte alone, and at the last of three
        (
            &[0xa2, 0x18, 0x19, 0x00, 0x18, 0x18, 0x00],
            4,
            Why::KeyOrder,
        ),
        (
            &[0xa3, 0x01, 0x00, 0x03, 0x00, 0x02, 0x00],
            5,
            Why::KeyOrder,
        ),
        (&[0xf7], 0, Why::BadSimple),
        (&[0xe0], 0, Why::BadSimple),
        (&[0xf8, 0xff], 0, Why::BadSimple),
        (&[0xf9, 0x3c, 0x00], 0, Why::BadSimple),
        (&[0x82, 0x00, 0xf8], 2, Why::BadSimple),
        (&[0x81; 17], 16, Why::TooDeep),
        (&[0xc6; 20], 16, Why::TooDeep),
    ];
    for (bytes, at, why) in rows {
        assert_eq!(rt; span(bytes), Err(Fault { at, why }));
        assert_eq!(rt; check_whole(bytes), Err(Fault { at, why }));
    }
    Ok(())
}

/// Items with bytes behind them, and how many bytes spell each.
#[test]
fn tells_the_length(rt: HostRuntime) -> Result<(), Fail> {
    let rows: [(&[u8], usize); 10] = [
        (&[0x00], 1),
        (&[0x17, 0xff], 1),
        (&[0x19, 0x01, 0x00, 0x00], 3),
        (&[0x42, 0x01, 0x02, 0x03], 3),
        (&[0x62, 0xc3, 0xbc, 0xff], 3),
        (&[0x82, 0x01, 0x81, 0x02, 0x03], 4),
        (
            &[0xa2, 0x01, 0x44, 0x01, 0x02, 0x03, 0x04, 0x02, 0x07, 0xa2],
            9,
        ),
        // {24: 0, 25: 0}
        (&[0xa2, 0x18, 0x18, 0x00, 0x18, 0x19, 0x00, 0xff], 7),
        (&[0xd8, 0x6b, 0xf6, 0xf6], 3),
        // 16 containers deep
        (
            &[
                0x81, 0x81, 0x81, 0x81, 0x81, 0x81, 0x81, 0x81, 0x81, 0x81, 0x81, 0x81, 0x81, 0x81,
                0x81, 0x81, 0x00,
            ],
            17,
        ),
    ];
    for (bytes, count) in rows {
        assert_eq!(rt; span(bytes), Ok(count));
        assert_eq!(rt; check_whole(&bytes[..count]), Ok(()));
    }
    Ok(())
}

#[test]
fn refuses_what_stands_behind(rt: HostRuntime) -> Result<(), Fail> {
    let extra = Fault {
        at: 1,
        why: Why::Extra,
    };
    assert_eq!(rt; check_whole(&[0x00, 0x00]), Err(extra));
    assert_eq!(rt; check_whole(&[0x80, 0xff]), Err(extra));
    Ok(())
}

#[test]
fn sees_single_items(rt: HostRuntime) -> Result<(), Fail> {
    assert_eq!(rt; unsigned_in(&[0x18, 0x18]), Some(24));
    assert_eq!(rt; unsigned_in(&[0x20]), None);
    assert_eq!(rt; negative_in(&[0x38, 0x2d]), Some(45));
    assert_eq!(rt; text_in(&[0x61, 0x61]), Some("a"));
    assert!(rt; null_in(&[0xf6]) && !null_in(&[0xf5]));
    assert!(rt; is_label(&[0x04], 4) && !is_label(&[0x04], 5) && !is_label(&[0x24], 4));
    assert!(rt; bytes_in(&[0x42, 0x01, 0x02]) == Some([0x01, 0x02].as_slice()));
    assert!(rt; array_in(&[0x82, 0x01, 0x02]) == Some((2, [0x01, 0x02].as_slice())));
    assert!(rt; tagged_in(&[0xd2, 0xf6]) == Some((18, [0xf6].as_slice())));
    assert!(rt; map_in(&[0xa1, 0x01, 0x02]) == Some((1, [0x01, 0x02].as_slice())));
    let head = Head {
        kind: Kind::Text,
        argument: 1,
    };
    assert!(rt; open(&[0x61, 0x61]) == Some((head, [0x61].as_slice())));
    Ok(())
}

// {1: h'0102', 4: "a"}, and then 5
const BYTES: [u8; 9] = [0xa2, 0x01, 0x42, 0x01, 0x02, 0x04, 0x61, 0x61, 0x05];

#[test]
fn takes_parts_off(rt: HostRuntime) -> Result<(), Fail> {
    assert!(rt; first(&BYTES) == Some((&BYTES[..8], &BYTES[8..])));
    assert!(rt; first_pair(&BYTES[1..]) == Some((&BYTES[1..2], &BYTES[2..5], &BYTES[5..])));
    assert!(rt; first(&[0x18]).is_none() && open_first(&[0x61]).is_none());
    let Some(item) = open_first(&BYTES) else {
        assert!(rt; false);
        return Ok(());
    };
    assert!(rt; item.head.kind == Kind::Map && item.head.argument == 2);
    assert!(rt; item.content == &BYTES[1..8] && item.behind == &BYTES[8..]);
    Ok(())
}

#[test]
fn finds_fields(rt: HostRuntime) -> Result<(), Fail> {
    let pairs = &BYTES[1..8];
    for (label, at, end) in [(1, 2, 5), (4, 6, 8)] {
        assert!(rt; field_in(2, pairs, label) == Some(&BYTES[at..end]));
        let Some(map) = first_map(&BYTES, label) else {
            assert!(rt; false);
            return Ok(());
        };
        assert!(rt; map.count == 2 && map.pairs == pairs && map.behind == &BYTES[8..]);
        assert!(rt; map.value == Some(&BYTES[at..end]));
    }
    assert!(rt; field_in(2, pairs, 2).is_none());
    assert!(rt; first_map(&BYTES[8..], 2).is_none());
    Ok(())
}
