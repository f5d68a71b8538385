use crate::{DiagFault, TextFault, exactly_one, print, read, text_of};
use cbor_core::decode_whole;
use std::test::Fail;

/// An encoding, and the text of its item.
struct Row(&'static [u8], &'static str);

/// Each kind of item, both ends of the numbers, escapes, empty containers and tags.
const ROWS: [Row; 16] = [
    Row(&[0x00], "0"),
    Row(
        &[0x1b, 0xff, 0xff, 0xff, 0xff, 0xff, 0xff, 0xff, 0xff],
        "18446744073709551615",
    ),
    Row(&[0x20], "-1"),
    Row(
        &[0x3b, 0xff, 0xff, 0xff, 0xff, 0xff, 0xff, 0xff, 0xff],
        "-18446744073709551616",
    ),
    Row(&[0x40], "h''"),
    Row(&[0x42, 0x0a, 0xf9], "h'0af9'"),
    Row(&[0x60], "\"\""),
    Row(
        &[0x65, 0x22, 0x5c, 0x0a, 0x7f, 0x61],
        "\"\\\"\\\\\\u000a\\u007fa\"",
    ),
    Row(&[0x62, 0xc3, 0xbc], "\"ü\""),
    Row(&[0x80], "[]"),
    Row(&[0x82, 0x01, 0x81, 0x02], "[1, [2]]"),
    Row(&[0xa0], "{}"),
    Row(
        &[0xa2, 0x01, 0x20, 0x61, 0x61, 0x81, 0xf5],
        "{1: -1, \"a\": [true]}",
    ),
    Row(&[0xd2, 0x84, 0x00, 0x00, 0x00, 0x00], "18([0, 0, 0, 0])"),
    Row(&[0xf4], "false"),
    Row(&[0xf6], "null"),
];

#[test]
fn items_have_their_texts(rt: HostRuntime) -> Result<(), Fail> {
    let alloc = rt.alloc();
    for Row(bytes, text) in ROWS.iter() {
        let item = decode_whole(alloc, bytes)?;
        let printed = print(alloc, &item)?;
        assert_eq!(rt; printed.as_str(), *text);
        assert!(rt; read(alloc, *text)? == item);
    }
    Ok(())
}

/// A text that is refused, and the place of its first fault.
struct Refused(&'static str, usize);

/// Texts of each kind of fault.
const REFUSED: [Refused; 31] = [
    Refused("", 0),
    Refused("x", 0),
    Refused("tru", 0),
    Refused("truex", 4),
    Refused(" 1", 0),
    Refused("01", 0),
    Refused("-0", 0),
    Refused("-", 0),
    Refused("1.0", 1),
    Refused("1 ", 1),
    Refused("18446744073709551616", 0),
    Refused("-18446744073709551617", 0),
    Refused("-18(1)", 3),
    Refused("h'0A'", 0),
    Refused("h'0'", 0),
    Refused("h'00", 0),
    Refused("\"a", 0),
    Refused("\"\\u000A\"", 0),
    Refused("\"\\u0041\"", 0),
    Refused("[1,2]", 2),
    Refused("[1,", 2),
    Refused("[1, ", 4),
    Refused("[1, ]", 4),
    Refused("[1", 2),
    Refused("]", 0),
    Refused("{1: -1,\"a\": 0}", 6),
    Refused("{2: 0, 1: 0}", 7),
    Refused("{2: 0, 1x", 7),
    Refused("{2: 0, 1", 7),
    Refused("{1:0}", 2),
    Refused("18(1", 4),
];

#[test]
fn faults_have_their_places(rt: HostRuntime) -> Result<(), Fail> {
    exactly_one();
    let alloc = rt.alloc();
    for Refused(text, at) in REFUSED.iter() {
        assert!(rt; read(alloc, *text) == Err(DiagFault::Bad(TextFault { at: *at })));
    }
    Ok(())
}

#[test]
fn sixteen_containers_are_read(rt: HostRuntime) -> Result<(), Fail> {
    let alloc = rt.alloc();
    assert!(rt; read(alloc, "[[[[[[[[[[[[[[[[]]]]]]]]]]]]]]]]").is_ok());
    let deep = read(alloc, "[[[[[[[[[[[[[[[[[]]]]]]]]]]]]]]]]]");
    assert!(rt; deep == Err(DiagFault::Bad(TextFault { at: 16 })));
    Ok(())
}

#[test]
fn files_have_their_texts(rt: HostRuntime) -> Result<(), Fail> {
    assert!(rt; text_of(b"[1]") == Ok("[1]"));
    assert!(rt; text_of(&[0x22, 0xc3, 0xbc, 0xc3, 0x22]) == Err(TextFault { at: 3 }));
    Ok(())
}
