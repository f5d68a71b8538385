ghost use Rattle.std.specs.Prelude.{◌≡◌, IfOk, length};
ghost use Rattle.teep_messages.specs.Proper.{IsProperMessage};

use crate::{Message, MessageFault, Options, one_spelling, proper_messages};
use base_types::{List, Octets, OrMemory, Utf8};
use cbor_core::{Fault, Item, Pair, Why};
use std::alloc::Global;
use std::test::Fail;

// Of a value that is read.
const GOOD: Option<MessageFault> = None;

// What is wrong with bytes.
fn fault_of(alloc: Global, bytes: &[u8]) -> Option<MessageFault> {
    Message::read(alloc, bytes).err()
}

// The bytes before and behind the option of a message of each kind: [1, {..}, [], [], 0], [2, {..}],
// [3, {..}], [5, {..}] and [6, {..}, 0].
const KINDS: [(&[u8], &[u8]); 5] = [
    (&[0x85, 0x01, 0xa1], &[0x80, 0x80, 0x00]),
    (&[0x82, 0x02, 0xa1], &[]),
    (&[0x82, 0x03, 0xa1], &[]),
    (&[0x82, 0x05, 0xa1], &[]),
    (&[0x83, 0x06, 0xa1], &[0x00]),
];

// The Update [3, {label: value}].
fn update(alloc: Global, option: &[u8]) -> OrMemory<Octets> {
    let mut bytes = Octets::from_slice(alloc, &[0x82, 0x03, 0xa1])?;
    bytes.extend(option)?;
    Ok(bytes)
}

fn shape(field: u64) -> Option<MessageFault> {
    Some(MessageFault::Shape { field })
}

fn size(field: u64) -> Option<MessageFault> {
    Some(MessageFault::Size { field })
}

#[test]
fn options_have_their_shapes_in_every_kind(rt: HostRuntime) -> Result<(), Fail> {
    let alloc = rt.alloc();
    let table: [(&[u8], Option<MessageFault>); 24] = [
        (&[0x02, 0x48, 1, 2, 3, 4, 5, 6, 7, 8], GOOD),
        (&[0x02, 0x00], shape(2)),
        (&[0x02, 0x47, 1, 2, 3, 4, 5, 6, 7], size(2)),
        (&[0x03, 0x82, 0x00, 0x01], GOOD),
        (&[0x03, 0x81, 0x20], shape(3)),
        (&[0x06, 0x00], GOOD),
        (&[0x06, 0xf5], shape(6)),
        (&[0x07, 0x40], GOOD),
        (&[0x07, 0x60], shape(7)),
        (&[0x0a, 0x80], GOOD),
        (&[0x0a, 0x82, 0x40, 0x00], shape(10)),
        (&[0x0b, 0x61, 0x61], GOOD),
        (&[0x0b, 0x41, 0x61], shape(11)),
        (&[0x0c, 0x60], GOOD),
        (&[0x0c, 0xf6], shape(12)),
        (&[0x0d, 0x60], GOOD),
        (&[0x0d, 0x00], shape(13)),
        (&[0x0f, 0x81, 0x81, 0x41, 0x01], GOOD),
        (&[0x0f, 0x81, 0x80], shape(15)),
        (&[0x0f, 0x81, 0x81, 0x00], shape(15)),
        (&[0x14, 0x48, 1, 2, 3, 4, 5, 6, 7, 8], GOOD),
        (&[0x14, 0x47, 1, 2, 3, 4, 5, 6, 7], size(20)),
        (&[0x14, 0xf6], shape(20)),
        (&[0x18, 0x40, 0xf6], GOOD),
    ];
    for (at, (option, want)) in table.iter().enumerate() {
        for (kind, (front, end)) in KINDS.iter().enumerate() {
            let mut bytes = Octets::from_slice(alloc, front)?;
            bytes.extend(option)?;
            bytes.extend(end)?;
            assert_eq!(rt;
                fault_of(alloc, bytes.as_slice()),
                *want,
                "row {at}, kind {kind}"
            );
        }
    }
    Ok(())
}

#[test]
fn manifests_that_are_named_have_exact_keys(rt: HostRuntime) -> Result<(), Fail> {
    let alloc = rt.alloc();
    let table: [(&[u8], Option<MessageFault>); 9] = [
        (&[0x08, 0x81, 0xa2, 0x10, 0x81, 0x41, 1, 0x11, 5], GOOD),
        (&[0x08, 0x81, 0xa1, 0x10, 0x81, 0x41, 1], shape(8)),
        (&[0x08, 0x81, 0xa1, 0x11, 5], shape(8)),
        (
            &[0x08, 0x81, 0xa3, 0x10, 0x81, 0x41, 1, 0x11, 5, 0x12, 0xf5],
            shape(8),
        ),
        (&[0x0e, 0x81, 0xa1, 0x10, 0x81, 0x41, 1], GOOD),
        (
            &[0x0e, 0x81, 0xa3, 0x10, 0x81, 0x41, 1, 0x11, 5, 0x12, 0xf5],
            GOOD,
        ),
        (&[0x0e, 0x81, 0xa2, 0x10, 0x81, 0x41, 1, 0x12, 5], shape(14)),
        (&[0x0e, 0x81, 0xa2, 0x10, 0x81, 0x41, 1, 0x13, 5], shape(14)),
        (&[0x0e, 0x81, 0xa1, 0x11, 5], shape(14)),
    ];
    for (at, (option, want)) in table.iter().enumerate() {
        let bytes = update(alloc, option)?;
        assert_eq!(rt; fault_of(alloc, bytes.as_slice()), *want, "row {at}");
    }
    Ok(())
}

#[test]
fn the_first_refusal_comes(rt: HostRuntime) -> Result<(), Fail> {
    let alloc = rt.alloc();
    let long_form = Fault {
        at: 0,
        why: Why::LongForm,
    };
    let table: [(&[u8], Option<MessageFault>); 20] = [
        (&[0x18, 0x00], Some(MessageFault::Cbor(long_form))),
        (&[0x00], shape(100)),
        (&[0x80], shape(100)),
        (&[0x82, 0x40, 0xa0], shape(100)),
        (&[0x82, 0x04, 0xa0], Some(MessageFault::Kind(4))),
        (&[0x81, 0x04], Some(MessageFault::Kind(4))),
        (&[0x81, 0x03], shape(100)),
        (&[0x83, 0x03, 0xa0, 0x00], shape(100)),
        (&[0x82, 0x03, 0x80], shape(101)),
        (&[0x82, 0x03, 0xa2, 0x02, 0x40, 0x03, 0x40], size(2)),
        (&[0x82, 0x03, 0xa2, 0x02, 0x00, 0x14, 0x40], shape(2)),
        (&[0x85, 0x01, 0xa1, 0x14, 0x40, 0x00, 0x00, 0x40], size(20)),
        (&[0x85, 0x01, 0xa0, 0x00, 0x00, 0x40], shape(102)),
        (
            &[0x85, 0x01, 0xa0, 0x81, 0x81, 0x81, 0x00, 0x80, 0x00],
            shape(102),
        ),
        (&[0x85, 0x01, 0xa0, 0x80, 0x81, 0x80, 0x40], shape(103)),
        (&[0x85, 0x01, 0xa0, 0x80, 0x80, 0x40], shape(104)),
        (&[0x85, 0x01, 0xa0, 0x81, 0x80, 0x80, 0x00], GOOD),
        (&[0x83, 0x06, 0xa0, 0x40], shape(105)),
        (&[0x83, 0x06, 0xa0, 0x05], GOOD),
        (&[0x82, 0x02, 0xa0], GOOD),
    ];
    for (at, (bytes, want)) in table.iter().enumerate() {
        assert_eq!(rt; fault_of(alloc, bytes), *want, "row {at}");
    }
    Ok(())
}

#[test]
fn a_token_has_64_bytes_at_most(rt: HostRuntime) -> Result<(), Fail> {
    let alloc = rt.alloc();
    for (count, want) in [(0x40u8, GOOD), (0x41, size(20))] {
        let mut option = Octets::from_slice(alloc, &[0x14, 0x58, count])?;
        for _ in 0..count {
            option.push(7)?;
        }
        let bytes = update(alloc, option.as_slice())?;
        assert_eq!(rt; fault_of(alloc, bytes.as_slice()), want);
    }
    Ok(())
}

#[test]
fn fields_are_read_and_others_kept(rt: HostRuntime) -> Result<(), Fail> {
    let alloc = rt.alloc();
    // {10: [], 20: h'0102030405060708', 64: null, -1: 0}
    let bytes = [
        0x82, 0x03, 0xa4, 0x0a, 0x80, 0x14, 0x48, 1, 2, 3, 4, 5, 6, 7, 8, 0x18, 0x40, 0xf6, 0x20,
        0x00,
    ];
    let token = Octets::from_slice(alloc, &[1, 2, 3, 4, 5, 6, 7, 8])?;
    let message = Message::read(alloc, &bytes)?;
    let Message::Update { options } = message else {
        assert!(rt; false, "no Update");
        return Ok(());
    };
    assert!(rt; options.token == Some(token));
    assert!(rt; options.manifests.is_some() && options.challenge.is_none());
    assert_eq!(rt; options.other.len(), 2);
    if let [first, second] = options.other.as_slice() {
        assert!(rt; first.key == Item::Unsigned(64) && first.value == Item::Null);
        assert!(rt; second.key == Item::Negative(0));
    }
    Ok(())
}

// What the message that bytes are is written as.
fn written(alloc: Global, bytes: &[u8]) -> Result<Octets, MessageFault> {
    let message = Message::read(alloc, bytes)?;
    Ok(message.write(alloc)?)
}

#[test]
fn messages_are_written_as_they_were_read(rt: HostRuntime) -> Result<(), Fail> {
    let alloc = rt.alloc();
    one_spelling();
    let table: [&[u8]; 9] = [
        // [1, {20: h'0102030405060708'}, [[[18, -46]]], [[-16, -46]], 2]
        &[
            0x85, 0x01, 0xa1, 0x14, 0x48, 1, 2, 3, 4, 5, 6, 7, 8, 0x81, 0x81, 0x82, 0x12, 0x38,
            0x2d, 0x81, 0x82, 0x2f, 0x38, 0x2d, 0x02,
        ],
        // [1, {}, [[], [[18, null]]], [], 0]
        &[
            0x85, 0x01, 0xa0, 0x82, 0x80, 0x81, 0x82, 0x12, 0xf6, 0x80, 0x00,
        ],
        // [2, {6: 0, 20: h'0102030405060708'}]
        &[
            0x82, 0x02, 0xa2, 0x06, 0x00, 0x14, 0x48, 1, 2, 3, 4, 5, 6, 7, 8,
        ],
        // [3, {10: [], 20: h'0102030405060708'}]
        &[
            0x82, 0x03, 0xa2, 0x0a, 0x80, 0x14, 0x48, 1, 2, 3, 4, 5, 6, 7, 8,
        ],
        // [3, {1: 0, 6: 0, 9: null, 20: h'0102030405060708', 24: 1, -1: 0, "a": 0}]
        &[
            0x82, 0x03, 0xa7, 0x01, 0x00, 0x06, 0x00, 0x09, 0xf6, 0x14, 0x48, 1, 2, 3, 4, 5, 6, 7,
            8, 0x18, 0x18, 0x01, 0x20, 0x00, 0x61, 0x61, 0x00,
        ],
        // [3, {2: h'0807060504030201', 3: [0, 1], 7: h'09', 11: "m", 12: "e", 13: "f", 20: h'0102030405060708'}]
        &[
            0x82, 0x03, 0xa7, 0x02, 0x48, 8, 7, 6, 5, 4, 3, 2, 1, 0x03, 0x82, 0x00, 0x01, 0x07,
            0x41, 9, 0x0b, 0x61, 0x6d, 0x0c, 0x61, 0x65, 0x0d, 0x61, 0x66, 0x14, 0x48, 1, 2, 3, 4,
            5, 6, 7, 8,
        ],
        // [3, {8: [{16: [h'01'], 17: 7}], 14: [{16: [h'01']}, {16: [h'02', h''], 17: 5, 18: true}], 15: [[h'03']]}]
        &[
            0x82, 0x03, 0xa3, 0x08, 0x81, 0xa2, 0x10, 0x81, 0x41, 1, 0x11, 0x07, 0x0e, 0x82, 0xa1,
            0x10, 0x81, 0x41, 1, 0xa3, 0x10, 0x82, 0x41, 2, 0x40, 0x11, 0x05, 0x12, 0xf5, 0x0f,
            0x81, 0x81, 0x41, 3,
        ],
        // [5, {20: h'0102030405060708'}]
        &[0x82, 0x05, 0xa1, 0x14, 0x48, 1, 2, 3, 4, 5, 6, 7, 8],
        // [6, {3: [0], 20: h'0102030405060708'}, 4]
        &[
            0x83, 0x06, 0xa2, 0x03, 0x81, 0x00, 0x14, 0x48, 1, 2, 3, 4, 5, 6, 7, 8, 0x04,
        ],
    ];
    for (at, bytes) in table.iter().enumerate() {
        let again = written(alloc, bytes)?;
        assert_eq!(rt; again.as_slice(), *bytes, "row {at}");
    }
    Ok(())
}

// The Update [3, {10: [manifest], 11: msg, 20: token, 24: null}], made by hand.
fn made(alloc: Global, manifest: &[u8], msg: &str, token: &[u8]) -> OrMemory<Message>
    requires { length token.now ≡ 8 }
    ensures { IfOk result (λ message. IsProperMessage message) }
{
    let mut manifests = List::new(alloc);
    manifests.push(Octets::from_slice(alloc, manifest)?)?;
    let mut options = Options::new(alloc);
    options.manifests = Some(manifests);
    options.msg = Some(Utf8::from_str(alloc, msg)?);
    options.token = Some(Octets::from_slice(alloc, token)?);
    options.other.push(Pair {
        key: Item::Unsigned(24),
        value: Item::Null,
    })?;
    Ok(Message::Update { options })
}

#[test]
fn a_message_that_was_never_read_is_written(rt: HostRuntime) -> Result<(), Fail> {
    let alloc = rt.alloc();
    proper_messages();
    let message = made(alloc, &[0xd0], "hi", &[1, 2, 3, 4, 5, 6, 7, 8])?;
    let bytes = message.write(alloc)?;
    let want = [
        0x82, 0x03, 0xa4, 0x0a, 0x81, 0x41, 0xd0, 0x0b, 0x62, 0x68, 0x69, 0x14, 0x48, 1, 2, 3, 4,
        5, 6, 7, 8, 0x18, 0x18, 0xf6,
    ];
    assert_eq!(rt; bytes.as_slice(), want.as_slice());
    assert!(rt; Message::read(alloc, &want)? == message);
    Ok(())
}
