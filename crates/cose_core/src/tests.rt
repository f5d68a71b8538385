use crate::{CoseFault, CoseKey, KeyFault, Sign1, Signed, exactly_one, signed_bytes};
use base_types::{List, Octets};
use cbor_core::{Fault, Item, Pair, Why};
use std::alloc::Global;
use std::test::Fail;

// An array and a map that announce 2^64-1 members and end there: a reader that takes room by what is
// announced would want memory.
const VAST_ARRAY: [u8; 9] = [0x9b, 255, 255, 255, 255, 255, 255, 255, 255];

const VAST_MAP: [u8; 9] = [0xbb, 255, 255, 255, 255, 255, 255, 255, 255];

// What is told of both.
const VAST: Fault = Fault {
    at: 9,
    why: Why::CutHead,
};

// {1: -46}
const PROTECTED: [u8; 4] = [0xa1, 0x01, 0x38, 0x2d];

/// The example of what is signed: the encoding of `["Signature1", h'a101382d', h'', h'05']`.
#[test]
fn signs_these_bytes(rt: HostRuntime) -> Result<(), Fail> {
    let bytes = signed_bytes(rt.alloc(), &PROTECTED, &[0x05])?;
    let expected: [u8; 20] = [
        0x84, 0x6a, 0x53, 0x69, 0x67, 0x6e, 0x61, 0x74, 0x75, 0x72, 0x65, 0x31, 0x44, 0xa1, 0x01,
        0x38, 0x2d, 0x40, 0x41, 0x05,
    ];
    assert!(rt; bytes.as_slice() == expected.as_slice());
    Ok(())
}

fn are_refused(alloc: Global, bytes: &[u8], fault: CoseFault) -> bool {
    Sign1::read(alloc, bytes) == Err(fault) && Signed::read(bytes) == Err(fault)
}

/// A refusal for each rule, and for each pair of rules the one that comes first, by both readers.
#[test]
fn refuses_in_order(rt: HostRuntime) {
    let alloc = rt.alloc();
    exactly_one();
    let cut = Fault {
        at: 1,
        why: Why::CutHead,
    };
    let rows: [(&[u8], CoseFault); 19] = [
        // bytes that spell no item
        (&[0x84], CoseFault::NotCose(cut)),
        (&VAST_ARRAY, CoseFault::NotCose(VAST)),
        (&VAST_MAP, CoseFault::NotCose(VAST)),
        // an array of three, a number, and another tag
        (&[0x83, 0x40, 0xa0, 0xf6], CoseFault::Shape),
        (&[0x05], CoseFault::Shape),
        (
            &[0xd1, 0x84, 0x44, 0xa1, 0x01, 0x38, 0x2d, 0xa0, 0xf6, 0x40],
            CoseFault::Shape,
        ),
        // the tag twice
        (
            &[
                0xd2, 0xd2, 0x84, 0x44, 0xa1, 0x01, 0x38, 0x2d, 0xa0, 0xf6, 0x40,
            ],
            CoseFault::Shape,
        ),
        // each member of another kind
        (&[0x84, 0xf6, 0xa0, 0xf6, 0x40], CoseFault::Shape),
        (
            &[0x84, 0x44, 0xa1, 0x01, 0x38, 0x2d, 0x80, 0xf6, 0x40],
            CoseFault::Shape,
        ),
        (
            &[0x84, 0x44, 0xa1, 0x01, 0x38, 0x2d, 0xa0, 0x05, 0x40],
            CoseFault::Shape,
        ),
        (
            &[0x84, 0x44, 0xa1, 0x01, 0x38, 0x2d, 0xa0, 0xf6, 0xf6],
            CoseFault::Shape,
        ),
        // protected bytes that wrap an array, no item, and a map with a byte behind it
        (&[0x84, 0x41, 0x80, 0xa0, 0xf6, 0x40], CoseFault::Shape),
        (&[0x84, 0x41, 0xa1, 0xa0, 0xf6, 0x40], CoseFault::Shape),
        (
            &[0x84, 0x42, 0xa0, 0x00, 0xa0, 0xf6, 0x40],
            CoseFault::Shape,
        ),
        // no headers, an empty map, ES256
        (&[0x84, 0x40, 0xa0, 0xf6, 0x40], CoseFault::WrongAlg),
        (&[0x84, 0x41, 0xa0, 0xa0, 0xf6, 0x40], CoseFault::WrongAlg),
        (
            &[0x84, 0x43, 0xa1, 0x01, 0x26, 0xa0, 0xf6, 0x40],
            CoseFault::WrongAlg,
        ),
        // ES256 and critical headers, HSS/LMS and critical headers
        (
            &[
                0x84, 0x46, 0xa2, 0x01, 0x26, 0x02, 0x81, 0x01, 0xa0, 0xf6, 0x40,
            ],
            CoseFault::WrongAlg,
        ),
        (
            &[
                0x84, 0x47, 0xa2, 0x01, 0x38, 0x2d, 0x02, 0x81, 0x01, 0xa0, 0xf6, 0x40,
            ],
            CoseFault::Critical,
        ),
    ];
    for (bytes, fault) in rows {
        assert!(rt; are_refused(alloc, bytes, fault), "{fault}");
    }
}

fn octets(alloc: Global, bytes: &[u8]) -> Result<Octets, Fail> {
    Ok(Octets::from_slice(alloc, bytes)?)
}

/// A message with the tag and without is one value, and is written with it.
#[test]
fn reads_and_writes_the_tagged_form(rt: HostRuntime) -> Result<(), Fail> {
    let alloc = rt.alloc();
    // 18([h'a101382d', {4: h'64'}, h'05', h'aabb'])
    let bytes: [u8; 16] = [
        0xd2, 0x84, 0x44, 0xa1, 0x01, 0x38, 0x2d, 0xa1, 0x04, 0x41, 0x64, 0x41, 0x05, 0x42, 0xaa,
        0xbb,
    ];
    let value = Sign1::read(alloc, &bytes)?;
    let payload = octets(alloc, &[0x05])?;
    assert!(rt; value.protected == octets(alloc, &PROTECTED)?);
    assert!(rt; value.payload == Some(payload));
    assert!(rt; value.signature == octets(alloc, &[0xaa, 0xbb])?);
    assert!(rt; value.kid() == Some([0x64].as_slice()));
    assert!(rt; Sign1::read(alloc, &bytes[1..])? == value);
    let is_proper = value.is_proper(alloc)?;
    assert!(rt; is_proper);
    if is_proper {
        assert!(rt; value.write(alloc)?.as_slice() == bytes.as_slice());
    }
    Ok(())
}

// Whether what both readers found is the same.
fn is_same(value: &Sign1, signed: Signed<'_>) -> bool {
    let payload = match &value.payload {
        Some(payload) => Some(payload.as_slice()),
        None => None,
    };
    value.protected.as_slice() == signed.protected
        && value.kid() == signed.kid
        && payload == signed.payload
        && value.signature.as_slice() == signed.signature
}

/// Messages with the tag and without, by both readers: their key identifier, payload and signature.
#[test]
fn finds_the_parts(rt: HostRuntime) -> Result<(), Fail> {
    let alloc = rt.alloc();
    let rows: [(&[u8], Option<&[u8]>, Option<&[u8]>, &[u8]); 4] = [
        // 18([h'a101382d', {4: h'64'}, h'0506', h'aabb'])
        (
            &[
                0xd2, 0x84, 0x44, 0xa1, 0x01, 0x38, 0x2d, 0xa1, 0x04, 0x41, 0x64, 0x42, 0x05, 0x06,
                0x42, 0xaa, 0xbb,
            ],
            Some(&[0x64]),
            Some(&[0x05, 0x06]),
            &[0xaa, 0xbb],
        ),
        // [h'a101382d', {4: "d"}, null, h'']
        (
            &[
                0x84, 0x44, 0xa1, 0x01, 0x38, 0x2d, 0xa1, 0x04, 0x61, 0x64, 0xf6, 0x40,
            ],
            None,
            None,
            &[],
        ),
        // [h'a101382d', {}, h'', h'aa']
        (
            &[0x84, 0x44, 0xa1, 0x01, 0x38, 0x2d, 0xa0, 0x40, 0x41, 0xaa],
            None,
            Some(&[]),
            &[0xaa],
        ),
        // [h'a101382d', {1: -46, 4: h'6465', 5: null}, h'05', h'aa']
        (
            &[
                0x84, 0x44, 0xa1, 0x01, 0x38, 0x2d, 0xa3, 0x01, 0x38, 0x2d, 0x04, 0x42, 0x64, 0x65,
                0x05, 0xf6, 0x41, 0x05, 0x41, 0xaa,
            ],
            Some(&[0x64, 0x65]),
            Some(&[0x05]),
            &[0xaa],
        ),
    ];
    for (bytes, kid, payload, signature) in rows {
        let signed = Signed {
            protected: &PROTECTED,
            kid,
            payload,
            signature,
        };
        assert!(rt; Signed::read(bytes) == Ok(signed));
        assert!(rt; is_same(&Sign1::read(alloc, bytes)?, signed));
    }
    Ok(())
}

/// What is proper: HSS/LMS headers, none of them critical, and labels that ascend.
#[test]
fn knows_what_is_proper(rt: HostRuntime) -> Result<(), Fail> {
    let alloc = rt.alloc();
    let rows: [(&[u8], [u64; 2], bool); 6] = [
        (&PROTECTED, [4, 5], true),
        (&PROTECTED, [4, 4], false),
        // ES256, critical headers, no headers, and no map
        (&[0xa1, 0x01, 0x26], [4, 5], false),
        (&[0xa2, 0x01, 0x38, 0x2d, 0x02, 0x81, 0x01], [4, 5], false),
        (&[], [4, 5], false),
        (&[0x80], [4, 5], false),
    ];
    for (protected, labels, is_proper) in rows {
        let mut unprotected = List::new(alloc);
        for label in labels {
            unprotected.push(Pair {
                key: Item::Unsigned(label),
                value: Item::Null,
            })?;
        }
        let value = Sign1 {
            protected: octets(alloc, protected)?,
            unprotected,
            payload: None,
            signature: Octets::new(alloc),
        };
        assert!(rt; value.is_proper(alloc)? == is_proper);
    }
    Ok(())
}

/// The key of the device `d`: its first bytes, its length, and back.
#[test]
fn writes_and_reads_a_key(rt: HostRuntime) -> Result<(), Fail> {
    let alloc = rt.alloc();
    let key = CoseKey {
        kid: Some(octets(alloc, &[0x64])?),
        public: octets(alloc, &[7; 60])?,
    };
    let bytes = key.write(alloc)?;
    let front: [u8; 12] = [
        0xa4, 0x01, 0x05, 0x02, 0x41, 0x64, 0x03, 0x38, 0x2d, 0x20, 0x58, 0x3c,
    ];
    assert!(rt; bytes.len() == 72);
    assert!(rt; bytes.as_slice().starts_with(&front));
    assert!(rt; CoseKey::read(alloc, bytes.as_slice())? == key);
    Ok(())
}

/// What is no key, and what is passed over in one.
#[test]
fn refuses_keys(rt: HostRuntime) -> Result<(), Fail> {
    let alloc = rt.alloc();
    let long = Fault {
        at: 0,
        why: Why::LongForm,
    };
    let rows: [(&[u8], KeyFault); 9] = [
        (&[0x18, 0x05], KeyFault::NotCbor(long)),
        (&VAST_ARRAY, KeyFault::NotCbor(VAST)),
        (&VAST_MAP, KeyFault::NotCbor(VAST)),
        // no map, another type, no public part, a public part that is a text
        (&[0x80], KeyFault::Shape),
        (&[0xa2, 0x01, 0x02, 0x20, 0x41, 0x07], KeyFault::Shape),
        (&[0xa1, 0x01, 0x05], KeyFault::Shape),
        (&[0xa2, 0x01, 0x05, 0x20, 0x61, 0x64], KeyFault::Shape),
        // another algorithm, an identifier that is a number
        (
            &[0xa3, 0x01, 0x05, 0x03, 0x26, 0x20, 0x41, 0x07],
            KeyFault::Shape,
        ),
        (
            &[0xa3, 0x01, 0x05, 0x02, 0x05, 0x20, 0x41, 0x07],
            KeyFault::Shape,
        ),
    ];
    for (bytes, fault) in rows {
        assert!(rt; CoseKey::read(alloc, bytes) == Err(fault), "{fault}");
    }
    // {1: 5, 5: null, -1: h'07'}
    let key = CoseKey::read(alloc, &[0xa3, 0x01, 0x05, 0x05, 0xf6, 0x20, 0x41, 0x07])?;
    assert!(rt; key.kid == None);
    assert!(rt; key.public == octets(alloc, &[0x07])?);
    Ok(())
}
