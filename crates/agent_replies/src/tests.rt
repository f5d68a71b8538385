use crate::response::reported_for;
use crate::{Answer, answer_question, sign_message};
use base_types::{List, Octets, OrMemory};
use cose_core::signed_bytes;
use device_state::RowHead;
use evidence::DeviceIds;
use hss_sign::{Key, KeyParams};
use hss_verify::hss_verify;
use std::alloc::Global;
use std::process::Abort;
use std::test::Fail;
use std::thread::Threads;
use teep_messages::Message;

const TOKEN: [u8; 8] = [1, 2, 3, 4, 5, 6, 7, 8];

// [[[18, -46]]]
const SUITES: &[u8] = &[0x81, 0x81, 0x82, 0x12, 0x38, 0x2d];

// [[-16, -46]]
const PROFILES: &[u8] = &[0x81, 0x82, 0x2f, 0x38, 0x2d];

// The device h'64' of the vendor h'aa' and the class h'bb'.
fn ids(alloc: Global) -> OrMemory<DeviceIds> {
    Ok(DeviceIds {
        vendor: Octets::from_slice(alloc, &[0xaa])?,
        class: Octets::from_slice(alloc, &[0xbb])?,
        device: Octets::from_slice(alloc, &[0x64])?,
    })
}

// The question [1, options, suites, profiles, items].
fn question(
    alloc: Global,
    options: &[u8],
    suites: &[u8],
    profiles: &[u8],
    items: u8,
) -> OrMemory<Octets> {
    let mut bytes = Octets::from_slice(alloc, &[0x85, 0x01])?;
    bytes.extend(options)?;
    bytes.extend(suites)?;
    bytes.extend(profiles)?;
    bytes.extend(&[items])?;
    Ok(bytes)
}

// What a device without manifests says to a question with this token.
fn answered<R: Abort + AllocGlobal>(
    rt: &R,
    ids: &DeviceIds,
    message: &Message,
    token: &[u8],
) -> OrMemory<Answer> {
    assert!(rt; token.len() == 8);
    let none: [RowHead; 0] = [];
    match message {
        Message::QueryRequest {
            options,
            suites,
            profiles,
            items,
        } => answer_question(
            rt.alloc(),
            ids,
            &none,
            options,
            suites.as_slice(),
            profiles.as_slice(),
            *items,
            token,
        ),
        _ => panic!(rt; "no question"),
    }
}

// The same to a question that is bytes.
fn said<R: Abort + AllocGlobal>(rt: &R, question: &[u8]) -> Result<Answer, Fail> {
    let ids = ids(rt.alloc())?;
    let message = Message::read(rt.alloc(), question)?;
    Ok(answered(rt, &ids, &message, &TOKEN)?)
}

#[test]
fn who_asks_is_known_by_versions_suites_and_profiles(rt: HostRuntime) -> Result<(), Fail> {
    let alloc = rt.alloc();
    // [2, {6: 0, 20: token}]
    let response: &[u8] = &[
        0x82, 0x02, 0xa2, 0x06, 0x00, 0x14, 0x48, 1, 2, 3, 4, 5, 6, 7, 8,
    ];
    // [6, {3: [0], 20: token}, 4]
    let version: &[u8] = &[
        0x83, 0x06, 0xa2, 0x03, 0x81, 0x00, 0x14, 0x48, 1, 2, 3, 4, 5, 6, 7, 8, 0x04,
    ];
    // [6, {20: token}, 5]
    let suite: &[u8] = &[0x83, 0x06, 0xa1, 0x14, 0x48, 1, 2, 3, 4, 5, 6, 7, 8, 0x05];
    let table: [(&[u8], &[u8], &[u8], &[u8], bool); 8] = [
        (&[0xa0], SUITES, PROFILES, response, true),
        (&[0xa1, 3, 0x82, 1, 0], SUITES, PROFILES, response, true),
        (&[0xa1, 3, 0x81, 1], SUITES, PROFILES, version, false),
        (&[0xa1, 3, 0x80], SUITES, PROFILES, version, false),
        (&[0xa1, 3, 0x80], &[0x80], &[0x80], version, false),
        // [[[18, -7]]]
        (
            &[0xa0],
            &[0x81, 0x81, 0x82, 0x12, 0x26],
            PROFILES,
            suite,
            false,
        ),
        // [[-16]]
        (&[0xa0], SUITES, &[0x81, 0x81, 0x2f], suite, false),
        (&[0xa0], &[0x80], PROFILES, suite, false),
    ];
    for (at, (options, suites, profiles, want, ready)) in table.iter().enumerate() {
        let question = question(alloc, options, suites, profiles, 0)?;
        let answer = said(&rt, question.as_slice())?;
        assert_eq!(rt; answer.message.as_slice(), *want, "row {at}");
        assert_eq!(rt; answer.ready, *ready, "row {at}");
    }
    Ok(())
}

#[test]
fn evidence_is_over_the_challenge_or_the_token(rt: HostRuntime) -> Result<(), Fail> {
    let alloc = rt.alloc();
    let challenged: &[u8] = &[0xa1, 2, 0x48, 9, 9, 9, 9, 9, 9, 9, 9];
    let table: [(&[u8], [u8; 8]); 2] = [(challenged, [9; 8]), (&[0xa0], TOKEN)];
    for (at, (options, bound)) in table.iter().enumerate() {
        let question = question(alloc, options, SUITES, PROFILES, 3)?;
        let answer = said(&rt, question.as_slice())?;
        // [2, {6: 0, 7: h'[1, h'64', h'aa', h'bb', bound]', 13: .., 20: token}]
        let mut want = Octets::from_slice(
            alloc,
            &[
                0x82, 0x02, 0xa4, 0x06, 0x00, 0x07, 0x51, 0x85, 0x01, 0x41, 0x64, 0x41, 0xaa, 0x41,
                0xbb, 0x48,
            ],
        )?;
        want.extend(bound)?;
        want.extend(&[0x0d, 0x78, 0x23])?;
        want.extend(b"application/x-teep-profile-evidence")?;
        want.extend(&[0x14, 0x48])?;
        want.extend(&TOKEN)?;
        assert_eq!(rt; answer.message.as_slice(), want.as_slice(), "row {at}");
    }
    Ok(())
}

// A manifest with one byte as its identifier.
fn row(alloc: Global, id: u8, sequence: u64, present: bool) -> OrMemory<RowHead> {
    Ok(RowHead {
        id: Octets::from_slice(alloc, &[0x81, 0x41, id])?,
        sequence,
        present,
        components: List::new(alloc),
    })
}

#[test]
fn manifests_that_are_removed_are_not_reported(rt: HostRuntime) -> Result<(), Fail> {
    let alloc = rt.alloc();
    let mut rows = List::new(alloc);
    rows.push(row(alloc, 1, 5, false)?)?;
    rows.push(row(alloc, 2, 7, true)?)?;
    assert!(rt; reported_for(alloc, 1, rows.as_slice())?.is_none());
    match reported_for(alloc, 2, rows.as_slice())? {
        Some(list) => {
            assert_eq!(rt; list.len(), 1);
            for one in list.as_slice() {
                assert_eq!(rt; one.id.as_slice(), [0x81, 0x41, 2].as_slice());
                assert_eq!(rt; one.sequence, 7);
            }
        }
        None => panic!(rt; "no manifest is reported"),
    }
    Ok(())
}

// What the key of a device h'64' makes of a payload at a leaf.
fn signed<R: Threads + Abort + AllocGlobal + Sync>(
    rt: &R,
    key: &mut Key,
    leaf: u64,
    payload: &[u8],
) -> OrMemory<Octets> {
    assert!(rt; leaf < key.capacity());
    sign_message(rt, key, &[0x64], leaf, payload)
}

// A key of one tree with 32 leaves.
fn key<R: Threads + Abort + AllocGlobal + Sync>(rt: &R) -> OrMemory<Key> {
    let params = KeyParams {
        levels: 1,
        height: 5,
        width: 8,
    };
    assert!(rt; params.is_proper());
    Key::grow(rt, params, &[0x11; 32], 0, 2)
}

#[test]
fn a_signed_message_verifies(rt: HostRuntime) -> Result<(), Fail> {
    let mut key = key(&rt)?;
    let bytes = signed(&rt, &mut key, 3, b"TEEP")?;
    // 18([h'a101382d', {4: h'64'}, h'54454550', signature of 1,296 bytes])
    let front = [
        0xd2, 0x84, 0x44, 0xa1, 0x01, 0x38, 0x2d, 0xa1, 0x04, 0x41, 0x64, 0x44, 0x54, 0x45, 0x45,
        0x50, 0x59, 0x05, 0x10,
    ];
    assert_eq!(rt; bytes.len(), 1315);
    let Some((head, signature)) = bytes.as_slice().split_at_checked(19) else {
        panic!(rt; "too short");
    };
    assert_eq!(rt; head, front.as_slice());
    let protected = [0xa1, 0x01, 0x38, 0x2d];
    let message = signed_bytes(rt.alloc(), &protected, b"TEEP")?;
    assert!(rt; hss_verify(&key.public(), message.as_slice(), signature));
    // the leaf, behind the number of levels
    assert_eq!(rt; signature.get(4..8), Some([0, 0, 0, 3].as_slice()));
    Ok(())
}
