mod vectors;

use crate::{AnchorFault, Anchors, Role, SignFault, exactly_one};
use base_types::{ANCHORS_LIMIT, List, Octets};
use cbor_core::Item;
use cose_core::{CoseKey, Sign1};
use hss_verify::HssPublic;
use std::alloc::Global;
use std::test::Fail;
use vectors::{FIRST, SECOND, SIGNATURE, THIRD};

// What stands before the signature in a COSE_Sign1 of it: the headers, and null for a payload.
const DETACHED: [u8; 11] = [
    0x84, 0x44, 0xa1, 0x01, 0x38, 0x2d, 0xa0, 0xf6, 0x59, 0x05, 0x10,
];

// The same with the tag 18.
const TAGGED: [u8; 12] = [
    0xd2, 0x84, 0x44, 0xa1, 0x01, 0x38, 0x2d, 0xa0, 0xf6, 0x59, 0x05, 0x10,
];

// The same with the payload that was signed.
const WITH_PAYLOAD: [u8; 12] = [
    0x84, 0x44, 0xa1, 0x01, 0x38, 0x2d, 0xa0, 0x41, 0x05, 0x59, 0x05, 0x10,
];

// No item begins with it (RFC 8949, appendix B: a break stands inside an item alone).
const NO_CBOR: [u8; 1] = [0xff];

fn key(bytes: &[u8]) -> Result<HssPublic, Fail> {
    Ok(HssPublic::read(bytes).ok_or("no public key")?)
}

fn three_managers(alloc: Global) -> Result<Anchors, Fail> {
    let mut manager = List::new(alloc);
    for bytes in [FIRST, SECOND, THIRD] {
        manager.push(key(&bytes)?)?;
    }
    let author = List::new(alloc);
    Ok(Anchors { manager, author })
}

// A wrapped key with an identifier, whose public part has so many bytes of the first key.
fn wrapped(alloc: Global, size: usize) -> Result<Item, Fail> {
    let size = if size < 60 { size } else { 60 };
    let kid = Some(Octets::from_slice(alloc, &[0x64])?);
    let public = Octets::from_slice(alloc, &FIRST[..size])?;
    Ok(Item::Bytes(CoseKey { kid, public }.write(alloc)?))
}

fn two(alloc: Global, managers: List<Item>, authors: List<Item>) -> Result<Item, Fail> {
    let mut roles = List::new(alloc);
    roles.push(Item::Array(managers))?;
    roles.push(Item::Array(authors))?;
    Ok(Item::Array(roles))
}

/// The second of three manager's keys signed; no key signed another payload; no author did.
#[test]
fn finds_the_signer(rt: HostRuntime) -> Result<(), Fail> {
    let alloc = rt.alloc();
    let anchors = three_managers(alloc)?;
    let message = Sign1 {
        protected: Octets::from_slice(alloc, &[0xa1, 0x01, 0x38, 0x2d])?,
        unprotected: List::new(alloc),
        payload: None,
        signature: Octets::from_slice(alloc, &SIGNATURE)?,
    };
    let found = anchors.verified(alloc, Role::Manager, &message, &[0x05]);
    assert!(rt; found == Ok(1));
    let other = anchors.verified(alloc, Role::Manager, &message, &[0x06]);
    assert!(rt; other == Err(SignFault::NotSigned));
    let author = anchors.verified(alloc, Role::Author, &message, &[0x05]);
    assert!(rt; author == Err(SignFault::NotSigned));
    Ok(())
}

// Three authors, of whom the second made the signature, or the same as managers.
fn anchors_of(alloc: Global, role: Role) -> Result<Anchors, Fail> {
    let Anchors { manager, author } = three_managers(alloc)?;
    Ok(match role {
        Role::Manager => Anchors { manager, author },
        Role::Author => Anchors {
            manager: author,
            author: manager,
        },
    })
}

// The block, and the anchor of the authors, that is told of blocks: each the signature behind a front.
fn author_of(
    alloc: Global,
    signer: Role,
    fronts: &[&[u8]],
    payload: &[u8],
) -> Result<Result<(usize, usize), SignFault>, Fail> {
    let mut blocks = List::new(alloc);
    for front in fronts {
        let mut block = Octets::from_slice(alloc, front)?;
        block.extend(&SIGNATURE)?;
        blocks.push(block)?;
    }
    let anchors = anchors_of(alloc, signer)?;
    Ok(anchors.verified_any(alloc, Role::Author, &blocks, payload))
}

/// The first block that an author signed is told, with that author; what is no block is passed over.
#[test]
fn finds_the_first_block(rt: HostRuntime) -> Result<(), Fail> {
    let alloc = rt.alloc();
    let none = Err(SignFault::NotSigned);
    let author = Role::Author;
    // whose key signed, the blocks, the payload, and the answer
    let table: [(Role, &[&[u8]], u8, Result<(usize, usize), SignFault>); 9] = [
        (author, &[], 5, none),
        (author, &[&NO_CBOR], 5, none),
        (author, &[&WITH_PAYLOAD], 5, none),
        (author, &[&DETACHED], 5, Ok((0, 1))),
        (author, &[&NO_CBOR, &WITH_PAYLOAD, &TAGGED], 5, Ok((2, 1))),
        (author, &[&DETACHED, &TAGGED], 5, Ok((0, 1))),
        (author, &[&NO_CBOR, &TAGGED, &DETACHED], 5, Ok((1, 1))),
        (author, &[&DETACHED, &TAGGED], 6, none),
        (Role::Manager, &[&DETACHED], 5, none),
    ];
    for (at, (signer, fronts, payload, want)) in table.iter().enumerate() {
        let found = author_of(alloc, *signer, fronts, &[*payload])?;
        assert_eq!(rt; found, *want, "row {at}");
    }
    Ok(())
}

/// No anchors at all, and three, are written and read back.
#[test]
fn reads_what_it_writes(rt: HostRuntime) -> Result<(), Fail> {
    let alloc = rt.alloc();
    let none = two(alloc, List::new(alloc), List::new(alloc))?;
    let anchors = Anchors::read(alloc, &none)?;
    assert!(rt; anchors.keys(Role::Manager).is_empty());
    assert!(rt; anchors.keys(Role::Author).is_empty());
    let three = three_managers(alloc)?;
    if three.manager.len() <= ANCHORS_LIMIT && three.author.len() <= ANCHORS_LIMIT {
        let item = three.write(alloc)?;
        assert!(rt; Anchors::read(alloc, &item)? == three);
    }
    Ok(())
}

/// A refusal for each rule, and the one that comes first.
#[test]
fn refuses_in_order(rt: HostRuntime) -> Result<(), Fail> {
    let alloc = rt.alloc();
    exactly_one();
    let shape = Anchors::read(alloc, &Item::Array(List::new(alloc)));
    assert!(rt; shape == Err(AnchorFault::Shape));

    let mut numbers = List::new(alloc);
    numbers.push(Item::Unsigned(5))?;
    let shape = Anchors::read(alloc, &two(alloc, List::new(alloc), numbers)?);
    assert!(rt; shape == Err(AnchorFault::Shape));

    // seventeen author's keys, behind a manager's that is none
    let mut bad = List::new(alloc);
    bad.push(wrapped(alloc, 59)?)?;
    let mut many = List::new(alloc);
    for _ in 0..17u8 {
        many.push(wrapped(alloc, 60)?)?;
    }
    let over = Anchors::read(alloc, &two(alloc, bad, many)?);
    assert!(rt; over == Err(AnchorFault::TooMany(Role::Author)));

    // the second of the author's keys has 59 bytes
    let mut good = List::new(alloc);
    good.push(wrapped(alloc, 60)?)?;
    let mut second = List::new(alloc);
    second.push(wrapped(alloc, 60)?)?;
    second.push(wrapped(alloc, 59)?)?;
    let short = Anchors::read(alloc, &two(alloc, good, second)?);
    assert!(rt; short == Err(AnchorFault::BadKey(Role::Author, 1)));
    Ok(())
}
