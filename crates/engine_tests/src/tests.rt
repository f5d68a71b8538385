use crate::samples::{HELLO, NONE, Want, engine, is, plan};
use base_types::{List, Octets, OrMemory, PAYLOAD_LIMIT, Utf8, zeros};
use std::alloc::Global;
use std::test::Fail;
use suit_commands::{Digest, DigestAlgorithm};
use suit_engine::{
    Built, Env, Fetched, Outcome, Word, done_stays, needs_an_address, one_outcome, waits_on,
};
use suit_envelope::Plan;

// Sets the URI `http://h:1/x`, and fetches.
const FETCH: [u8; 19] = [
    0x84, 0x14, 0xa1, 0x15, 0x6c, 0x68, 0x74, 0x74, 0x70, 0x3a, 0x2f, 0x2f, 0x68, 0x3a, 0x31, 0x2f,
    0x78, 0x15, 0x0f,
];

// Sets the URI `#a`, and fetches.
const ATTACHED: [u8; 9] = [0x84, 0x14, 0xa1, 0x15, 0x62, 0x23, 0x61, 0x15, 0x0f];

// Sets the digest of `hello`, the size 5 and the URI `#a`, fetches, and matches the image.
const WORKED: [u8; 52] = [
    0x86, 0x14, 0xa3, 3, 0x58, 0x24, 0x82, 0x2f, 0x58, 0x20, 0x2c, 0xf2, 0x4d, 0xba, 0x5f, 0xb0,
    0xa3, 0x0e, 0x26, 0xe8, 0x3b, 0x2a, 0xc5, 0xb9, 0xe2, 0x9e, 0x1b, 0x16, 0x1e, 0x5c, 0x1f, 0xa7,
    0x42, 0x5e, 0x73, 4, 0x33, 0x62, 0x93, 0x8b, 0x98, 0x24, 0x0e, 5, 0x15, 0x62, 0x23, 0x61, 0x15,
    0x0f, 3, 0x0f,
];

const DIGEST: [u8; 32] = [
    0x2c, 0xf2, 0x4d, 0xba, 0x5f, 0xb0, 0xa3, 0x0e, 0x26, 0xe8, 0x3b, 0x2a, 0xc5, 0xb9, 0xe2, 0x9e,
    0x1b, 0x16, 0x1e, 0x5c, 0x1f, 0xa7, 0x42, 0x5e, 0x73, 4, 0x33, 0x62, 0x93, 0x8b, 0x98, 0x24,
];

// What a plan comes to with nothing fetched.
fn outcome(alloc: Global, count: usize, plan: Plan) -> OrMemory<Outcome> {
    let hello = Octets::from_slice(alloc, &HELLO)?;
    let mut engine = engine(alloc, count, plan, hello)?;
    engine.go(&List::new(alloc))
}

// Whether sequences come to this on so many components, with nothing fetched.
fn comes_true(
    alloc: Global,
    count: usize,
    shared: &[u8],
    install: &[u8],
    validate: &[u8],
    want: &Want<'_>,
) -> Result<bool, Fail> {
    let plan = plan(alloc, shared, NONE, install, validate)?;
    let outcome = outcome(alloc, count, plan)?;
    Ok(is(&outcome, want))
}

#[test]
fn laws_hold() {
    one_outcome();
    done_stays();
    needs_an_address();
    waits_on();
}

#[test]
fn conditions_hold_or_fail(rt: HostRuntime) -> Result<(), Fail> {
    let alloc = rt.alloc();
    // components; the sequences shared, install and validate; what comes of them
    let table: [(usize, &[u8], &[u8], &[u8], Want<'_>); 8] = [
        // a class that is not the device's
        (
            1,
            NONE,
            &[0x84, 0x14, 0xa1, 2, 0x41, 0xcc, 2, 0x0f],
            NONE,
            Want::Failed(Word::Condition),
        ),
        // its own vendor, class and device
        (
            1,
            NONE,
            &[
                0x88, 0x14, 0xa3, 1, 0x41, 0xaa, 2, 0x41, 0xbb, 0x18, 0x18, 0x41, 0x64, 1, 0x0f, 2,
                0x0f, 0x18, 0x18, 0x0f,
            ],
            NONE,
            Want::Done(&[None]),
        ),
        // a class that is not set
        (
            1,
            NONE,
            &[0x82, 2, 0x0f],
            NONE,
            Want::Failed(Word::Condition),
        ),
        // no digest
        (
            1,
            NONE,
            &[
                0x86, 0x14, 0xa1, 0x12, 0x45, 0x68, 0x65, 0x6c, 0x6c, 0x6f, 0x12, 0x0f, 3, 0x0f,
            ],
            NONE,
            Want::Failed(Word::Condition),
        ),
        // no bytes
        (
            1,
            NONE,
            &[
                0x84, 0x14, 0xa1, 3, 0x58, 0x24, 0x82, 0x2f, 0x58, 0x20, 0x2c, 0xf2, 0x4d, 0xba,
                0x5f, 0xb0, 0xa3, 0x0e, 0x26, 0xe8, 0x3b, 0x2a, 0xc5, 0xb9, 0xe2, 0x9e, 0x1b, 0x16,
                0x1e, 0x5c, 0x1f, 0xa7, 0x42, 0x5e, 0x73, 4, 0x33, 0x62, 0x93, 0x8b, 0x98, 0x24, 3,
                0x0f,
            ],
            NONE,
            Want::Failed(Word::Condition),
        ),
        // another size
        (
            1,
            NONE,
            &[
                0x86, 0x14, 0xa3, 3, 0x58, 0x24, 0x82, 0x2f, 0x58, 0x20, 0x2c, 0xf2, 0x4d, 0xba,
                0x5f, 0xb0, 0xa3, 0x0e, 0x26, 0xe8, 0x3b, 0x2a, 0xc5, 0xb9, 0xe2, 0x9e, 0x1b, 0x16,
                0x1e, 0x5c, 0x1f, 0xa7, 0x42, 0x5e, 0x73, 4, 0x33, 0x62, 0x93, 0x8b, 0x98, 0x24,
                0x0e, 6, 0x12, 0x45, 0x68, 0x65, 0x6c, 0x6c, 0x6f, 0x12, 0x0f, 3, 0x0f,
            ],
            NONE,
            Want::Failed(Word::Condition),
        ),
        // other bytes
        (
            1,
            NONE,
            &[
                0x86, 0x14, 0xa2, 3, 0x58, 0x24, 0x82, 0x2f, 0x58, 0x20, 0x2c, 0xf2, 0x4d, 0xba,
                0x5f, 0xb0, 0xa3, 0x0e, 0x26, 0xe8, 0x3b, 0x2a, 0xc5, 0xb9, 0xe2, 0x9e, 0x1b, 0x16,
                0x1e, 0x5c, 0x1f, 0xa7, 0x42, 0x5e, 0x73, 4, 0x33, 0x62, 0x93, 0x8b, 0x98, 0x24,
                0x12, 0x45, 0x68, 0x65, 0x6c, 0x6c, 0x70, 0x12, 0x0f, 3, 0x0f,
            ],
            NONE,
            Want::Failed(Word::Condition),
        ),
        // a digest of 64 bytes
        (
            1,
            NONE,
            &[
                0x86, 0x14, 0xa2, 3, 0x58, 0x45, 0x82, 0x38, 0x2b, 0x58, 0x40, 0x9b, 0x71, 0xd2,
                0x24, 0xbd, 0x62, 0xf3, 0x78, 0x5d, 0x96, 0xd4, 0x6a, 0xd3, 0xea, 0x3d, 0x73, 0x31,
                0x9b, 0xfb, 0xc2, 0x89, 0x0c, 0xaa, 0xda, 0xe2, 0xdf, 0xf7, 0x25, 0x19, 0x67, 0x3c,
                0xa7, 0x23, 0x23, 0xc3, 0xd9, 0x9b, 0xa5, 0xc1, 0x1d, 0x7c, 0x7a, 0xcc, 0x6e, 0x14,
                0xb8, 0xc5, 0xda, 0x0c, 0x46, 0x63, 0x47, 0x5c, 0x2e, 0x5c, 0x3a, 0xde, 0xf4, 0x6f,
                0x73, 0xbc, 0xde, 0xc0, 0x43, 0x12, 0x45, 0x68, 0x65, 0x6c, 0x6c, 0x6f, 0x12, 0x0f,
                3, 0x0f,
            ],
            NONE,
            Want::Done(&[Some(&HELLO)]),
        ),
    ];
    for (at, (count, shared, install, validate, want)) in table.iter().enumerate() {
        assert!(rt;
            comes_true(alloc, *count, shared, install, validate, want)?,
            "row {at}"
        );
    }
    Ok(())
}

#[test]
fn alternatives_are_tried_in_turn(rt: HostRuntime) -> Result<(), Fail> {
    let alloc = rt.alloc();
    // components; the sequences shared, install and validate; what comes of them
    let table: [(usize, &[u8], &[u8], &[u8], Want<'_>); 6] = [
        // what a failed alternative wrote is gone
        (
            1,
            NONE,
            &[
                0x82, 0x0f, 0x82, 0x4a, 0x86, 0x14, 0xa1, 0x12, 0x41, 1, 0x12, 0x0f, 0x0e, 0x0f,
                0xf6,
            ],
            NONE,
            Want::Done(&[None]),
        ),
        // what it set is gone too
        (
            1,
            NONE,
            &[
                0x84, 0x0f, 0x82, 0x48, 0x84, 0x14, 0xa1, 0x12, 0x41, 1, 0x0e, 0x0f, 0xf6, 0x12,
                0x0f,
            ],
            NONE,
            Want::Failed(Word::Payload),
        ),
        // what a successful one set stays
        (
            1,
            NONE,
            &[
                0x84, 0x0f, 0x81, 0x46, 0x82, 0x14, 0xa1, 0x12, 0x41, 1, 0x12, 0x0f,
            ],
            NONE,
            Want::Done(&[Some(&[1])]),
        ),
        // a need is not caught
        (
            1,
            NONE,
            &[
                0x84, 0x14, 0xa1, 0x15, 0x6c, 0x68, 0x74, 0x74, 0x70, 0x3a, 0x2f, 0x2f, 0x68, 0x3a,
                0x31, 0x2f, 0x78, 0x0f, 0x82, 0x43, 0x82, 0x15, 0x0f, 0xf6,
            ],
            NONE,
            Want::Need("http://h:1/x"),
        ),
        // the word of the last alternative: condition
        (
            1,
            NONE,
            &[
                0x82, 0x0f, 0x82, 0x43, 0x82, 0x15, 0x0f, 0x43, 0x82, 0x0e, 0x0f,
            ],
            NONE,
            Want::Failed(Word::Condition),
        ),
        // the word of the last alternative: payload
        (
            1,
            NONE,
            &[
                0x82, 0x0f, 0x82, 0x43, 0x82, 0x0e, 0x0f, 0x43, 0x82, 0x15, 0x0f,
            ],
            NONE,
            Want::Failed(Word::Payload),
        ),
    ];
    for (at, (count, shared, install, validate, want)) in table.iter().enumerate() {
        assert!(rt;
            comes_true(alloc, *count, shared, install, validate, want)?,
            "row {at}"
        );
    }
    Ok(())
}

#[test]
fn payloads_are_taken(rt: HostRuntime) -> Result<(), Fail> {
    let alloc = rt.alloc();
    // components; the sequences shared, install and validate; what comes of them
    let table: [(usize, &[u8], &[u8], &[u8], Want<'_>); 6] = [
        // a payload that is not attached
        (
            1,
            NONE,
            &[0x84, 0x14, 0xa1, 0x15, 0x62, 0x23, 0x62, 0x15, 0x0f],
            NONE,
            Want::Failed(Word::Payload),
        ),
        // a fetch without a URI
        (
            1,
            NONE,
            &[0x82, 0x15, 0x0f],
            NONE,
            Want::Failed(Word::Payload),
        ),
        // a port of 0
        (
            1,
            NONE,
            &[
                0x84, 0x14, 0xa1, 0x15, 0x6c, 0x68, 0x74, 0x74, 0x70, 0x3a, 0x2f, 0x2f, 0x68, 0x3a,
                0x30, 0x2f, 0x78, 0x15, 0x0f,
            ],
            NONE,
            Want::Failed(Word::Payload),
        ),
        // a payload that is needed
        (
            1,
            NONE,
            &[
                0x84, 0x14, 0xa1, 0x15, 0x6c, 0x68, 0x74, 0x74, 0x70, 0x3a, 0x2f, 0x2f, 0x68, 0x3a,
                0x31, 0x2f, 0x78, 0x15, 0x0f,
            ],
            NONE,
            Want::Need("http://h:1/x"),
        ),
        // a copy of a component without bytes
        (
            2,
            NONE,
            &[0x84, 0x14, 0xa1, 0x16, 1, 0x16, 0x0f],
            NONE,
            Want::Failed(Word::Payload),
        ),
        // a copy
        (
            2,
            NONE,
            &[
                0x8c, 0x0c, 1, 0x14, 0xa1, 0x12, 0x41, 7, 0x12, 0x0f, 0x0c, 0, 0x14, 0xa1, 0x16, 1,
                0x16, 0x0f,
            ],
            NONE,
            Want::Done(&[Some(&[7]), Some(&[7])]),
        ),
    ];
    for (at, (count, shared, install, validate, want)) in table.iter().enumerate() {
        assert!(rt;
            comes_true(alloc, *count, shared, install, validate, want)?,
            "row {at}"
        );
    }
    Ok(())
}

#[test]
fn sequences_run_in_turn(rt: HostRuntime) -> Result<(), Fail> {
    let alloc = rt.alloc();
    // components; the sequences shared, install and validate; what comes of them
    let table: [(usize, &[u8], &[u8], &[u8], Want<'_>); 5] = [
        // a sequence that is run sets the index
        (
            2,
            NONE,
            &[
                0x86, 0x18, 0x20, 0x43, 0x82, 0x0c, 1, 0x14, 0xa1, 0x12, 0x41, 2, 0x12, 0x0f,
            ],
            NONE,
            Want::Done(&[None, Some(&[2])]),
        ),
        // parameters stay for the next sequence
        (
            1,
            &[0x82, 0x14, 0xa1, 0x12, 0x41, 1],
            &[0x82, 0x12, 0x0f],
            NONE,
            Want::Done(&[Some(&[1])]),
        ),
        // each sequence begins at index 0
        (
            2,
            &[0x82, 0x0c, 1],
            &[0x84, 0x14, 0xa1, 0x12, 0x41, 1, 0x12, 0x0f],
            NONE,
            Want::Done(&[Some(&[1]), None]),
        ),
        // the shared sequence runs before each
        (
            2,
            &[
                0x82, 0x0f, 0x82, 0x48, 0x84, 3, 0x0f, 0x14, 0xa1, 0x12, 0x41, 1, 0x58, 0x31, 0x82,
                0x14, 0xa2, 3, 0x58, 0x24, 0x82, 0x2f, 0x58, 0x20, 0x2c, 0xf2, 0x4d, 0xba, 0x5f,
                0xb0, 0xa3, 0x0e, 0x26, 0xe8, 0x3b, 0x2a, 0xc5, 0xb9, 0xe2, 0x9e, 0x1b, 0x16, 0x1e,
                0x5c, 0x1f, 0xa7, 0x42, 0x5e, 0x73, 4, 0x33, 0x62, 0x93, 0x8b, 0x98, 0x24, 0x12,
                0x45, 0x68, 0x65, 0x6c, 0x6c, 0x6f,
            ],
            &[0x82, 0x12, 0x0f],
            &[0x82, 0x12, 0x0f],
            Want::Done(&[Some(&[1]), None]),
        ),
        // validate runs last
        (
            1,
            NONE,
            &[
                0x84, 0x14, 0xa2, 3, 0x58, 0x24, 0x82, 0x2f, 0x58, 0x20, 0x2c, 0xf2, 0x4d, 0xba,
                0x5f, 0xb0, 0xa3, 0x0e, 0x26, 0xe8, 0x3b, 0x2a, 0xc5, 0xb9, 0xe2, 0x9e, 0x1b, 0x16,
                0x1e, 0x5c, 0x1f, 0xa7, 0x42, 0x5e, 0x73, 4, 0x33, 0x62, 0x93, 0x8b, 0x98, 0x24,
                0x12, 0x45, 0x68, 0x65, 0x6c, 0x6c, 0x6f, 0x12, 0x0f,
            ],
            &[0x82, 3, 0x0f],
            Want::Done(&[Some(&HELLO)]),
        ),
    ];
    for (at, (count, shared, install, validate, want)) in table.iter().enumerate() {
        assert!(rt;
            comes_true(alloc, *count, shared, install, validate, want)?,
            "row {at}"
        );
    }
    Ok(())
}

// The component of the worked update.
fn worked(alloc: Global) -> OrMemory<Built> {
    let bytes = Octets::from_slice(alloc, &HELLO)?;
    let digest = Octets::from_slice(alloc, &DIGEST)?;
    Ok(Built {
        bytes: Some(bytes),
        digest: Some(Digest {
            algorithm: DigestAlgorithm::Sha256,
            bytes: digest,
        }),
        size: Some(5),
    })
}

// Whether a run is done with one component, which is this.
fn is_only(outcome: &Outcome, built: &Built) -> bool {
    match outcome {
        Outcome::Done(all) => match all.as_slice() {
            [one] => *one == *built,
            _ => false,
        },
        _ => false,
    }
}

#[test]
fn a_worked_update_is_built(rt: HostRuntime) -> Result<(), Fail> {
    let alloc = rt.alloc();
    let plan = plan(alloc, NONE, NONE, &WORKED, NONE)?;
    let outcome = outcome(alloc, 1, plan)?;
    assert!(rt; is_only(&outcome, &worked(alloc)?));
    Ok(())
}

// So many entries of other URIs, and then perhaps the one that is needed.
fn env(alloc: Global, others: usize, needed: bool, bytes: Option<Octets>) -> OrMemory<Env> {
    let mut env = List::new(alloc);
    for _ in 0..others {
        let uri = Utf8::from_str(alloc, "http://h:2/x")?;
        env.push(Fetched { uri, bytes: None })?;
    }
    if needed {
        let uri = Utf8::from_str(alloc, "http://h:1/x")?;
        env.push(Fetched { uri, bytes })?;
    }
    Ok(env)
}

// What a fetch comes to with so many other entries and perhaps the one that is needed.
fn fetched(
    alloc: Global,
    others: usize,
    needed: bool,
    bytes: Option<Octets>,
) -> Result<Outcome, Fail> {
    let plan = plan(alloc, NONE, &FETCH, NONE, NONE)?;
    let mut engine = engine(alloc, 1, plan, Octets::new(alloc))?;
    let env = env(alloc, others, needed, bytes)?;
    Ok(engine.go(&env)?)
}

// So many bytes of 7, and none where there is no count.
fn sevens(alloc: Global, count: Option<u8>) -> OrMemory<Option<Octets>> {
    let Some(count) = count else {
        return Ok(None);
    };
    let mut bytes = Octets::new(alloc);
    for _ in 0..count {
        bytes.push(7)?;
    }
    Ok(Some(bytes))
}

#[test]
fn what_is_fetched_is_taken(rt: HostRuntime) -> Result<(), Fail> {
    let alloc = rt.alloc();
    // other entries, whether the one that is needed is there, and how many bytes it has
    let table: [(usize, bool, Option<u8>, Want<'_>); 6] = [
        (0, false, None, Want::Need("http://h:1/x")),
        (15, false, None, Want::Need("http://h:1/x")),
        (16, false, None, Want::Failed(Word::Fetches)),
        (16, true, Some(2), Want::Done(&[Some(&[7, 7])])),
        (0, true, Some(0), Want::Done(&[Some(&[])])),
        (0, true, None, Want::Failed(Word::Payload)),
    ];
    for (at, (others, needed, count, want)) in table.iter().enumerate() {
        let bytes = sevens(alloc, *count)?;
        let outcome = fetched(alloc, *others, *needed, bytes)?;
        assert!(rt; is(&outcome, want), "row {at}");
    }
    Ok(())
}

// What a payload of so many zeros comes to.
fn zeros_fetched(alloc: Global, size: usize) -> Result<Outcome, Fail> {
    let payload = Octets::from_vec(zeros(alloc, size)?);
    let plan = plan(alloc, NONE, NONE, &ATTACHED, NONE)?;
    let mut engine = engine(alloc, 1, plan, payload)?;
    Ok(engine.go(&List::new(alloc))?)
}

#[test]
fn a_payload_has_2_to_the_23_bytes_at_most(rt: HostRuntime) -> Result<(), Fail> {
    let alloc = rt.alloc();
    let fails = Want::Failed(Word::Payload);
    for (size, want) in [(PAYLOAD_LIMIT, false), (PAYLOAD_LIMIT + 1, true)] {
        let outcome = zeros_fetched(alloc, size)?;
        assert_eq!(rt; is(&outcome, &fails), want, "{size} bytes");
    }
    Ok(())
}
