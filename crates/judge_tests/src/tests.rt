mod vectors;

ghost use Rattle.manifest_judge.specs.Openings.{IsFresh};

use crate::samples::{HELLO, Kept, Want, entry, fetched, is, joined, opened, word_of};
use base_types::OrMemory;
use manifest_judge::{
    Entry, Verdict, Word, accepted, made_are_sound, needs_an_address, one_verdict, passes_stay,
    words_stay,
};
use std::alloc::Global;
use std::test::Fail;
use suit_engine::Env;
use vectors::{
    AUTHOR, FETCHING_BLOCK, FETCHING_DIGEST, FETCHING_MANIFEST, STRANGE_BLOCK, STRANGE_DIGEST,
    STRANGE_MANIFEST, WORKED_BLOCK, WORKED_DIGEST, WORKED_MANIFEST,
};

// A map of two members, or of three, whose member 2 wraps a digest and a block.
const SIGNED: &[u8] = &[0xa2, 0x02, 0x59, 0x05, 0x45, 0x82];

const SIGNED_WITH: &[u8] = &[0xa3, 0x02, 0x59, 0x05, 0x45, 0x82];

// A map of two members, whose member 2 wraps a digest alone.
const UNSIGNED: &[u8] = &[0xa2, 0x02, 0x58, 0x27, 0x81];

// The key of the member 3.
const THEN: &[u8] = &[0x03];

// The payload `#a` is `hello`, or `hallo`.
const ATTACHED: &[u8] = &[0x62, 0x23, 0x61, 0x45, 0x68, 0x65, 0x6c, 0x6c, 0x6f];

const OTHERWISE: &[u8] = &[0x62, 0x23, 0x61, 0x45, 0x68, 0x61, 0x6c, 0x6c, 0x6f];

const WORKED: &[&[u8]] = &[
    SIGNED_WITH,
    &WORKED_DIGEST,
    &WORKED_BLOCK,
    THEN,
    &WORKED_MANIFEST,
    ATTACHED,
];

const CHANGED: &[&[u8]] = &[
    SIGNED_WITH,
    &WORKED_DIGEST,
    &WORKED_BLOCK,
    THEN,
    &WORKED_MANIFEST,
    OTHERWISE,
];

const BARE: &[&[u8]] = &[
    SIGNED,
    &WORKED_DIGEST,
    &WORKED_BLOCK,
    THEN,
    &WORKED_MANIFEST,
];

const FETCHING: &[&[u8]] = &[
    SIGNED,
    &FETCHING_DIGEST,
    &FETCHING_BLOCK,
    THEN,
    &FETCHING_MANIFEST,
];

const STRANGE: &[&[u8]] = &[
    SIGNED,
    &STRANGE_DIGEST,
    &STRANGE_BLOCK,
    THEN,
    &STRANGE_MANIFEST,
];

const URI: &str = "http://h:1/x";

#[test]
fn laws_hold() {
    one_verdict();
    words_stay();
    passes_stay();
    needs_an_address();
    accepted();
    made_are_sound();
}

// The word that comes before anything is run.
fn first_word(
    alloc: Global,
    place: usize,
    pieces: &[&[u8]],
    trusted: bool,
    kept: Kept,
) -> Result<Option<Word>, Fail> {
    let bytes = joined(alloc, pieces)?;
    let entry = opened(alloc, place, bytes.as_slice(), &AUTHOR, trusted, kept)?;
    Ok(word_of(&entry))
}

/// Of the first five words the first that holds is told, and where none does the manifest may be run.
#[test]
fn opens_or_fails(rt: HostRuntime) -> Result<(), Fail> {
    let alloc = rt.alloc();
    let none = Kept::Nothing;
    // the place, the pieces of the envelope, whether the key is an author's, what is kept, and the word
    let table: [(usize, &[&[u8]], bool, Kept, Option<Word>); 17] = [
        (0, WORKED, true, none, None),
        (7, WORKED, true, none, None),
        (8, WORKED, true, none, Some(Word::Form)),
        (0, &[&[0xff]], true, none, Some(Word::Form)),
        (0, &[SIGNED, &WORKED_DIGEST], true, none, Some(Word::Form)),
        // the digest of another manifest, also without a block
        (
            0,
            &[
                SIGNED,
                &FETCHING_DIGEST,
                &FETCHING_BLOCK,
                THEN,
                &WORKED_MANIFEST,
            ],
            true,
            none,
            Some(Word::Digest),
        ),
        (
            0,
            &[UNSIGNED, &FETCHING_DIGEST, THEN, &WORKED_MANIFEST],
            true,
            none,
            Some(Word::Digest),
        ),
        // no block, the block of another digest, and a key that is a manager's
        (
            0,
            &[UNSIGNED, &WORKED_DIGEST, THEN, &WORKED_MANIFEST],
            true,
            none,
            Some(Word::Signature),
        ),
        (
            0,
            &[
                SIGNED,
                &WORKED_DIGEST,
                &FETCHING_BLOCK,
                THEN,
                &WORKED_MANIFEST,
            ],
            true,
            none,
            Some(Word::Signature),
        ),
        (0, WORKED, false, Kept::Own(7), Some(Word::Signature)),
        // a number that is kept: below, the same, above, and of another manifest
        (0, WORKED, true, Kept::Own(6), None),
        (0, WORKED, true, Kept::Own(7), Some(Word::Sequence)),
        (0, WORKED, true, Kept::Own(8), Some(Word::Sequence)),
        (0, WORKED, true, Kept::Other, None),
        // a command that there is not, also of an old manifest
        (0, STRANGE, true, none, Some(Word::Command)),
        (0, STRANGE, true, Kept::Own(7), Some(Word::Sequence)),
        (0, FETCHING, true, none, None),
    ];
    for (at, (place, pieces, trusted, kept, want)) in table.iter().enumerate() {
        let word = first_word(alloc, *place, pieces, *trusted, *kept)?;
        assert_eq!(rt; word, *want, "row {at}");
    }
    Ok(())
}

fn run(alloc: Global, entry: Entry, env: &Env) -> OrMemory<Verdict>
    requires { IsFresh entry }
{
    match entry {
        Entry::Goes(mut candidate) => candidate.run(alloc, env),
        Entry::Fails(word) => Ok(Verdict::Fails(word)),
    }
}

// Whether a manifest comes to this with such payloads.
fn comes_true(
    alloc: Global,
    pieces: &[&[u8]],
    kept: Kept,
    env: &Env,
    want: Want<'_>,
) -> Result<bool, Fail> {
    let bytes = joined(alloc, pieces)?;
    let entry = opened(alloc, 0, bytes.as_slice(), &AUTHOR, true, kept)?;
    let verdict = run(alloc, entry, env)?;
    Ok(is(&verdict, want))
}

/// A manifest that is run passes, needs a payload, or fails by the first of the other five words.
#[test]
fn runs_or_fails(rt: HostRuntime) -> Result<(), Fail> {
    let alloc = rt.alloc();
    let none = Kept::Nothing;
    // the pieces of the envelope, what is kept, other payloads, the payload, and the verdict
    let table: [(&[&[u8]], Kept, u8, Option<Option<&[u8]>>, Want<'_>); 11] = [
        (WORKED, none, 0, None, Want::Passes),
        (WORKED, Kept::Own(6), 0, None, Want::Passes),
        (WORKED, Kept::Other, 0, None, Want::Fails(Word::Owner)),
        // a payload with a byte changed, and none
        (CHANGED, Kept::Other, 0, None, Want::Fails(Word::Condition)),
        (BARE, none, 0, None, Want::Fails(Word::Payload)),
        (FETCHING, none, 0, None, Want::Needs(URI)),
        (FETCHING, none, 15, None, Want::Needs(URI)),
        (FETCHING, none, 16, None, Want::Fails(Word::Fetches)),
        (FETCHING, none, 0, Some(None), Want::Fails(Word::Payload)),
        // no digest is set
        (
            FETCHING,
            none,
            0,
            Some(Some(&HELLO)),
            Want::Fails(Word::Image),
        ),
        (
            FETCHING,
            Kept::Other,
            0,
            Some(Some(&HELLO)),
            Want::Fails(Word::Image),
        ),
    ];
    for (at, (pieces, kept, others, payload, want)) in table.iter().enumerate() {
        let env = fetched(alloc, *others, URI, *payload)?;
        assert!(rt; comes_true(alloc, pieces, *kept, &env, *want)?, "row {at}");
    }
    Ok(())
}

// What a manifest comes to without a payload, and then with it, in one run.
fn in_two(alloc: Global, bytes: &[u8], payload: &[u8]) -> Result<(Verdict, Verdict), Fail> {
    let mut env = fetched(alloc, 0, URI, None)?;
    match opened(alloc, 0, bytes, &AUTHOR, true, Kept::Nothing)? {
        Entry::Goes(mut candidate) => {
            let first = candidate.run(alloc, &env)?;
            env.push(entry(alloc, URI, Some(payload))?)?;
            let second = candidate.run(alloc, &env)?;
            Ok((first, second))
        }
        Entry::Fails(word) => Ok((Verdict::Fails(word), Verdict::Fails(word))),
    }
}

/// A manifest that waits for a payload goes on once it is there.
#[test]
fn waits_and_goes_on(rt: HostRuntime) -> Result<(), Fail> {
    let alloc = rt.alloc();
    let bytes = joined(alloc, FETCHING)?;
    let (first, second) = in_two(alloc, bytes.as_slice(), &HELLO)?;
    assert!(rt; is(&first, Want::Needs(URI)));
    assert!(rt; is(&second, Want::Fails(Word::Image)));
    Ok(())
}

/// Words are printed in small letters.
#[test]
fn words_are_printed(rt: HostRuntime) -> Result<(), Fail> {
    let alloc = rt.alloc();
    let table = [
        (Word::Form, "form"),
        (Word::Digest, "digest"),
        (Word::Signature, "signature"),
        (Word::Sequence, "sequence"),
        (Word::Command, "command"),
        (Word::Condition, "condition"),
        (Word::Payload, "payload"),
        (Word::Fetches, "fetches"),
        (Word::Image, "image"),
        (Word::Owner, "owner"),
    ];
    for (word, want) in table {
        let text = format!(in alloc; "{word}")?;
        assert_eq!(rt; text.as_str(), want);
    }
    Ok(())
}
