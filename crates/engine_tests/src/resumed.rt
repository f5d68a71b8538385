ghost use Rattle.std.specs.Prelude.{OnOk};
ghost use Rattle.suit_engine.specs.Suspended.{GoesOn};

use crate::samples::{HELLO, NONE, Want, engine, is, plan};
use base_types::{List, Octets, OrMemory, Utf8};
use std::alloc::Global;
use std::test::Fail;
use suit_engine::{Engine, Env, Fetched, Word};

const X: &str = "http://h:1/x";

const Y: &str = "http://h:1/y";

// Sets the URI X, and fetches.
const FETCH: &[u8] = &[
    0x84, 0x14, 0xa1, 0x15, 0x6c, 0x68, 0x74, 0x74, 0x70, 0x3a, 0x2f, 0x2f, 0x68, 0x3a, 0x31, 0x2f,
    0x78, 0x15, 0x0f,
];

// Sets the URI Y, and fetches.
const FETCH_Y: &[u8] = &[
    0x84, 0x14, 0xa1, 0x15, 0x6c, 0x68, 0x74, 0x74, 0x70, 0x3a, 0x2f, 0x2f, 0x68, 0x3a, 0x31, 0x2f,
    0x79, 0x15, 0x0f,
];

// Sets the URI X, and runs a sequence with a try-each: an abort, or a fetch. Then component 1 is
// written 01.
const WITHIN: &[u8] = &[
    0x8a, 0x14, 0xa1, 0x15, 0x6c, 0x68, 0x74, 0x74, 0x70, 0x3a, 0x2f, 0x2f, 0x68, 0x3a, 0x31, 0x2f,
    0x78, 0x18, 0x20, 0x4b, 0x82, 0x0f, 0x82, 0x43, 0x82, 0x0e, 0x0f, 0x43, 0x82, 0x15, 0x0f, 0x0c,
    1, 0x14, 0xa1, 0x12, 0x41, 1, 0x12, 0x0f,
];

// A try-each: X is set and fetched, or 02 is written.
const FIRST: &[u8] = &[
    0x82, 0x0f, 0x82, 0x53, 0x84, 0x14, 0xa1, 0x15, 0x6c, 0x68, 0x74, 0x74, 0x70, 0x3a, 0x2f, 0x2f,
    0x68, 0x3a, 0x31, 0x2f, 0x78, 0x15, 0x0f, 0x48, 0x84, 0x14, 0xa1, 0x12, 0x41, 2, 0x12, 0x0f,
];

// A try-each: 09 is written and then X is fetched, or nothing is done.
const WRITTEN: &[u8] = &[
    0x82, 0x0f, 0x82, 0x58, 0x18, 0x86, 0x14, 0xa2, 0x12, 0x41, 9, 0x15, 0x6c, 0x68, 0x74, 0x74,
    0x70, 0x3a, 0x2f, 0x2f, 0x68, 0x3a, 0x31, 0x2f, 0x78, 0x12, 0x0f, 0x15, 0x0f, 0xf6,
];

// X is fetched for component 0, and Y for component 1.
const TWO: &[u8] = &[
    0x8a, 0x14, 0xa1, 0x15, 0x6c, 0x68, 0x74, 0x74, 0x70, 0x3a, 0x2f, 0x2f, 0x68, 0x3a, 0x31, 0x2f,
    0x78, 0x15, 0x0f, 0x0c, 1, 0x14, 0xa1, 0x15, 0x6c, 0x68, 0x74, 0x74, 0x70, 0x3a, 0x2f, 0x2f,
    0x68, 0x3a, 0x31, 0x2f, 0x79, 0x15, 0x0f,
];

// What is told of a URI, and what the run comes to then.
#[derive(Clone, Copy)]
struct Told<'a> {
    uri: &'a str,
    bytes: Option<&'a [u8]>,
    want: Want<'a>,
}

fn arrived<'a>(uri: &'a str, bytes: &'a [u8], want: Want<'a>) -> Told<'a> {
    Told {
        uri,
        bytes: Some(bytes),
        want,
    }
}

fn failed<'a>(uri: &'a str, want: Want<'a>) -> Told<'a> {
    Told {
        uri,
        bytes: None,
        want,
    }
}

fn entry(alloc: Global, told: &Told<'_>) -> OrMemory<Fetched> {
    let uri = Utf8::from_str(alloc, told.uri)?;
    let bytes = match told.bytes {
        Some(bytes) => Some(Octets::from_slice(alloc, bytes)?),
        None => None,
    };
    Ok(Fetched { uri, bytes })
}

// Whether a run from the start comes to this.
fn begins(engine: &mut Engine, env: &Env, want: &Want<'_>) -> OrMemory<bool>
    ensures { GoesOn engine.new env.now }
{
    let outcome = engine.go(env)?;
    Ok(is(&outcome, want))
}

// Whether a run that goes on with an entry more comes to what is wanted.
fn resumes(alloc: Global, engine: &mut Engine, env: &mut Env, told: &Told<'_>) -> OrMemory<bool>
    requires { GoesOn engine.old env.old }
    ensures { OnOk result (GoesOn engine.new env.new) }
{
    let one = entry(alloc, told)?;
    env.push(one)?;
    let outcome = engine.resume(env)?;
    Ok(is(&outcome, &told.want))
}

fn made(alloc: Global, count: usize, fetch: &[u8], install: &[u8]) -> Result<Engine, Fail> {
    let plan = plan(alloc, NONE, fetch, install, NONE)?;
    let hello = Octets::from_slice(alloc, &HELLO)?;
    Ok(engine(alloc, count, plan, hello)?)
}

// Whether an engine that goes on and one that begins anew come to what is wanted with an entry more.
fn step_true(
    alloc: Global,
    waiting: &mut Engine,
    anew: &mut Engine,
    env: &mut Env,
    step: &Told<'_>,
) -> OrMemory<bool>
    requires { GoesOn waiting.old env.old }
    ensures { OnOk result (GoesOn waiting.new env.new) }
{
    if !resumes(alloc, waiting, env, step)? {
        return Ok(false);
    }
    begins(anew, env, &step.want)
}

// The same of each step, behind what they come to at first.
fn steps_true(
    alloc: Global,
    waiting: &mut Engine,
    anew: &mut Engine,
    first: &Want<'_>,
    steps: &[Told<'_>],
) -> OrMemory<bool> {
    let mut env = List::new(alloc);
    if !begins(waiting, &env, first)? {
        return Ok(false);
    }
    for step in steps {
        if !step_true(alloc, waiting, anew, &mut env, step)? {
            return Ok(false);
        }
    }
    Ok(true)
}

fn beside_one(
    alloc: Global,
    mut waiting: Engine,
    anew: &mut Engine,
    first: &Want<'_>,
    steps: &[Told<'_>],
) -> OrMemory<bool> {
    steps_true(alloc, &mut waiting, anew, first, steps)
}

fn both_true(
    alloc: Global,
    waiting: Engine,
    mut anew: Engine,
    first: &Want<'_>,
    steps: &[Told<'_>],
) -> OrMemory<bool> {
    beside_one(alloc, waiting, &mut anew, first, steps)
}

fn beside(
    alloc: Global,
    waiting: Engine,
    anew: Result<Engine, Fail>,
    first: &Want<'_>,
    steps: &[Told<'_>],
) -> Result<bool, Fail> {
    match anew {
        Ok(anew) => Ok(both_true(alloc, waiting, anew, first, steps)?),
        Err(fault) => Err(fault),
    }
}

// Whether sequences come to this first, and then at each step to what is wanted: going on, and from
// the start.
fn comes_true(
    alloc: Global,
    count: usize,
    fetch: &[u8],
    install: &[u8],
    first: &Want<'_>,
    steps: &[Told<'_>],
) -> Result<bool, Fail> {
    let waiting = made(alloc, count, fetch, install)?;
    let anew = made(alloc, count, fetch, install);
    beside(alloc, waiting, anew, first, steps)
}

#[test]
fn a_run_goes_on_where_it_waits(rt: HostRuntime) -> Result<(), Fail> {
    let alloc = rt.alloc();
    let fails = Want::Failed(Word::Payload);
    // components; the sequences payload-fetch and install; what is needed first; what comes then
    let table: [(usize, &[u8], &[u8], &[Told<'_>]); 10] = [
        // at the top of a sequence
        (
            1,
            NONE,
            FETCH,
            &[arrived(X, &[7], Want::Done(&[Some(&[7])]))],
        ),
        (1, NONE, FETCH, &[failed(X, fails)]),
        // in the second alternative of a try-each, in a sequence that is run; commands behind it
        (
            2,
            NONE,
            WITHIN,
            &[arrived(X, &[7], Want::Done(&[Some(&[7]), Some(&[1])]))],
        ),
        (2, NONE, WITHIN, &[failed(X, fails)]),
        // in the first alternative: the second goes where the fetch failed, from the state before
        (1, NONE, FIRST, &[failed(X, Want::Done(&[Some(&[2])]))]),
        (1, NONE, WRITTEN, &[failed(X, Want::Done(&[None]))]),
        (
            1,
            NONE,
            WRITTEN,
            &[arrived(X, &[5], Want::Done(&[Some(&[5])]))],
        ),
        // two needs, one after the other, in one sequence and in two
        (
            2,
            NONE,
            TWO,
            &[
                arrived(X, &[7], Want::Need(Y)),
                arrived(Y, &[8], Want::Done(&[Some(&[7]), Some(&[8])])),
            ],
        ),
        (
            1,
            FETCH,
            FETCH_Y,
            &[
                arrived(X, &[7], Want::Need(Y)),
                arrived(Y, &[8], Want::Done(&[Some(&[8])])),
            ],
        ),
        // another entry first; and what is done is done again
        (
            1,
            NONE,
            FETCH,
            &[
                failed(Y, Want::Need(X)),
                arrived(X, &[7], Want::Done(&[Some(&[7])])),
                failed(X, Want::Done(&[Some(&[7])])),
            ],
        ),
    ];
    for (at, (count, fetch, install, steps)) in table.iter().enumerate() {
        assert!(rt;
            comes_true(alloc, *count, fetch, install, &Want::Need(X), steps)?,
            "row {at}"
        );
    }
    Ok(())
}
