use base_types::{List, Octets, OrMemory, Utf8};
use evidence::DeviceIds;
use std::alloc::Global;
use suit_commands::{SequenceFault, read};
use suit_engine::{Built, Engine, Outcome, Word};
use suit_envelope::{Attached, Manifest, Plan};

// No command.
pub(crate) const NONE: &[u8] = &[0x80];

pub(crate) const HELLO: [u8; 5] = [0x68, 0x65, 0x6c, 0x6c, 0x6f];

// What a run is to come to; of a component its bytes.
#[derive(Clone, Copy)]
pub(crate) enum Want<'a> {
    Done(&'a [Option<&'a [u8]>]),
    Need(&'a str),
    Failed(Word),
}

// A manifest of so many components.
pub(crate) fn manifest(alloc: Global, count: usize) -> OrMemory<Manifest> {
    let mut components = List::new(alloc);
    for _ in 0..count {
        components.push(Octets::new(alloc))?;
    }
    Ok(Manifest {
        id: Octets::new(alloc),
        sequence: 7,
        components,
        shared: None,
        members: List::new(alloc),
        common_other: List::new(alloc),
    })
}

pub(crate) fn plan(
    alloc: Global,
    shared: &[u8],
    fetch: &[u8],
    install: &[u8],
    validate: &[u8],
) -> Result<Plan, SequenceFault> {
    let shared = read(alloc, shared)?;
    let fetch = read(alloc, fetch)?;
    let install = read(alloc, install)?;
    let validate = read(alloc, validate)?;
    Ok(Plan {
        shared,
        fetch,
        install,
        validate,
    })
}

// The vendor is `aa`, the class `bb`, the device `64`.
pub(crate) fn device(alloc: Global) -> OrMemory<DeviceIds> {
    let vendor = Octets::from_slice(alloc, &[0xaa])?;
    let class = Octets::from_slice(alloc, &[0xbb])?;
    let device = Octets::from_slice(alloc, &[0x64])?;
    Ok(DeviceIds {
        vendor,
        class,
        device,
    })
}

// An engine with the payload `#a`.
pub(crate) fn engine(alloc: Global, count: usize, plan: Plan, payload: Octets) -> OrMemory<Engine> {
    let name = Utf8::from_str(alloc, "#a")?;
    let mut attached = List::new(alloc);
    attached.push(Attached {
        name,
        bytes: payload,
    })?;
    let manifest = manifest(alloc, count)?;
    let device = device(alloc)?;
    Engine::start(alloc, &manifest, plan, &attached, &device)
}

fn has(built: &Built, want: Option<&[u8]>) -> bool {
    match &built.bytes {
        Some(bytes) => match want {
            Some(want) => bytes.as_slice() == want,
            None => false,
        },
        None => want.is_none(),
    }
}

fn are(all: &[Built], want: &[Option<&[u8]>]) -> bool {
    if all.len() != want.len() {
        return false;
    }
    for (built, want) in all.iter().zip(want) {
        if !has(built, *want) {
            return false;
        }
    }
    true
}

pub(crate) fn is(outcome: &Outcome, want: &Want<'_>) -> bool {
    match outcome {
        Outcome::Done(all) => match want {
            Want::Done(want) => are(all.as_slice(), want),
            _ => false,
        },
        Outcome::Need(uri) => match want {
            Want::Need(want) => uri.as_str() == *want,
            _ => false,
        },
        Outcome::Failed(word) => match want {
            Want::Failed(want) => *word == *want,
            _ => false,
        },
    }
}
