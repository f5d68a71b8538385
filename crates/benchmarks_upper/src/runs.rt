//! Runs of a manifest whose one component has a payload of 8 MiB.
ghost use Rattle.std.specs.Prelude.{[]};
ghost use Rattle.suit_engine.specs.Suspended.{GoesOn};

use base_types::{List, Octets, OrMemory, Utf8};
use evidence::DeviceIds;
use sha2::{Digest, Sha256};
use std::alloc::Global;
use suit_commands::{SequenceFault, read};
use suit_engine::{Engine, Env, Fetched, Outcome};
use suit_envelope::{Attached, Manifest, Plan};

/// How many bytes the payload has: as many as one may have.
const SIZE: usize = 1 << 23;

/// The name of the payload where it is attached, and as a text of CBOR.
const NAME: &str = "#a";

const NAME_ITEM: &[u8] = &[0x62, 0x23, 0x61];

/// The address of the payload where it is fetched, and as a text of CBOR.
const ADDRESS: &str = "http://h:1/x";

const ADDRESS_ITEM: &[u8] = &[
    0x6c, 0x68, 0x74, 0x74, 0x70, 0x3a, 0x2f, 0x2f, 0x68, 0x3a, 0x31, 0x2f, 0x78,
];

/// No command.
const NONE: &[u8] = &[0x80];

/// Three commands, of which the first sets three parameters: the digest, by SHA-256, is the first.
const BEFORE_DIGEST: [u8; 10] = [0x86, 0x14, 0xa3, 3, 0x58, 0x24, 0x82, 0x2f, 0x58, 0x20];

/// The size is the second, and the third is the URI.
const BEHIND_DIGEST: [u8; 7] = [0x0e, 0x1a, 0, 0x80, 0, 0, 0x15];

/// The others fetch the payload, and match the image.
const BEHIND_URI: [u8; 4] = [0x15, 0x0f, 3, 0x0f];

/// What all runs are made of.
#[derive(Drop)]
struct Sample {
    manifest: Manifest,
    install: Octets,
    attached: List<Attached>,
    device: DeviceIds,
    fetched: Env,
}

fn payload(alloc: Global) -> OrMemory<Octets> {
    Ok(Octets::from_vec(vec![in alloc; 7; SIZE]?))
}

fn manifest(alloc: Global) -> OrMemory<Manifest> {
    let mut components = List::new(alloc);
    components.push(Octets::new(alloc))?;
    Ok(Manifest {
        id: Octets::new(alloc),
        sequence: 7,
        components,
        shared: None,
        members: List::new(alloc),
        common_other: List::new(alloc),
    })
}

fn device(alloc: Global) -> DeviceIds {
    DeviceIds {
        vendor: Octets::new(alloc),
        class: Octets::new(alloc),
        device: Octets::new(alloc),
    }
}

// The sequence that installs the payload from this URI.
fn install(alloc: Global, payload: &[u8], uri: &[u8]) -> OrMemory<Octets> {
    let mut bytes = Octets::from_slice(alloc, &BEFORE_DIGEST)?;
    bytes.extend(&Sha256::digest(payload))?;
    bytes.extend(&BEHIND_DIGEST)?;
    bytes.extend(uri)?;
    bytes.extend(&BEHIND_URI)?;
    Ok(bytes)
}

fn attached(alloc: Global, bytes: Octets) -> OrMemory<List<Attached>> {
    let name = Utf8::from_str(alloc, NAME)?;
    let mut attached = List::new(alloc);
    attached.push(Attached { name, bytes })?;
    Ok(attached)
}

fn fetched(alloc: Global, bytes: Octets) -> OrMemory<Env> {
    let uri = Utf8::from_str(alloc, ADDRESS)?;
    let mut fetched = List::new(alloc);
    fetched.push(Fetched {
        uri,
        bytes: Some(bytes),
    })?;
    Ok(fetched)
}

// The payload is attached.
fn sample_attached(alloc: Global) -> OrMemory<Sample> {
    let bytes = payload(alloc)?;
    let install = install(alloc, bytes.as_slice(), NAME_ITEM)?;
    let manifest = manifest(alloc)?;
    let attached = attached(alloc, bytes)?;
    Ok(Sample {
        manifest,
        install,
        attached,
        device: device(alloc),
        fetched: List::new(alloc),
    })
}

// The payload is fetched.
fn sample_fetched(alloc: Global) -> OrMemory<Sample> {
    let bytes = payload(alloc)?;
    let install = install(alloc, bytes.as_slice(), ADDRESS_ITEM)?;
    let manifest = manifest(alloc)?;
    let fetched = fetched(alloc, bytes)?;
    Ok(Sample {
        manifest,
        install,
        attached: List::new(alloc),
        device: device(alloc),
        fetched,
    })
}

fn plan(alloc: Global, install: &[u8]) -> Result<Plan, SequenceFault> {
    let shared = read(alloc, NONE)?;
    let fetch = read(alloc, NONE)?;
    let install = read(alloc, install)?;
    let validate = read(alloc, NONE)?;
    Ok(Plan {
        shared,
        fetch,
        install,
        validate,
    })
}

fn engine(alloc: Global, sample: &Sample, plan: Plan) -> OrMemory<Engine> {
    Engine::start(
        alloc,
        &sample.manifest,
        plan,
        &sample.attached,
        &sample.device,
    )
}

fn engine_for(alloc: Global, sample: &Sample) -> Option<Engine> {
    match plan(alloc, sample.install.as_slice()) {
        Ok(plan) => engine(alloc, sample, plan).ok(),
        Err(_) => None,
    }
}

fn is_done(outcome: &Outcome) -> bool {
    matches!(outcome, Outcome::Done(_))
}

fn is_need(outcome: &Outcome) -> bool {
    matches!(outcome, Outcome::Need(_))
}

// Whether a run from the start, with nothing fetched, goes through.
fn goes_through(alloc: Global, engine: &mut Engine) -> OrMemory<bool> {
    let outcome = engine.go(&List::new(alloc))?;
    Ok(is_done(&outcome))
}

// Whether a run from the start, with nothing fetched, waits.
fn waits(alloc: Global, engine: &mut Engine) -> OrMemory<bool>
    ensures { GoesOn engine.new [] }
{
    let nothing = List::new(alloc);
    let outcome = engine.go(&nothing)?;
    Ok(is_need(&outcome))
}

// Whether a run that waits goes through with what was fetched.
fn goes_on(engine: &mut Engine, fetched: &Env) -> OrMemory<bool>
    requires { GoesOn engine.old fetched.now }
{
    let outcome = engine.resume(fetched)?;
    Ok(is_done(&outcome))
}

fn waits_and_goes_on(alloc: Global, engine: &mut Engine, fetched: &Env) -> OrMemory<bool> {
    if !waits(alloc, engine)? {
        return Ok(false);
    }
    goes_on(engine, fetched)
}

fn is_run(alloc: Global, mut engine: Engine) -> bool {
    matches!(goes_through(alloc, &mut engine), Ok(true))
}

fn is_resumed(alloc: Global, mut engine: Engine, fetched: &Env) -> bool {
    matches!(waits_and_goes_on(alloc, &mut engine, fetched), Ok(true))
}

// Whether an engine is made, and a run goes through.
fn runs(alloc: Global, sample: &Sample) -> bool {
    match engine_for(alloc, sample) {
        Some(engine) => is_run(alloc, engine),
        None => false,
    }
}

// Whether an engine is made, and a run waits for the payload and goes through with it.
fn resumes(alloc: Global, sample: &Sample) -> bool {
    match engine_for(alloc, sample) {
        Some(engine) => is_resumed(alloc, engine, &sample.fetched),
        None => false,
    }
}

fn count_runs(alloc: Global, sample: &Sample, rounds: u64) -> u64 {
    let mut good: u64 = 0;
    for _ in 0..rounds {
        if runs(alloc, sample) {
            good = good.saturating_add(1);
        }
    }
    good
}

fn count_resumes(alloc: Global, sample: &Sample, rounds: u64) -> u64 {
    let mut good: u64 = 0;
    for _ in 0..rounds {
        if resumes(alloc, sample) {
            good = good.saturating_add(1);
        }
    }
    good
}

/// How many times an engine was made and ran the manifest with its payload attached.
pub fn runs_manifest(alloc: Global, rounds: u64) -> u64 {
    match sample_attached(alloc) {
        Ok(sample) => count_runs(alloc, &sample, rounds),
        Err(_) => 0,
    }
}

/// How many times an engine was made, waited for the payload and went on with it.
pub fn fetches_manifest(alloc: Global, rounds: u64) -> u64 {
    match sample_fetched(alloc) {
        Ok(sample) => count_resumes(alloc, &sample, rounds),
        Err(_) => 0,
    }
}

/// How many times the payload was hashed.
pub fn hashes_payload(alloc: Global, rounds: u64) -> u64 {
    match payload(alloc) {
        Ok(payload) => hashes(payload.as_slice(), rounds),
        Err(_) => 0,
    }
}

fn hashes(bytes: &[u8], rounds: u64) -> u64 {
    let mut good: u64 = 0;
    for _ in 0..rounds {
        if Sha256::digest(bytes) != [0; 32] {
            good = good.saturating_add(1);
        }
    }
    good
}
