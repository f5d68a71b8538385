// A device with quota 16,384, its changes, and changes that are looked over before they are prepared.
ghost use Rattle.std.specs.Prelude.{IfOk, IfSome, IsTrue};
ghost use Rattle.device_state.specs.Valid.{AreFew};
ghost use Rattle.device_config.specs.Config.{IsConfig};
ghost use Rattle.device_image.specs.Held.{state_of};
ghost use Rattle.component_store.specs.Preparing.{IsReady, MayFollow};

use crate::bodies::changed_rows;
use crate::{Change, ComponentRow, Config, LogStore, ManifestRow, PrepareFault, Prepared, Store};
use base_types::{Failed, List, Octets, OrMemory};
use device_state::is_sound;
use hss_verify::HssPublic;
use std::alloc::Global;
use std::test::Fail;
use suit_commands::{Digest, DigestAlgorithm};
use trust_anchors::Anchors;

// [h'aa', h'bb', h'64', 16384, 1, 5, 8, seed, ..
const FRONT: [u8; 12] = [
    0x89, 0x41, 0xaa, 0x41, 0xbb, 0x41, 0x64, 0x19, 0x40, 0, 1, 5,
];

// A COSE_Key {1: 5, 3: -46, -1: ..} in 69 bytes, up to its HSS key.
const KEY: [u8; 11] = [0x58, 0x45, 0xa3, 1, 5, 3, 0x38, 0x2d, 0x20, 0x58, 0x3c];

// An HSS key of one level, height 5 and width 8, whose other bytes are all this one.
fn key_bytes(fill: u8) -> [u8; 60] {
    let mut key = [fill; 60];
    key[..12].copy_from_slice(&[0, 0, 0, 1, 0, 0, 0, 5, 0, 0, 0, 4]);
    key
}

fn push_role(bytes: &mut Octets, fill: u8) -> OrMemory<()> {
    bytes.push(0x81)?;
    bytes.extend(&KEY)?;
    bytes.extend(&key_bytes(fill))
}

// A device with one manager's and one author's key.
pub(crate) fn config(alloc: Global) -> Result<Config, Fail>
    ensures { IfOk result IsConfig }
{
    let mut bytes = Octets::from_slice(alloc, &FRONT)?;
    bytes.extend(&[8, 0x58, 0x20])?;
    bytes.extend(&[0x33; 32])?;
    bytes.push(0x82)?;
    push_role(&mut bytes, 0x11)?;
    push_role(&mut bytes, 0x22)?;
    Ok(Config::read(alloc, bytes.as_slice())?)
}

fn keys(alloc: Global, fill: u8) -> Result<List<HssPublic>, Fail> {
    let Some(key) = HssPublic::read(&key_bytes(fill)) else {
        return Err(Failed.into());
    };
    let mut keys = List::new(alloc);
    keys.push(key)?;
    Ok(keys)
}

// Anchors with one key of each role.
pub(crate) fn anchors(alloc: Global, fill: u8) -> Result<Anchors, Fail> {
    let manager = keys(alloc, fill)?;
    let author = keys(alloc, fill)?;
    Ok(Anchors { manager, author })
}

// SHA-256 of `hello`
const HELLO: [u8; 32] = [
    0x2c, 0xf2, 0x4d, 0xba, 0x5f, 0xb0, 0xa3, 0x0e, 0x26, 0xe8, 0x3b, 0x2a, 0xc5, 0xb9, 0xe2, 0x9e,
    0x1b, 0x16, 0x1e, 0x5c, 0x1f, 0xa7, 0x42, 0x5e, 0x73, 0x04, 0x33, 0x62, 0x93, 0x8b, 0x98, 0x24,
];

// A digest of that, by SHA-256.
pub(crate) fn hello_digest(alloc: Global) -> OrMemory<Digest> {
    Ok(Digest {
        algorithm: DigestAlgorithm::Sha256,
        bytes: Octets::from_slice(alloc, &HELLO)?,
    })
}

// A list of one manifest, h'8141' and this byte, which has one component, h'8141' and that byte, with these bytes.
pub(crate) fn manifest(
    alloc: Global,
    id: u8,
    component: u8,
    bytes: Octets,
    digest: Option<Digest>,
) -> OrMemory<List<ManifestRow>> {
    let mut components = List::new(alloc);
    components.push(ComponentRow {
        id: Octets::from_slice(alloc, &[0x81, 0x41, component])?,
        bytes,
        digest,
    })?;
    let mut rows = List::new(alloc);
    rows.push(ManifestRow {
        id: Octets::from_slice(alloc, &[0x81, 0x41, id])?,
        sequence: 7,
        present: true,
        components,
    })?;
    Ok(rows)
}

// So many bytes that are all 7.
pub(crate) fn sevens(alloc: Global, count: usize) -> OrMemory<Octets> {
    let mut bytes = Octets::new(alloc);
    for _ in 0..count {
        bytes.push(7)?;
    }
    Ok(bytes)
}

// Whether there are at most 16 keys of each role, where there are any.
fn are_few(anchors: &Option<Anchors>) -> bool
    ensures { IsTrue result → IfSome anchors.now AreFew }
{
    match anchors {
        Some(anchors) => anchors.manager.len() <= 16 && anchors.author.len() <= 16,
        None => true,
    }
}

// Whether a change may be prepared.
fn may_follow(alloc: Global, store: &LogStore, change: &Change) -> OrMemory<bool>
    ensures { IfOk result (λ may. IsTrue may → MayFollow change.now (state_of store.now.held)) }
{
    let held = &store.held;
    let rows = changed_rows(alloc, held.rows.as_slice(), change.rows.as_slice())?;
    if change.leaf < held.leaf || !are_few(&change.anchors) {
        return Ok(false);
    }
    if !is_sound(alloc, &held.config, change.leaf, change.rows.as_slice())? {
        return Ok(false);
    }
    is_sound(alloc, &held.config, change.leaf, rows.as_slice())
}

// A change that may be prepared, made ready.
pub(crate) fn prepared(
    alloc: Global,
    store: &mut LogStore,
    change: &Change,
) -> Result<Result<Prepared, PrepareFault>, Fail>
    ensures { IfOk result (λ answer. IfOk answer (IsReady store.new)) }
{
    if !may_follow(alloc, store, change)? {
        return Err(Failed.into());
    }
    Ok(store.prepare(alloc, change))
}
