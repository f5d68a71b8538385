//! Stores that are mounted, and changes that are committed.
ghost use Rattle.std.specs.Prelude.{◌≡◌, [], IfOk, IsTrue};
ghost use Rattle.device_config.specs.Config.{IsConfig};
ghost use Rattle.device_state.specs.State.{put_rows};
ghost use Rattle.component_store.specs.Preparing.{MayFollow};
ghost use Rattle.component_store.specs.Stores.{state, extent};

use base_types::{List, NoMemory, Octets, OrMemory};
use board_core::{Board, FileBoard, MemoryBoard, write_gated};
use component_store::{
    AnyStore, Change, ComponentRow, Config, ManifestRow, Store, image_of, mount,
};
use device_config::{ConfigFault, HEAD_SIZE};
use device_state::is_sound;
use std::alloc::Global;
use std::fs;
use std::fs::File;
use std::rt::Files;

/// The quota of the store in memory, the greatest there is, and how it is written.
const MEMORY_QUOTA: [u8; 4] = [2, 0, 0, 0];

/// The image of the component that makes what is kept weigh half of that: 2^24 without what the manifest
/// and the component weigh beside.
const HALF: usize = (1 << 24) - 518;

/// The quota of the store in a file, 2^20, as it is written.
const FILE_QUOTA: [u8; 4] = [0, 0x10, 0, 0];

/// The file of that store.
const STORE_FILE: &str = "store.img";

/// The file for puts alone, which has the same bytes at first.
const PUTS_FILE: &str = "puts.img";

/// What stands in a configuration before its quota: [h'aa', h'bb', h'64', ..
const BEFORE_QUOTA: [u8; 8] = [0x89, 0x41, 0xaa, 0x41, 0xbb, 0x41, 0x64, 0x1a];

/// A key of two levels, height 10 and width 4, and the length of its seed.
const KEY_PARAMS: [u8; 5] = [2, 10, 4, 0x58, 0x20];

/// A COSE_Key {1: 5, 3: -46, -1: ..} in 69 bytes, up to its HSS key.
const KEY: [u8; 11] = [0x58, 0x45, 0xa3, 1, 5, 3, 0x38, 0x2d, 0x20, 0x58, 0x3c];

/// What an HSS key of one level, height 5 and width 8 begins with.
const KEY_TYPES: [u8; 12] = [0, 0, 0, 1, 0, 0, 0, 5, 0, 0, 0, 4];

fn push_role(bytes: &mut Octets, fill: u8) -> OrMemory<()> {
    bytes.push(0x81)?;
    bytes.extend(&KEY)?;
    bytes.extend(&KEY_TYPES)?;
    bytes.extend(&[fill; 48])
}

fn config_bytes(alloc: Global, quota: [u8; 4]) -> OrMemory<Octets> {
    let mut bytes = Octets::from_slice(alloc, &BEFORE_QUOTA)?;
    bytes.extend(&quota)?;
    bytes.extend(&KEY_PARAMS)?;
    bytes.extend(&[0x33; 32])?;
    bytes.push(0x82)?;
    push_role(&mut bytes, 0x11)?;
    push_role(&mut bytes, 0x22)?;
    Ok(bytes)
}

fn config(alloc: Global, quota: [u8; 4]) -> Result<Config, ConfigFault>
    ensures { IfOk result IsConfig }
{
    let bytes = config_bytes(alloc, quota)?;
    Config::read(alloc, bytes.as_slice())
}

// The image of a new device.
fn new_image(alloc: Global, quota: [u8; 4]) -> OrMemory<Octets> {
    match config(alloc, quota) {
        Ok(config) => image_of(alloc, &config),
        Err(_) => Err(NoMemory),
    }
}

// A component of so many bytes in a manifest of its own.
fn row(alloc: Global, size: usize) -> OrMemory<List<ManifestRow>>
    ensures { IfOk result (λ it. put_rows it [] ≡ it) }
{
    let mut components = List::new(alloc);
    components.push(ComponentRow {
        id: Octets::from_slice(alloc, &[0x81, 0x41, 2])?,
        bytes: Octets::from_vec(vec![in alloc; 7; size]?),
        digest: None,
    })?;
    let mut rows = List::new(alloc);
    rows.push(ManifestRow {
        id: Octets::from_slice(alloc, &[0x81, 0x41, 1])?,
        sequence: 7,
        present: true,
        components,
    })?;
    Ok(rows)
}

// Whether a change of a store without manifests may be prepared.
fn may_follow(alloc: Global, store: &AnyStore, change: &Change) -> OrMemory<bool>
    requires { put_rows change.now.rows [] ≡ change.now.rows }
    ensures { IfOk result (λ may. IsTrue may → MayFollow change.now (state store.now)) }
{
    if !store.rows().is_empty() || change.anchors.is_some() || change.leaf < store.leaf() {
        return Ok(false);
    }
    is_sound(alloc, store.config(), change.leaf, change.rows.as_slice())
}

// Whether a change that may be prepared becomes durable.
fn makes_durable<B: Board>(
    alloc: Global,
    board: &mut B,
    store: &mut AnyStore,
    change: &Change,
) -> bool
    requires may { MayFollow change.now (state store.old) }
    requires extent { (B.view board.old).extent ≡ extent store.old }
    ensures { (B.view board.new).extent ≡ extent store.new }
{
    match store.prepare(alloc, change) {
        Ok(prepared) => store.commit(board, prepared).is_ok(),
        Err(_) => false,
    }
}

// Whether a change becomes durable, of a store without manifests.
fn is_committed<B: Board>(
    alloc: Global,
    board: &mut B,
    store: &mut AnyStore,
    change: &Change,
) -> bool
    requires rows { put_rows change.now.rows [] ≡ change.now.rows }
    requires extent { (B.view board.old).extent ≡ extent store.old }
    ensures { (B.view board.new).extent ≡ extent store.new }
{
    match may_follow(alloc, store, change) {
        Ok(true) => makes_durable(alloc, board, store, change),
        _ => false,
    }
}

// ---- a store in memory, half full

// Whether a component that takes half of the quota becomes durable.
fn is_half<B: Board>(
    alloc: Global,
    board: &mut B,
    store: &mut AnyStore,
    size: usize,
) -> OrMemory<bool>
    requires { (B.view board.old).extent ≡ extent store.old }
{
    let change = Change {
        leaf: 0,
        rows: row(alloc, size)?,
        anchors: None,
    };
    Ok(is_committed(alloc, board, store, &change))
}

fn is_half_of<B: Board>(alloc: Global, board: &mut B, mut store: AnyStore) -> bool
    requires { (B.view board.old).extent ≡ extent store }
{
    matches!(is_half(alloc, board, &mut store, HALF), Ok(true))
}

fn is_filled<B: Board>(alloc: Global, board: &mut B) -> bool {
    match mount(alloc, board) {
        Ok(store) => is_half_of(alloc, board, store),
        Err(_) => false,
    }
}

fn is_mounted<B: Board>(alloc: Global, board: &mut B) -> bool {
    mount(alloc, board).is_ok()
}

fn count_mounts<B: Board>(alloc: Global, board: &mut B, rounds: u64) -> u64 {
    let mut good: u64 = 0;
    for _ in 0..rounds {
        if is_mounted(alloc, board) {
            good = good.saturating_add(1);
        }
    }
    good
}

fn mounts<B: Board>(alloc: Global, board: &mut B, rounds: u64) -> u64 {
    if is_filled(alloc, board) {
        count_mounts(alloc, board, rounds)
    } else {
        0
    }
}

fn mounts_of(alloc: Global, mut board: MemoryBoard, rounds: u64) -> u64 {
    mounts(alloc, &mut board, rounds)
}

fn memory_board(alloc: Global) -> OrMemory<MemoryBoard> {
    let image = new_image(alloc, MEMORY_QUOTA)?;
    MemoryBoard::new(alloc, Octets::new(alloc), image, 1, List::new(alloc))
}

/// How many times a store in memory, which keeps half of what it may, was mounted.
pub fn mounts_half(alloc: Global, rounds: u64) -> u64 {
    match memory_board(alloc) {
        Ok(board) => mounts_of(alloc, board, rounds),
        Err(_) => 0,
    }
}

// ---- a store in a file

// Whether this leaf, and nothing else, becomes durable.
fn is_leaf_committed<B: Board>(
    alloc: Global,
    board: &mut B,
    store: &mut AnyStore,
    leaf: u64,
) -> bool
    requires { (B.view board.old).extent ≡ extent store.old }
    ensures { (B.view board.new).extent ≡ extent store.new }
{
    let change = Change {
        leaf,
        rows: List::new(alloc),
        anchors: None,
    };
    is_committed(alloc, board, store, &change)
}

fn count_leaves<B: Board>(alloc: Global, board: &mut B, store: &mut AnyStore, rounds: u64) -> u64
    requires { (B.view board.old).extent ≡ extent store.old }
{
    let first = store.leaf().saturating_add(1);
    let mut good: u64 = 0;
    for round in 0..rounds {
        if is_leaf_committed(alloc, board, store, first.saturating_add(round)) {
            good = good.saturating_add(1);
        }
    }
    good
}

fn leaves_of<B: Board>(alloc: Global, board: &mut B, mut store: AnyStore, rounds: u64) -> u64
    requires { (B.view board.old).extent ≡ extent store }
{
    count_leaves(alloc, board, &mut store, rounds)
}

fn commits<B: Board>(alloc: Global, board: &mut B, rounds: u64) -> u64 {
    match mount(alloc, board) {
        Ok(store) => leaves_of(alloc, board, store, rounds),
        Err(_) => 0,
    }
}

/// How many leaves, one by one, were committed to the store in the file.
pub fn commits_leaves<R: Input + Print + Files<File = File>>(
    rt: &R,
    alloc: Global,
    rounds: u64,
) -> u64 {
    commits(alloc, &mut FileBoard::new(rt, STORE_FILE), rounds)
}

// ---- puts alone

/// Where the first body of the journal has its gate.
const FIRST_GATE: u64 = HEAD_SIZE as u64 + 16;

/// What a commit of a leaf alone, of 256 to 65,535, puts behind a gate: a length, the body, and a gate.
const BEHIND_GATE: [u8; 12] = [7; 12];

/// How many places there are before the first comes again.
const PLACES: u64 = 100_000;

fn is_put<B: Board>(board: &mut B, place: u64) -> bool {
    let gate = FIRST_GATE + (place % PLACES) * 12;
    if board.size() < gate + 13 {
        return false;
    }
    write_gated(board, gate + 1, &BEHIND_GATE, gate, 0xa5).is_ok()
}

fn count_puts<B: Board>(board: &mut B, rounds: u64) -> u64 {
    let mut good: u64 = 0;
    for round in 0..rounds {
        if is_put(board, round) {
            good = good.saturating_add(1);
        }
    }
    good
}

/// How many times the puts and syncs of such a commit were made.
pub fn puts_bare<R: Input + Print + Files<File = File>>(rt: &R, rounds: u64) -> u64 {
    count_puts(&mut FileBoard::new(rt, PUTS_FILE), rounds)
}

// ---- the files

fn is_file_made<R: Files>(rt: &R, name: &str, image: &[u8]) -> bool {
    fs::write(rt, name, image).is_ok()
}

fn are_files_made<R: Files>(rt: &R, alloc: Global) -> bool {
    match new_image(alloc, FILE_QUOTA) {
        Ok(image) => {
            is_file_made(rt, STORE_FILE, image.as_slice())
                && is_file_made(rt, PUTS_FILE, image.as_slice())
        }
        Err(_) => false,
    }
}

/// How many times both files were made, for a new device.
pub fn makes_files<R: Files>(rt: &R, alloc: Global, rounds: u64) -> u64 {
    let mut good: u64 = 0;
    for _ in 0..rounds {
        if are_files_made(rt, alloc) {
            good = good.saturating_add(1);
        }
    }
    good
}
