//! A tree grown by several workers.

ghost use Rattle.std.specs.Prelude.{◌≡◌, ◌*◌, ◌+◌, ◌<◌, ◌≤◌, ◌^◌, ℕ, [], IfOk, length, slice_index_or};
ghost use Rattle.hss_sign.specs.Params.{IsProperParams};
ghost use Rattle.hss_sign.specs.Trees.{IsGrown, leaf_at};
ghost use Rattle.lms_core.specs.Tree.{inner_hash};

use crate::one_time::one_time_public;
use crate::params::KeyParams;
use crate::secrets::TreeSecret;
use crate::tree::Tree;
use base_types::OrMemory;
use lms_core::{inner_hash, leaf_hash};
use std::thread;
use std::thread::Threads;

/// What is told of each leaf of a tree before it is computed, by whichever worker computes it.
pub trait LeafGate: Sync {
    /// The leaf of this number is about to be computed.
    fn enter(&self, index: u64);
}

// A gate that does nothing.
pub(crate) struct Open;

impl LeafGate for Open {
    fn enter(&self, _: u64) {}
}

/// The tree of a secret, whose leaves are computed by so many workers, each of a part of them. Refused
/// for want of memory alone.
pub(crate) fn grown<R: Threads + AllocGlobal + Sync, G: LeafGate>(
    rt: &R,
    params: KeyParams,
    secret: TreeSecret,
    workers: usize,
    gate: &G,
) -> OrMemory<Tree>
    requires proper { IsProperParams params }
    requires some { 1 ≤ workers }
    ensures { IfOk result (λ tree. IsGrown params secret tree.nodes.items × (tree.secret ≡ secret)) }
{
    let leaves = params.leaves() as usize;
    let mut nodes = vec![in rt.alloc(); [0; 32]; 2 * leaves]?;
    grow_nodes(rt, params, &secret, workers, gate, &mut nodes);
    Ok(Tree { secret, nodes })
}

// Computes all nodes: the leaves, and then those above them.
fn grow_nodes<R: Threads + Sync, G: LeafGate>(
    rt: &R,
    params: KeyParams,
    secret: &TreeSecret,
    workers: usize,
    gate: &G,
    nodes: &mut [[u8; 32]],
)
    requires proper { IsProperParams params }
    requires some { 1 ≤ workers }
    requires all { length nodes.old ≡ 2 * 2 ^ params.height }
    ensures grown { IsGrown params secret.now nodes.new }
{
    let (_, leaves) = nodes.split_at_mut(params.leaves() as usize);
    fill(rt, params, secret, workers, gate, leaves);
    join_nodes(&secret.identifier, params.leaves(), nodes);
}

// Computes all leaves: each worker those of a chunk.
fn fill<R: Threads + Sync, G: LeafGate>(
    rt: &R,
    params: KeyParams,
    secret: &TreeSecret,
    workers: usize,
    gate: &G,
    leaves: &mut [[u8; 32]],
)
    requires proper { IsProperParams params }
    requires some { 1 ≤ workers }
    requires all { length leaves.old ≡ 2 ^ params.height }
    ensures leaves { (i : ℕ) → i < 2 ^ params.height → slice_index_or leaves.new i [] ≡ leaf_at params secret.now (2 ^ params.height + i) }
{
    let chunk = leaves.len().div_ceil(workers);
    let fill = move |start: usize, part: &mut [[u8; 32]]|
        requires { IsProperParams params × (start + length part.now ≤ 2 ^ params.height) }
        ensures { (i : ℕ) → i < length part.entry.now → slice_index_or part.exit.now i [] ≡ leaf_at params secret.entry.now (2 ^ params.height + (start + i)) }
    { fill_part(params, secret, start, gate, part) };
    thread::for_each_chunk_mut(rt, leaves, chunk, &fill);
}

// Computes the leaves of one chunk, from leaf `start` on.
fn fill_part<G: LeafGate>(
    params: KeyParams,
    secret: &TreeSecret,
    start: usize,
    gate: &G,
    part: &mut [[u8; 32]],
)
    requires proper { IsProperParams params }
    requires room { start + length part.old ≤ 2 ^ params.height }
    ensures leaves { (i : ℕ) → i < length part.old → slice_index_or part.new i [] ≡ leaf_at params secret.now (2 ^ params.height + (start + i)) }
{
    for i in 0..part.len() {
        let leaf = start + i;
        gate.enter(leaf as u64);
        part[i] = leaf_of(params, secret, leaf as u32);
    }
}

// The leaf of this number, which is a function of nothing else.
fn leaf_of(params: KeyParams, secret: &TreeSecret, leaf: u32) -> [u8; 32]
    requires proper { IsProperParams params }
    requires inside { leaf < 2 ^ params.height }
    ensures value { result ≡ leaf_at params secret.now (2 ^ params.height + leaf) }
{
    let key = one_time_public(params.ots(), secret, leaf);
    leaf_hash(&secret.identifier, params.leaves() + leaf, &key)
}

// Computes the nodes above the leaves, from below.
fn join_nodes(identifier: &[u8; 16], leaves: u32, nodes: &mut [[u8; 32]])
    requires whole { length nodes.old ≡ 2 * leaves }
    requires few { leaves ≤ 1024 }
    ensures inner { (r : ℕ) → 1 ≤ r → r < leaves
        → slice_index_or nodes.new r [] ≡ inner_hash identifier.now r (slice_index_or nodes.new (2 * r) []) (slice_index_or nodes.new (2 * r + 1) []) }
    ensures leaves { (r : ℕ) → leaves ≤ r → slice_index_or nodes.new r [] ≡ slice_index_or nodes.old r [] }
    ensures length { length nodes.new ≡ length nodes.old }
{
    for done in 1..leaves {
        let node = leaves - done;
        let at = node as usize;
        nodes[at] = inner_hash(identifier, node, &nodes[2 * at], &nodes[2 * at + 1]);
    }
}
