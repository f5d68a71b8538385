//! A key: its parameters and its seed, with the trees that it keeps.

ghost use Rattle.std.specs.Prelude.{◌≡◌, ◌++◌, ◌<◌, ◌≤◌, ◌^◌, IfOk, IfSome, List, ℕ};
ghost use Rattle.hss_sign.specs.Kept.{HssKey, IsKept, IsLower};
ghost use Rattle.hss_sign.specs.Params.{IsProperParams, capacity};
ghost use Rattle.hss_sign.specs.Secrets.{lower_secret, top_secret};
ghost use Rattle.hss_sign.specs.Sign.{public_of, signature_of, signed_key, tree_signature};
ghost use Rattle.hss_sign.specs.Trees.{IsGrown};
ghost use Rattle.lms_core.specs.Bytes.{u32_bytes};
ghost use Rattle.lms_core.specs.Lms.{signature_bytes};

use crate::grow::{LeafGate, Open, grown};
use crate::params::KeyParams;
use crate::secrets::TreeSecret;
use crate::tree::Tree;
use base_types::{Octets, OrMemory};
use hss_verify::HssPublic;
use std::alloc::Global;
use std::marker::Model;
use std::thread::Threads;

/// The tree below a leaf of the top tree, and its public key behind the signature of it.
#[derive(Drop)]
pub(crate) struct Lower {
    pub leaf: u32,
    pub tree: Tree,
    pub signed: Vec<u8>,
}

/// A key that signs, seen as its parameters and its seed. It keeps all nodes of its top tree, and of
/// the lower tree that it used last.
#[derive(Drop)]
pub struct Key {
    params: KeyParams,
    seed: [u8; 32],
    workers: usize,
    public: HssPublic,
    top: Tree,
    lower: Option<Lower>,
}

impl Model for Key {
    ghost use Rattle.hss_sign.specs.Kept.{HssKey};

    ghost Value = { HssKey };

    ghost use Rattle.hss_sign.specs.Kept.{IsKept};

    ghost view = { λ key. record { params = key.params; seed = key.seed } };

    ghost invariant = { λ key. IsKept key.params key.seed key.workers key.public key.top key.lower };
}

impl Key {
    /// The key of a seed, with its top tree grown by so many workers, and with two levels the lower
    /// tree of a leaf, or of the last leaf where that is smaller. Refused for want of memory alone.
    pub fn grow<R: Threads + AllocGlobal + Sync>(
        rt: &R,
        params: KeyParams,
        key_seed: &[u8; 32],
        leaf: u64,
        workers: usize,
    ) -> OrMemory<Key>
        requires proper { IsProperParams params }
        requires workers { (1 ≤ workers) × (workers ≤ 16) }
        ensures value { IfOk result (λ key. key ≡ record { params = params; seed = key_seed.now }) }
    {
        Key::grow_with(rt, params, key_seed, leaf, workers, &Open)
    }

    /// The same, where a gate is told of each leaf of the top tree before it is computed.
    pub fn grow_with<R: Threads + AllocGlobal + Sync, G: LeafGate>(
        rt: &R,
        params: KeyParams,
        key_seed: &[u8; 32],
        leaf: u64,
        workers: usize,
        gate: &G,
    ) -> OrMemory<Key>
        requires proper { IsProperParams params }
        requires workers { (1 ≤ workers) × (workers ≤ 16) }
        ensures value { IfOk result (λ key. key ≡ record { params = params; seed = key_seed.now }) }
    {
        let top = grown(rt, params, TreeSecret::top(key_seed), workers, gate)?;
        let public = public_of(rt.alloc(), params, key_seed, &top)?;
        let lower = first_lower(rt, params, key_seed, workers, &top, leaf)?;
        Ok(Key {
            params,
            seed: *key_seed,
            workers,
            public,
            top,
            lower,
        })
    }

    /// How many messages the key signs, one at each leaf: two to the power of levels times height.
    pub fn capacity(&self) -> u64
        ensures value { result ≡ capacity self.now.params }
    {
        1 << (self.params.levels * self.params.height)
    }

    /// The public key.
    pub fn public(&self) -> HssPublic
        ensures value { result ≡ public_of self.now.params self.now.seed }
    {
        self.public
    }

    /// Signs a message at a leaf. Where the leaf stands in another lower tree than the kept one, that
    /// tree is grown, its key is signed, and both are kept in its place. Refused for want of memory
    /// alone, which is taken before anything is changed.
    pub fn sign<R: Threads + AllocGlobal + Sync>(
        &mut self,
        rt: &R,
        leaf: u64,
        message: &[u8],
    ) -> OrMemory<Octets>
        requires inside { leaf < capacity self.old.params }
        ensures value { IfOk result (λ it. it ≡ signature_of self.old.params self.old.seed leaf message.now) }
        ensures same { self.new ≡ self.old }
    {
        let params = self.params;
        if params.levels == 1 {
            return sign_alone(rt.alloc(), params, &self.top, leaf as u32, message);
        }
        let leaves = u64::from(params.leaves());
        let at = (leaf / leaves) as u32;
        let below = (leaf % leaves) as u32;
        if let Some(lower) = &self.lower {
            if lower.leaf == at {
                return sign_below(rt.alloc(), params, lower, below, message);
            }
        }
        let lower = lower_tree(rt, params, &self.seed, self.workers, &self.top, at)?;
        let signature = sign_below(rt.alloc(), params, &lower, below, message)?;
        self.lower = Some(lower);
        Ok(signature)
    }
}

// The public key over its top tree.
fn public_of(alloc: Global, params: KeyParams, seed: &[u8; 32], top: &Tree) -> OrMemory<HssPublic>
    requires proper { IsProperParams params }
    requires grown { IsGrown params (top_secret seed.now) top.now.nodes.items }
    requires secret { top.now.secret ≡ top_secret seed.now }
    ensures value { IfOk result (λ key. key ≡ public_of params seed.now) }
{
    let mut bytes = Vec::new(alloc);
    bytes.extend_from_slice(&params.levels.to_be_bytes())?;
    top.write_public(params, &mut bytes)?;
    Ok(HssPublic::read(&bytes).unwrap())
}

// The lower tree of a leaf, or of the last leaf where that is smaller; none with one level.
fn first_lower<R: Threads + AllocGlobal + Sync>(
    rt: &R,
    params: KeyParams,
    seed: &[u8; 32],
    workers: usize,
    top: &Tree,
    leaf: u64,
) -> OrMemory<Option<Lower>>
    requires proper { IsProperParams params }
    requires some { 1 ≤ workers }
    requires grown { IsGrown params (top_secret seed.now) top.now.nodes.items }
    requires secret { top.now.secret ≡ top_secret seed.now }
    ensures value { IfOk result (λ lower. IfSome lower (IsLower params seed.now)) }
{
    if params.levels == 1 {
        return Ok(None);
    }
    let leaves = u64::from(params.leaves());
    let at = (leaf / leaves).min(leaves - 1) as u32;
    let lower = lower_tree(rt, params, seed, workers, top, at)?;
    Ok(Some(lower))
}

// The tree below a leaf of the top tree, with its public key signed.
fn lower_tree<R: Threads + AllocGlobal + Sync>(
    rt: &R,
    params: KeyParams,
    seed: &[u8; 32],
    workers: usize,
    top: &Tree,
    leaf: u32,
) -> OrMemory<Lower>
    requires proper { IsProperParams params }
    requires some { 1 ≤ workers }
    requires grown { IsGrown params (top_secret seed.now) top.now.nodes.items }
    requires secret { top.now.secret ≡ top_secret seed.now }
    requires inside { leaf < 2 ^ params.height }
    ensures value { IfOk result (λ lower. IsLower params seed.now lower × (lower.leaf ≡ leaf)) }
{
    let tree = grown(rt, params, top.secret.below(leaf), workers, &Open)?;
    let mut public = Vec::new(rt.alloc());
    tree.write_public(params, &mut public)?;
    let mut signed = Vec::new(rt.alloc());
    top.write_signature(params, leaf, &public, &mut signed)?;
    signed.extend_from_slice(&public)?;
    Ok(Lower { leaf, tree, signed })
}

// A signature of a key of one level.
fn sign_alone(
    alloc: Global,
    params: KeyParams,
    top: &Tree,
    leaf: u32,
    message: &[u8],
) -> OrMemory<Octets>
    requires proper { IsProperParams params }
    requires grown { IsGrown params top.now.secret top.now.nodes.items }
    requires inside { leaf < 2 ^ params.height }
    ensures value { IfOk result (λ it. it ≡ u32_bytes 0 ++ signature_bytes (tree_signature params top.now.secret leaf message.now)) }
{
    let mut bytes = Vec::new(alloc);
    bytes.extend_from_slice(&0u32.to_be_bytes())?;
    top.write_signature(params, leaf, message, &mut bytes)?;
    Ok(Octets::from_vec(bytes))
}

// A signature of a key of two levels, by its lower tree.
fn sign_below(
    alloc: Global,
    params: KeyParams,
    lower: &Lower,
    leaf: u32,
    message: &[u8],
) -> OrMemory<Octets>
    requires proper { IsProperParams params }
    requires grown { IsGrown params lower.now.tree.secret lower.now.tree.nodes.items }
    requires inside { leaf < 2 ^ params.height }
    ensures value { IfOk result (λ it. it ≡ u32_bytes 1 ++ (lower.now.signed.items ++ signature_bytes (tree_signature params lower.now.tree.secret leaf message.now))) }
{
    let mut bytes = Vec::new(alloc);
    bytes.extend_from_slice(&1u32.to_be_bytes())?;
    bytes.extend_from_slice(&lower.signed)?;
    lower
        .tree
        .write_signature(params, leaf, message, &mut bytes)?;
    Ok(Octets::from_vec(bytes))
}
