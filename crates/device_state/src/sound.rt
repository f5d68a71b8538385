ghost use Rattle.std.specs.Prelude.{◌≡◌, ◌≤◌, ◌↔◌, ◌++◌, IsTrue, IfOk, OnOk, map, length};
ghost use Rattle.std.specs.List.{AllByRecursion};
ghost use Rattle.hss_sign.specs.Params.{capacity};
ghost use Rattle.suit_commands.specs.Digests.{IsProperDigest, size_of};
ghost use Rattle.base_types.specs.Bytes.{IsBytes};
ghost use Rattle.device_state.specs.Sorting.{NeighboursDiffer};
ghost use Rattle.device_state.specs.Valid.{IsComponent, IsRow, IsCount, NoneTwice, owned, AreFew, IsSound};

use crate::identifier::is_short_id;
use crate::rows::{ComponentRow, ManifestRow};
use base_types::{ANCHORS_LIMIT, COMPONENTS_LIMIT, OrMemory};
use device_config::Config;
use hss_sign::KeyParams;
use std::alloc::Global;
use suit_commands::{Digest, DigestAlgorithm};
use trust_anchors::Anchors;

/// Whether a key of these parameters has so many leaves.
fn has_leaves(params: KeyParams, leaves: u64) -> bool
    ensures { IsTrue result ↔ (leaves ≤ capacity params) }
{
    let bits = u64::from(params.levels) * u64::from(params.height);
    bits >= 64 || leaves <= 1u64 << bits
}

/// Whether there are at most 16 keys of each role.
fn are_few(anchors: &Anchors) -> bool
    ensures { IsTrue result ↔ AreFew anchors.now }
{
    anchors.manager.len() <= ANCHORS_LIMIT && anchors.author.len() <= ANCHORS_LIMIT
}

/// Whether there are so many bytes.
fn has_size(bytes: &[u8], size: usize) -> bool
    ensures { IsTrue result ↔ (IsBytes bytes.now × (length bytes.now ≡ size)) }
{
    bytes.len() == size
}

/// How many bytes a digest has.
fn digest_size(algorithm: DigestAlgorithm) -> usize
    ensures { result ≡ size_of algorithm }
{
    match algorithm {
        DigestAlgorithm::Sha256 => 32,
        DigestAlgorithm::Sha384 => 48,
        DigestAlgorithm::Sha512 => 64,
    }
}

/// Whether a digest has as many bytes as its algorithm's.
fn is_proper_digest(digest: &Digest) -> bool
    ensures { IsTrue result ↔ IsProperDigest digest.now }
{
    has_size(digest.bytes.as_slice(), digest_size(digest.algorithm))
}

/// Whether a component has an identifier, and a digest that is one where it has any.
fn is_component(component: &ComponentRow) -> bool
    ensures { IsTrue result ↔ IsComponent component.now }
{
    if !is_short_id(component.id.as_slice()) {
        return false;
    }
    match &component.digest {
        Some(digest) => is_proper_digest(digest),
        None => true,
    }
}

/// Whether each is one.
fn are_components(components: &[ComponentRow]) -> bool
    ensures { IsTrue result ↔ AllByRecursion IsComponent components.now }
{
    for component in components {
        if !is_component(component) {
            return false;
        }
    }
    true
}

/// Whether a manifest, present or not, may have so many components.
fn is_count(present: bool, count: usize) -> bool
    ensures { IsTrue result ↔ IsCount present count }
{
    if present {
        1 <= count && count <= COMPONENTS_LIMIT
    } else {
        count == 0
    }
}

/// Whether a manifest has an identifier and as many components as it may, and each of them is one.
fn is_row(row: &ManifestRow) -> bool
    ensures { IsTrue result ↔ IsRow row.now }
{
    is_short_id(row.id.as_slice())
        && is_count(row.present, row.components.len())
        && are_components(row.components.as_slice())
}

/// Whether each is one.
fn are_rows(rows: &[ManifestRow]) -> bool
    ensures { IsTrue result ↔ AllByRecursion IsRow rows.now }
{
    for row in rows {
        if !is_row(row) {
            return false;
        }
    }
    true
}

/// Puts the identifiers of a manifest's components behind others.
fn push_ids<'a>(ids: &mut Vec<&'a [u8]>, components: &'a [ComponentRow]) -> OrMemory<()>
    ensures { OnOk result (map (λ id. id.now) ids.new.items ≡ map (λ id. id.now) ids.old.items ++ map (λ c. c.id) components.now) }
{
    for component in components {
        ids.push(component.id.as_slice())?;
    }
    Ok(())
}

/// The identifiers of all components, manifest by manifest.
fn owned_ids(alloc: Global, rows: &[ManifestRow]) -> OrMemory<Vec<&[u8]>>
    ensures { IfOk result (λ ids. map (λ id. id.now) ids.items ≡ owned rows.now) }
{
    let mut ids = Vec::new(alloc);
    for row in rows {
        push_ids(&mut ids, row.components.as_slice())?;
    }
    Ok(ids)
}

/// Whether no two neighbours are the same.
fn are_apart(ids: &[&[u8]]) -> bool
    ensures { IsTrue result ↔ NeighboursDiffer (map (λ id. id.now) ids.now) }
{
    for at in 1..ids.len() {
        if ids[at - 1] == ids[at] {
            return false;
        }
    }
    true
}

/// Whether no two are the same: sorted, such two are neighbours.
fn none_twice(ids: Vec<&[u8]>) -> bool
    ensures { IsTrue result ↔ NoneTwice (map (λ id. id.now) ids.entry.items) }
{
    let mut ids = ids;
    ids.sort_unstable();
    are_apart(ids.as_slice())
}

/// Whether a device with this configuration may be in this state, but for its weight: so many leaves of
/// its key may be used, its manifests and their components are such as the state has, each component
/// stands once, and there are at most 16 keys of each role. Refused for want of memory alone: a place is
/// taken for each component.
pub fn is_sound(alloc: Global, config: &Config, leaf: u64, rows: &[ManifestRow]) -> OrMemory<bool>
    ensures { IfOk result (λ sound. IsTrue sound ↔ IsSound (record { config = config.now; leaf = leaf; rows = rows.now })) }
{
    if !has_leaves(config.params, leaf) || !are_few(&config.anchors) || !are_rows(rows) {
        return Ok(false);
    }
    Ok(none_twice(owned_ids(alloc, rows)?))
}
