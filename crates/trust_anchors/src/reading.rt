ghost use Rattle.std.specs.Prelude.{◌≡◌, ◌↔◌, ℕ, [], ◌∷◌, IfOk, IsTrue, MatchOption, List as ListOf};
ghost use Rattle.std.specs.List.{AllByRecursion};
ghost use Rattle.cose_core.specs.Key.{KeyIs};
ghost use Rattle.trust_anchors.specs.Anchors.{Wraps, IsBad, IsString, KeysReadAs};

use crate::fault::AnchorFault;
use crate::role::Role;
use base_types::{List, NoMemory, OrMemory};
use cbor_core::Item;
use cose_core::{CoseKey, KeyFault};
use hss_verify::HssPublic;
use std::alloc::Global;

/// The two arrays of an array of two. None exactly where the item is none.
pub fn two_arrays(item: &Item) -> Option<(&[Item], &[Item])>
    ensures { MatchOption result
        ((a : ListOf Item) (b : ListOf Item) → item.now ≡ Item.Array (Item.Array a ∷ Item.Array b ∷ []) → ⊥)
        (λ both. item.now ≡ Item.Array (Item.Array both.0.now ∷ Item.Array both.1.now ∷ [])) }
{
    match item.as_array()? {
        [first, second] => Some((first.as_array()?, second.as_array()?)),
        _ => None,
    }
}

/// Whether each item is a byte string.
pub fn are_strings(items: &[Item]) -> bool
    ensures { IsTrue result ↔ AllByRecursion IsString items.now }
{
    for item in items {
        if item.as_bytes().is_none() {
            return false;
        }
    }
    true
}

/// The COSE_Key that bytes are. None exactly where they are none.
fn read_cose_key(alloc: Global, bytes: &[u8]) -> OrMemory<Option<CoseKey>>
    ensures { IfOk result (λ found. MatchOption found ((key : CoseKey) → KeyIs key bytes.now → ⊥) (λ key. KeyIs key bytes.now)) }
{
    match CoseKey::read(alloc, bytes) {
        Ok(key) => Ok(Some(key)),
        Err(KeyFault::NotCbor(_)) => Ok(None),
        Err(KeyFault::Shape) => Ok(None),
        Err(KeyFault::NoMemory) => Err(NoMemory),
    }
}

/// The HSS key that a byte string wraps. None exactly where it wraps none.
fn read_key(alloc: Global, item: &Item) -> OrMemory<Option<HssPublic>>
    ensures { IfOk result (λ found. MatchOption found (IsBad item.now) (λ key. Wraps key item.now)) }
{
    let Some(bytes) = item.as_bytes() else {
        return Ok(None);
    };
    let Some(key) = read_cose_key(alloc, bytes)? else {
        return Ok(None);
    };
    Ok(HssPublic::read(key.public.as_slice()))
}

/// The HSS keys that byte strings wrap, in their order. `BadKey` names the first that wraps none.
pub fn read_keys(alloc: Global, items: &[Item], role: Role) -> Result<List<HssPublic>, AnchorFault>
    ensures { KeysReadAs role items.now result }
{
    let mut keys = List::new(alloc);
    for (at, item) in items.iter().enumerate() {
        let Some(key) = read_key(alloc, item)? else {
            return Err(AnchorFault::BadKey(role, at));
        };
        keys.push(key)?;
    }
    Ok(keys)
}
