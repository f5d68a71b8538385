ghost use Rattle.std.specs.Prelude.{◌≡◌, IfOk, map};
ghost use Rattle.trust_anchors.specs.Anchors.{Wraps, wrapped_key};
ghost use Rattle.std.specs.List.{AllZip};

use base_types::{List, Octets, OrMemory};
use cbor_core::Item;
use cose_core::CoseKey;
use hss_verify::HssPublic;
use std::alloc::Global;

/// A key without an identifier, wrapped in a byte string.
fn write_key(alloc: Global, key: &HssPublic) -> OrMemory<Item>
    ensures value { IfOk result (λ x. x ≡ wrapped_key key.now) }
    ensures again { IfOk result (Wraps key.now) }
{
    let public = Octets::from_slice(alloc, &key.bytes())?;
    let bytes = CoseKey { kid: None, public }.write(alloc)?;
    Ok(Item::Bytes(bytes))
}

/// Keys, each wrapped in a byte string, in their order.
pub fn write_keys(alloc: Global, keys: &[HssPublic]) -> OrMemory<List<Item>>
    ensures value { IfOk result (λ xs. xs ≡ map wrapped_key keys.now) }
    ensures again { IfOk result (AllZip Wraps keys.now) }
{
    let mut items = List::new(alloc);
    for key in keys {
        items.push(write_key(alloc, key)?)?;
    }
    Ok(items)
}
