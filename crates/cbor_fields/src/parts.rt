ghost use Rattle.std.specs.Prelude.{◌≡◌};
ghost use Rattle.cbor_core.specs.Views.{bytes_of, map_of};

use base_types::{List, Octets};
use cbor_core::{Item, Pair};

/// The bytes of a byte string, moved. None exactly for another item.
pub fn into_bytes(item: Item) -> Option<Octets>
    ensures { result ≡ bytes_of item }
{
    match item {
        Item::Bytes(bytes) => Some(bytes),
        _ => None,
    }
}

/// The pairs of a map, moved. None exactly for another item.
pub fn into_map(item: Item) -> Option<List<Pair>>
    ensures { result ≡ map_of item }
{
    match item {
        Item::Map(pairs) => Some(pairs),
        _ => None,
    }
}
