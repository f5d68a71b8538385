ghost use Rattle.std.specs.Prelude.{◌≡◌};
ghost use Rattle.cbor_fields.specs.Views.{all_bytes, is_id, id_of};
ghost use Rattle.cbor_fields.specs.Written.{decoded};

use crate::fault::FormFault;
use crate::form::Form;
use base_types::{NoMemory, Octets, OrMemory};
use cbor_core::{CborFault, Item, decode_whole, encode};
use std::alloc::Global;

/// An identifier, an array of one or more byte strings, as its encoding.
pub struct Id;

impl Form<Octets> for Id {
    ghost view = { id_of };

    ghost written = { decoded };

    #[tactic(auto, using(crate::proofs::Ids::ids))]
    fn read(alloc: Global, item: &Item) -> Result<Octets, FormFault> {
        if is_identifier(item) {
            Ok(encode(alloc, item)?)
        } else {
            Err(FormFault::Shape)
        }
    }

    // Bytes that spell no item are no identifier's, and are written as null.
    fn write(alloc: Global, value: &Octets) -> OrMemory<Item> {
        match decode_whole(alloc, value.as_slice()) {
            Ok(item) => Ok(item),
            Err(CborFault::Bad(_)) => Ok(Item::Null),
            Err(CborFault::NoMemory) => Err(NoMemory),
        }
    }
}

/// Whether an item is an array of one or more byte strings.
fn is_identifier(item: &Item) -> bool
    ensures { result ≡ is_id item.now }
{
    match item {
        Item::Array(members) => !members.is_empty() && are_byte_strings(members.as_slice()),
        _ => false,
    }
}

/// Whether each item is a byte string.
fn are_byte_strings(items: &[Item]) -> bool
    ensures { result ≡ all_bytes items.now }
{
    for item in items {
        if item.as_bytes().is_none() {
            return false;
        }
    }
    true
}
