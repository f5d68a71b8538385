ghost use Rattle.item_codec.specs.Answers.{Answers};
ghost use Rattle.item_codec.specs.Wrapped.{unwrapped};

use crate::refusal::Refusal;
use cbor_core::{CborFault, Item, decode_whole};
use std::alloc::Global;

/// The item whose encoding a byte string holds. `fault` exactly where the item is no byte string, or
/// its bytes spell no item.
pub fn unwrap_item<E: Refusal>(alloc: Global, item: &Item, fault: E) -> Result<Item, E>
    ensures found { Answers E.no_memory (unwrapped fault item.now) result }
{
    let Some(bytes) = item.as_bytes() else {
        return Err(fault);
    };
    match decode_whole(alloc, bytes) {
        Ok(content) => Ok(content),
        Err(CborFault::Bad(_)) => Err(fault),
        Err(CborFault::NoMemory) => Err(E::out_of_memory()),
    }
}
