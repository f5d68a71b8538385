ghost use Rattle.cbor_core.specs.Views.{bytes_of};
ghost use Rattle.item_codec.specs.Answers.{Answers};
ghost use Rattle.item_codec.specs.Fields.{in_array, shaped};
ghost use Rattle.suit_envelope.specs.Each.{each_read};
ghost use Rattle.suit_envelope.specs.Wrapper.{wrapper_by, wrapper_in, wrapper_of};

use crate::envelope::Wrapper;
use crate::fault::EnvelopeFault;
use crate::labels::WRAPPER;
use base_types::{List, Octets};
use cbor_core::Item;
use cbor_fields::ByteString;
use item_codec::{read_part, unwrap_item};
use std::alloc::Global;
use suit_commands::WrappedDigest;

/// The wrapper that a byte string wraps.
pub fn read_wrapper(alloc: Global, item: &Item) -> Result<Wrapper, EnvelopeFault>
    ensures { Answers EnvelopeFault.NoMemory (wrapper_of item.now) result }
{
    let content = unwrap_item(alloc, item, EnvelopeFault::Shape { member: WRAPPER })?;
    read_array(alloc, &content)
}

/// The wrapper of an array.
fn read_array(alloc: Global, item: &Item) -> Result<Wrapper, EnvelopeFault>
    ensures { Answers EnvelopeFault.NoMemory (in_array (EnvelopeFault.Shape 2) wrapper_in item.now) result }
{
    match item.as_array() {
        Some(members) => read_members(alloc, members),
        None => Err(EnvelopeFault::Shape { member: WRAPPER }),
    }
}

/// The wrapper of an array's members.
fn read_members(alloc: Global, members: &[Item]) -> Result<Wrapper, EnvelopeFault>
    ensures { Answers EnvelopeFault.NoMemory (wrapper_in members.now) result }
{
    match members {
        [digest, blocks @ ..] => read_parts(alloc, digest, blocks),
        [] => Err(EnvelopeFault::Shape { member: WRAPPER }),
    }
}

/// The wrapper of a wrapped digest and of blocks.
fn read_parts(alloc: Global, digest: &Item, blocks: &[Item]) -> Result<Wrapper, EnvelopeFault>
    ensures { Answers EnvelopeFault.NoMemory (wrapper_by digest.now blocks.now) result }
{
    let shape = EnvelopeFault::Shape { member: WRAPPER };
    let value = read_part::<_, _, WrappedDigest>(alloc, digest, shape)?;
    let digest_bytes = read_part::<_, _, ByteString>(alloc, digest, shape)?;
    let blocks = read_blocks(alloc, blocks)?;
    Ok(Wrapper {
        digest: value,
        digest_bytes,
        blocks,
    })
}

/// The bytes of blocks.
fn read_blocks(alloc: Global, items: &[Item]) -> Result<List<Octets>, EnvelopeFault>
    ensures { Answers EnvelopeFault.NoMemory (each_read (shaped (EnvelopeFault.Shape 2) bytes_of) items.now) result }
{
    let mut blocks = List::new(alloc);
    for item in items {
        let shape = EnvelopeFault::Shape { member: WRAPPER };
        blocks.push(read_part::<_, _, ByteString>(alloc, item, shape)?)?;
    }
    Ok(blocks)
}
