ghost use Rattle.std.specs.Prelude.{◌≡◌};
ghost use Rattle.cbor_core.specs.declared.item.Item.{out-Item};
ghost use Rattle.item_codec.specs.Answers.{Answers};
ghost use Rattle.suit_commands.specs.Parameters.{parameters_in, parameters_of, unknown_by};

use crate::digest_forms::WrappedDigest;
use crate::fault::SequenceFault;
use crate::labels::{CLASS, CONTENT, DEVICE, IMAGE_DIGEST, IMAGE_SIZE, SOURCE, URI, VENDOR};
use crate::parameters::Parameters;
use cbor_core::{Item, Pair};
use cbor_fields::{ByteString, TextString, Unsigned};
use item_codec::take_field;
use std::alloc::Global;

/// The refusal of a key that is not in the table, or not in its place.
fn unknown(key: &Item) -> SequenceFault
    ensures { result ≡ unknown_by (out-Item key.now) }
{
    match key {
        Item::Unsigned(label) => SequenceFault::Parameter(*label),
        _ => SequenceFault::Shape,
    }
}

/// The parameters of a map's pairs.
fn read_pairs(alloc: Global, pairs: &[Pair]) -> Result<Parameters, SequenceFault>
    ensures { Answers SequenceFault.NoMemory (parameters_in pairs.now) result }
{
    let shape = SequenceFault::Shape;
    let (vendor, pairs) = take_field::<_, _, ByteString>(alloc, pairs, VENDOR, shape)?;
    let (class, pairs) = take_field::<_, _, ByteString>(alloc, pairs, CLASS, shape)?;
    let (image_digest, pairs) = take_field::<_, _, WrappedDigest>(
        alloc,
        pairs,
        IMAGE_DIGEST,
        shape,
    )?;
    let (image_size, pairs) = take_field::<_, _, Unsigned>(alloc, pairs, IMAGE_SIZE, shape)?;
    let (content, pairs) = take_field::<_, _, ByteString>(alloc, pairs, CONTENT, shape)?;
    let (uri, pairs) = take_field::<_, _, TextString>(alloc, pairs, URI, shape)?;
    let (source, pairs) = take_field::<_, _, Unsigned>(alloc, pairs, SOURCE, shape)?;
    let (device, pairs) = take_field::<_, _, ByteString>(alloc, pairs, DEVICE, shape)?;
    match pairs {
        [] => Ok(Parameters {
            vendor,
            class,
            image_digest,
            image_size,
            content,
            uri,
            source,
            device,
        }),
        [first, ..] => Err(unknown(&first.key)),
    }
}

/// The parameters of an item.
pub fn read_parameters(alloc: Global, item: &Item) -> Result<Parameters, SequenceFault>
    ensures { Answers SequenceFault.NoMemory (parameters_of item.now) result }
{
    match item.as_map() {
        Some(pairs) => read_pairs(alloc, pairs),
        None => Err(SequenceFault::Shape),
    }
}
