ghost use Rattle.std.specs.Prelude.{◌≡◌, IfOk};
ghost use Rattle.suit_commands.specs.Parameters.{rows, parameters_item};

use crate::digest_forms::WrappedDigest;
use crate::labels::{CLASS, CONTENT, DEVICE, IMAGE_DIGEST, IMAGE_SIZE, SOURCE, URI, VENDOR};
use crate::parameters::Parameters;
use base_types::{List, OrMemory};
use cbor_core::{Item, Pair};
use cbor_fields::{ByteString, TextString, Unsigned};
use item_codec::put_row;
use std::alloc::Global;

/// The pairs of parameters, put from the last to the first.
fn write_pairs(alloc: Global, parameters: &Parameters) -> OrMemory<List<Pair>>
    ensures { IfOk result (λ ps. ps ≡ rows parameters.now) }
{
    let pairs = List::new(alloc);
    let pairs = put_row::<_, ByteString>(alloc, pairs, DEVICE, &parameters.device)?;
    let pairs = put_row::<_, Unsigned>(alloc, pairs, SOURCE, &parameters.source)?;
    let pairs = put_row::<_, TextString>(alloc, pairs, URI, &parameters.uri)?;
    let pairs = put_row::<_, ByteString>(alloc, pairs, CONTENT, &parameters.content)?;
    let pairs = put_row::<_, Unsigned>(alloc, pairs, IMAGE_SIZE, &parameters.image_size)?;
    let pairs = put_row::<_, WrappedDigest>(alloc, pairs, IMAGE_DIGEST, &parameters.image_digest)?;
    let pairs = put_row::<_, ByteString>(alloc, pairs, CLASS, &parameters.class)?;
    put_row::<_, ByteString>(alloc, pairs, VENDOR, &parameters.vendor)
}

/// The map of parameters.
pub fn write_parameters(alloc: Global, parameters: &Parameters) -> OrMemory<Item>
    ensures { IfOk result (λ x. x ≡ parameters_item parameters.now) }
{
    Ok(Item::Map(write_pairs(alloc, parameters)?))
}
