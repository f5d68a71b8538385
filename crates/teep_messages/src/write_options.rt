ghost use Rattle.std.specs.Prelude.{◌≡◌, IfOk};
ghost use Rattle.teep_messages.specs.Written.{option_pairs, options_item};

use crate::forms::{ReportedMap, RequestedMap};
use crate::labels::{
    CHALLENGE, ERR_MSG, EVIDENCE, EVIDENCE_FORMAT, MANIFESTS, MSG, REPORTED, REQUESTED, SELECTED,
    TOKEN, UNNEEDED, VERSIONS,
};
use crate::options::Options;
use base_types::{List, OrMemory};
use cbor_core::{Item, Pair, copy_pairs};
use cbor_fields::{ByteString, Id, ListOf, TextString, Unsigned, put_field};
use std::alloc::Global;

/// The pairs of a map of options: those that are kept, and each known one in its place among them.
fn write_pairs(alloc: Global, options: &Options) -> OrMemory<List<Pair>>
    ensures { IfOk result (λ ps. ps ≡ option_pairs options.now) }
{
    let pairs = copy_pairs(alloc, options.other.as_slice())?;
    let pairs = put_field::<_, ByteString>(alloc, pairs, CHALLENGE, &options.challenge)?;
    let pairs = put_field::<_, ListOf<Unsigned>>(alloc, pairs, VERSIONS, &options.versions)?;
    let pairs = put_field::<_, Unsigned>(alloc, pairs, SELECTED, &options.selected)?;
    let pairs = put_field::<_, ByteString>(alloc, pairs, EVIDENCE, &options.evidence)?;
    let pairs = put_field::<_, ListOf<ReportedMap>>(alloc, pairs, REPORTED, &options.reported)?;
    let pairs = put_field::<_, ListOf<ByteString>>(alloc, pairs, MANIFESTS, &options.manifests)?;
    let pairs = put_field::<_, TextString>(alloc, pairs, MSG, &options.msg)?;
    let pairs = put_field::<_, TextString>(alloc, pairs, ERR_MSG, &options.err_msg)?;
    let pairs = put_field::<_, TextString>(
        alloc,
        pairs,
        EVIDENCE_FORMAT,
        &options.evidence_format,
    )?;
    let pairs = put_field::<_, ListOf<RequestedMap>>(alloc, pairs, REQUESTED, &options.requested)?;
    let pairs = put_field::<_, ListOf<Id>>(alloc, pairs, UNNEEDED, &options.unneeded)?;
    put_field::<_, ByteString>(alloc, pairs, TOKEN, &options.token)
}

/// The map of options.
pub fn write_options(alloc: Global, options: &Options) -> OrMemory<Item>
    ensures { IfOk result (λ x. x ≡ options_item options.now) }
{
    Ok(Item::Map(write_pairs(alloc, options)?))
}
