ghost use Rattle.cbor_core.specs.Views.{field};
ghost use Rattle.item_codec.specs.Answers.{Answers};
ghost use Rattle.item_codec.specs.Fields.{optional_at, shaped, sized};
ghost use Rattle.teep_messages.specs.Options.{options_in, options_of};

use crate::fault::MessageFault;
use crate::forms::{ReportedMap, RequestedMap};
use crate::labels::{
    CHALLENGE, ERR_MSG, EVIDENCE, EVIDENCE_FORMAT, LABELS, MANIFESTS, MSG, OPTIONS, REPORTED,
    REQUESTED, SELECTED, TOKEN, UNNEEDED, VERSIONS,
};
use crate::options::Options;
use base_types::{CHALLENGE_LEAST, CHALLENGE_LIMIT, Octets, TOKEN_LEAST, TOKEN_LIMIT};
use cbor_core::{Item, Pair};
use cbor_fields::{ByteString, Form, Id, ListOf, TextString, Unsigned, other_pairs};
use item_codec::{read_known, read_known_sized};
use std::alloc::Global;

/// The option under a label, where it is there, or `Shape` with the label.
fn read_option<V: Drop, F: Form<V>>(
    alloc: Global,
    pairs: &[Pair],
    label: u64,
) -> Result<Option<V>, MessageFault>
    ensures { Answers MessageFault.NoMemory (optional_at (shaped (MessageFault.Shape label) F.view) (field label pairs.now)) result }
{
    read_known::<V, MessageFault, F>(alloc, pairs, label, MessageFault::Shape { field: label })
}

/// The byte string under a label, where it is there, or `Shape` and then `Size` with the label.
fn read_sized(
    alloc: Global,
    pairs: &[Pair],
    label: u64,
    least: usize,
    most: usize,
) -> Result<Option<Octets>, MessageFault>
    ensures { Answers MessageFault.NoMemory (optional_at (sized least most (MessageFault.Shape label) (MessageFault.Size label)) (field label pairs.now)) result }
{
    let shape = MessageFault::Shape { field: label };
    read_known_sized(
        alloc,
        pairs,
        label,
        least,
        most,
        shape,
        MessageFault::Size { field: label },
    )
}

/// The options of a map's pairs.
fn read_pairs(alloc: Global, pairs: &[Pair]) -> Result<Options, MessageFault>
    ensures { Answers MessageFault.NoMemory (options_in pairs.now) result }
{
    let challenge = read_sized(alloc, pairs, CHALLENGE, CHALLENGE_LEAST, CHALLENGE_LIMIT)?;
    let versions = read_option::<_, ListOf<Unsigned>>(alloc, pairs, VERSIONS)?;
    let selected = read_option::<_, Unsigned>(alloc, pairs, SELECTED)?;
    let evidence = read_option::<_, ByteString>(alloc, pairs, EVIDENCE)?;
    let reported = read_option::<_, ListOf<ReportedMap>>(alloc, pairs, REPORTED)?;
    let manifests = read_option::<_, ListOf<ByteString>>(alloc, pairs, MANIFESTS)?;
    let msg = read_option::<_, TextString>(alloc, pairs, MSG)?;
    let err_msg = read_option::<_, TextString>(alloc, pairs, ERR_MSG)?;
    let evidence_format = read_option::<_, TextString>(alloc, pairs, EVIDENCE_FORMAT)?;
    let requested = read_option::<_, ListOf<RequestedMap>>(alloc, pairs, REQUESTED)?;
    let unneeded = read_option::<_, ListOf<Id>>(alloc, pairs, UNNEEDED)?;
    let token = read_sized(alloc, pairs, TOKEN, TOKEN_LEAST, TOKEN_LIMIT)?;
    let other = other_pairs(alloc, &LABELS, pairs)?;
    Ok(Options {
        challenge,
        versions,
        selected,
        evidence,
        reported,
        manifests,
        msg,
        err_msg,
        evidence_format,
        requested,
        unneeded,
        token,
        other,
    })
}

/// The options of an item, or `Shape` with 101 where it is no map.
pub fn read_options(alloc: Global, item: &Item) -> Result<Options, MessageFault>
    ensures { Answers MessageFault.NoMemory (options_of item.now) result }
{
    match item.as_map() {
        Some(pairs) => read_pairs(alloc, pairs),
        None => Err(MessageFault::Shape { field: OPTIONS }),
    }
}
