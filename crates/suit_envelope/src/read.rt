ghost use Rattle.std.specs.Prelude.{◌≡◌, ◌⊎◌, ◌++◌, [], ◌∷◌, IfOk, OnOk, Ok, Err};
ghost use Rattle.std.specs.Option.{option_copied};
ghost use Rattle.cbor_core.specs.declared.item.Item.{out-Item};
ghost use Rattle.cbor_core.specs.Views.{bytes_of};
ghost use Rattle.item_codec.specs.Answers.{Answers, IsAnswer};
ghost use Rattle.item_codec.specs.Fields.{needed_at, in_map};
ghost use Rattle.item_codec.specs.Whole.{BytesAnswer};
ghost use Rattle.item_codec.specs.Wrapped.{wrapped};
ghost use Rattle.suit_envelope.specs.declared.envelope.Envelope.{Envelope};
ghost use Rattle.suit_envelope.specs.declared.fault.EnvelopeFault.{EnvelopeFault};
ghost use Rattle.suit_envelope.specs.Wrapper.{wrapper_of};
ghost use Rattle.suit_envelope.specs.Manifests.{manifest_of};
ghost use Rattle.suit_envelope.specs.Envelopes.{EnvelopeIs, RefusedAs, attached_in, attached_of, kept_of, before, content_of, envelope_in, envelope_of};
ghost use Rattle.suit_envelope.specs.Envelopes as Envelopes;

use crate::envelope::{Attached, Envelope, Wrapper};
use crate::fault::EnvelopeFault;
use crate::labels::{ENVELOPE_TAG, MANIFEST, WHOLE_FAULT, WRAPPER};
use crate::manifest::Manifest;
use crate::read_manifest::read_manifest;
use crate::wrapper::read_wrapper;
use base_types::{List, Octets, OrMemory, Utf8};
use cbor_core::{CborFault, Item, Pair, decode_whole, field};
use cbor_fields::{ByteString, into_bytes, into_map};
use item_codec::read_required;
use std::alloc::Global;

impl Envelope {
    /// Reads an envelope from its bytes, with the tag 107 or without.
    ///
    /// A refusal is the first in this order. `Cbor` where the bytes spell no item (RFC 8949, section
    /// 4.2.1). `Shape` of 0 where the item is no map. `Shape` of 2 for the wrapper: it is missing, no
    /// byte string, or its bytes spell no array of a wrapped digest and byte strings. `Shape` of 3
    /// where the manifest is missing, no byte string, or its bytes spell no map with the version 1.
    /// `Shape` of 12 where it has no sequence number. `Shape` of 13 for its common part: it is
    /// missing, not wrapped, or no map; its components are not 1 to 16 identifiers of at most 128
    /// encoded bytes, or two are the same; its shared sequence is no byte string. `Shape` of 15 where
    /// the manifest has no identifier, or one of more than 128 encoded bytes. `NoMemory` where no
    /// memory is left.
    ///
    /// The work is linear in the bytes, and an attached payload is copied once. The size of a payload
    /// is not looked at, and neither are the sequences.
    pub fn read(alloc: Global, bytes: &[u8]) -> Result<Envelope, EnvelopeFault>
        // The bytes are the envelope that is read.
        ensures found { IfOk result (λ envelope. EnvelopeIs envelope bytes.now) }
        // The envelope that the bytes are is read, unless memory runs out.
        ensures only { (envelope : Envelope) → EnvelopeIs envelope bytes.now → IsAnswer EnvelopeFault.NoMemory result (Ok envelope) }
        // A refusal but NoMemory is the one that comes first.
        ensures bad { (fault : EnvelopeFault) → result ≡ Err fault → (fault ≡ EnvelopeFault.NoMemory) ⊎ RefusedAs bytes.now fault }
        // The refusal that comes first is the answer, unless memory runs out.
        ensures refused { (fault : EnvelopeFault) → RefusedAs bytes.now fault → IsAnswer EnvelopeFault.NoMemory result (Err fault) }
    {
        read_bytes(alloc, bytes)
    }
}

/// The envelope that bytes are.
fn read_bytes(alloc: Global, bytes: &[u8]) -> Result<Envelope, EnvelopeFault>
    ensures { BytesAnswer EnvelopeFault.NoMemory (λ f. EnvelopeFault.Cbor f) envelope_of bytes.now result }
{
    match decode_whole(alloc, bytes) {
        Ok(item) => read_item(alloc, item),
        Err(CborFault::Bad(fault)) => Err(EnvelopeFault::Cbor(fault)),
        Err(CborFault::NoMemory) => Err(EnvelopeFault::NoMemory),
    }
}

/// An item without the tag of an envelope, where it has it.
fn content(item: Item) -> Item
    ensures { result ≡ content_of item }
{
    match item {
        Item::Tag(n, content) => {
            if n == ENVELOPE_TAG {
                content.into_inner()
            } else {
                Item::Tag(n, content)
            }
        }
        other => other,
    }
}

/// The envelope of an item.
#[tactic(auto, unfolding(crate::specs::Envelopes::envelope_of))]
fn read_item(alloc: Global, item: Item) -> Result<Envelope, EnvelopeFault>
    ensures { Answers EnvelopeFault.NoMemory (envelope_of item) result }
{
    match into_map(content(item)) {
        Some(pairs) => read_pairs(alloc, pairs),
        None => Err(EnvelopeFault::Shape {
            member: WHOLE_FAULT,
        }),
    }
}

/// The wrapper, which must be there.
fn read_needed_wrapper(alloc: Global, item: Option<&Item>) -> Result<Wrapper, EnvelopeFault>
    ensures { Answers EnvelopeFault.NoMemory (needed_at wrapper_of (EnvelopeFault.Shape 2) (option_copied item.entry)) result }
{
    match item {
        Some(item) => read_wrapper(alloc, item),
        None => Err(EnvelopeFault::Shape { member: WRAPPER }),
    }
}

/// The manifest, which must be there.
fn read_needed_manifest(alloc: Global, item: Option<&Item>) -> Result<Manifest, EnvelopeFault>
    ensures { Answers EnvelopeFault.NoMemory (needed_at (wrapped (EnvelopeFault.Shape 3) manifest_of) (EnvelopeFault.Shape 3) (option_copied item.entry)) result }
{
    match item {
        Some(item) => read_manifest(alloc, item),
        None => Err(EnvelopeFault::Shape { member: MANIFEST }),
    }
}

/// The envelope of a map's pairs.
fn read_pairs(alloc: Global, pairs: List<Pair>) -> Result<Envelope, EnvelopeFault>
    ensures { Answers EnvelopeFault.NoMemory (envelope_in pairs) result }
{
    let fault = EnvelopeFault::Shape { member: MANIFEST };
    let wrapper = read_needed_wrapper(alloc, field(pairs.as_slice(), WRAPPER))?;
    let manifest = read_needed_manifest(alloc, field(pairs.as_slice(), MANIFEST))?;
    let manifest_bytes = read_required::<_, _, ByteString>(
        alloc,
        field(pairs.as_slice(), MANIFEST),
        fault,
        fault,
    )?;
    let (attached, other) = parted(alloc, pairs)?;
    Ok(Envelope {
        digest: wrapper.digest,
        digest_bytes: wrapper.digest_bytes,
        blocks: wrapper.blocks,
        manifest_bytes,
        manifest,
        attached,
        other,
    })
}

/// Whether a text begins with `#`.
fn is_marked(text: &str) -> bool
    ensures { result ≡ Envelopes.is_marked text.now }
{
    match text.as_bytes() {
        [first, ..] => *first == b'#',
        [] => false,
    }
}

/// Whether a pair attaches a payload.
fn is_attached(pair: &Pair) -> bool
    ensures { result ≡ Envelopes.is_attached pair.now }
{
    match (&pair.key, &pair.value) {
        (Item::Text(name), Item::Bytes(_)) => is_marked(name.as_str()),
        _ => false,
    }
}

/// The payload of a pair that attaches one, moved.
fn into_attached(pair: Pair) -> Option<Attached>
    ensures { result ≡ attached_in pair }
{
    let Pair { key, value } = pair;
    match key {
        Item::Text(name) => match value {
            Item::Bytes(bytes) => marked(name, bytes),
            _ => None,
        },
        _ => None,
    }
}

/// The payload under a name, where the name begins with `#`.
fn marked(name: Utf8, bytes: Octets) -> Option<Attached>
    ensures { result ≡ Envelopes.marked name bytes }
{
    if is_marked(name.as_str()) {
        Some(Attached { name, bytes })
    } else {
        None
    }
}

/// Whether a pair is kept as it is.
fn is_kept(pair: &Pair) -> bool
    ensures { result ≡ Envelopes.is_kept pair.now }
{
    match &pair.key {
        Item::Unsigned(WRAPPER | MANIFEST) => false,
        _ => !is_attached(pair),
    }
}

/// Puts a pair behind the payloads that are attached, behind the pairs that are kept, or nowhere.
fn put_part(pair: Pair, attached: &mut List<Attached>, kept: &mut List<Pair>) -> OrMemory<()>
    ensures attached { OnOk result (attached.new ≡ attached.old ++ before (attached_in pair) []) }
    ensures kept { OnOk result (kept.new ≡ kept.old ++ kept_of (pair ∷ [])) }
{
    if is_kept(&pair) {
        kept.push(pair)?;
        return Ok(());
    }
    match into_attached(pair) {
        Some(payload) => attached.push(payload),
        None => Ok(()),
    }
}

/// The payloads that pairs attach, and the pairs that are kept beside them, moved.
fn parted(alloc: Global, pairs: List<Pair>) -> OrMemory<(List<Attached>, List<Pair>)>
    ensures { IfOk result (λ parts. (parts.0 ≡ attached_of pairs) × (parts.1 ≡ kept_of pairs)) }
{
    let mut attached = List::new(alloc);
    let mut kept = List::new(alloc);
    for pair in pairs.into_vec() {
        put_part(pair, &mut attached, &mut kept)?;
    }
    Ok((attached, kept))
}
