ghost use Rattle.std.specs.Prelude.{◌≡◌, ◌↔◌, ◌∷◌, ◌++◌, ◌≤◌, ℕ, List, [], length, map, IsTrue, OnOk, IfOk};
ghost use Rattle.std.specs.List.{prefix_len, AllByRecursion};
ghost use Rattle.cbor_core.specs.declared.item.Item.TheVariants as i;
ghost use Rattle.cbor_core.specs.Spelling.{IsProper, Spells, bytes_below, spelling};
ghost use Rattle.suit_envelope.specs.Envelopes.{EnvelopeIs};
ghost use Rattle.suit_envelope.specs.Written.{attached_pair, key_bytes, merged, tagged, wrapper_item};
ghost use Rattle.suit_envelope.specs.Proper.{IsProperEnvelope, IsTaggedForm};

use crate::envelope::{Attached, Envelope};
use crate::labels::{ENVELOPE_TAG, MANIFEST, WRAPPER};
use base_types::{Boxed, List, Octets, OrMemory};
use cbor_core::{Item, Pair, encode, is_proper};
use cbor_fields::{ByteString, put_needed};
use cbor_heads::Writer;
use std::alloc::Global;
use std::cmp::Ordering;

impl Envelope {
    /// The bytes of the envelope, with the tag 107. The item of the tagged form is proper, as it is of
    /// each envelope for which `is_writable` says yes. A payload is copied twice. Refused for want of
    /// memory alone.
    pub fn write(&self, alloc: Global) -> OrMemory<Octets>
        requires { IsProper (tagged self.now) }
        // The bytes spell the tagged form.
        ensures spelled { IfOk result (λ bytes. Spells (tagged self.now) bytes) }
        // They are read as this value, where it is proper.
        ensures again { IfOk result (λ bytes. IsProperEnvelope self.now → EnvelopeIs self.now bytes) }
        // Of what was read, they are the bytes that it was read from, in their tagged form.
        ensures form { IfOk result (λ written. (bytes : List ℕ) → EnvelopeIs self.now bytes → IsTaggedForm bytes written) }
    {
        let item = self.to_item(alloc)?;
        encode(alloc, &item)
    }

    /// Whether the envelope may be written: whether the item of its tagged form is proper. Its keys
    /// ascend, and the tag is no seventeenth container, which it may be of an envelope that was read
    /// without. It takes memory for a copy of the envelope, and is refused for want of it alone.
    pub fn is_writable(&self, alloc: Global) -> OrMemory<bool>
        ensures { IfOk result (λ b. IsTrue b ↔ IsProper (tagged self.now)) }
    {
        if !has_proper_keys(alloc, self.other.as_slice())? {
            return Ok(false);
        }
        let item = self.to_item(alloc)?;
        is_proper(alloc, &item)
    }

    /// The item of the tagged form.
    fn to_item(&self, alloc: Global) -> OrMemory<Item>
        requires { AllByRecursion (λ p. IsProper p.key) self.now.other }
        ensures is { IfOk result (λ x. x ≡ tagged self.now) }
        ensures wrapper { IfOk result (λ x. Spells (wrapper_item self.now) (spelling (wrapper_item self.now))) }
    {
        let pairs = merge(alloc, self.attached.as_slice(), self.other.as_slice())?;
        let wrapper = self.wrapper(alloc)?;
        let pairs = put_needed::<_, ByteString>(alloc, pairs, WRAPPER, &wrapper)?;
        let pairs = put_needed::<_, ByteString>(alloc, pairs, MANIFEST, &self.manifest_bytes)?;
        Ok(Item::Tag(ENVELOPE_TAG, Boxed::new(alloc, Item::Map(pairs))?))
    }

    /// The encoding of the wrapper.
    fn wrapper(&self, alloc: Global) -> OrMemory<Octets>
        ensures { IfOk result (λ bytes. Spells (wrapper_item self.now) bytes) }
    {
        let members = self.wrapper_members(alloc)?;
        encode(alloc, &Item::Array(members))
    }

    /// The byte strings of the digest and the blocks.
    fn wrapper_members(&self, alloc: Global) -> OrMemory<List<Item>>
        ensures { IfOk result (λ xs. xs ≡ i.Bytes self.now.digest_bytes ∷ map (λ block. i.Bytes block) self.now.blocks) }
    {
        let mut members = List::new(alloc);
        members.push(Item::Bytes(self.digest_bytes.try_clone(alloc)?))?;
        for block in self.blocks.as_slice() {
            members.push(Item::Bytes(block.try_clone(alloc)?))?;
        }
        Ok(members)
    }
}

/// Whether each key is proper.
fn has_proper_keys(alloc: Global, pairs: &[Pair]) -> OrMemory<bool>
    ensures { IfOk result (λ b. IsTrue b ↔ AllByRecursion (λ p. IsProper p.key) pairs.now) }
{
    for pair in pairs {
        if !is_proper(alloc, &pair.key)? {
            return Ok(false);
        }
    }
    Ok(true)
}

/// The encodings of the keys of pairs.
fn encoded_keys(alloc: Global, pairs: &[Pair]) -> OrMemory<List<Octets>>
    requires { AllByRecursion (λ p. IsProper p.key) pairs.now }
    ensures { IfOk result (λ keys. keys ≡ map key_bytes pairs.now) }
{
    let mut keys = List::new(alloc);
    for pair in pairs {
        keys.push(encode(alloc, &pair.key)?)?;
    }
    Ok(keys)
}

/// The encoding of a name.
fn encoded_name(alloc: Global, name: &str) -> OrMemory<Octets>
    ensures { IfOk result (λ bytes. bytes ≡ spelling (i.Text name.now)) }
{
    let mut out = Writer::new(alloc);
    out.text(name)?;
    Ok(out.into_octets())
}

/// How many of the first keys are below the name.
fn place_of(name: &Octets, keys: &[Octets]) -> usize
    ensures place { result ≡ prefix_len (λ key. bytes_below key name.now) keys.now }
    ensures within { result ≤ length keys.now }
{
    for (place, key) in keys.iter().enumerate() {
        if key.cmp(name) != Ordering::Less {
            return place;
        }
    }
    keys.len()
}

/// Puts copies of pairs behind others.
fn put_copies(alloc: Global, pairs: &mut List<Pair>, others: &[Pair]) -> OrMemory<()>
    ensures { OnOk result (pairs.new ≡ pairs.old ++ others.now) }
{
    for pair in others {
        pairs.push(pair.try_clone(alloc)?)?;
    }
    Ok(())
}

/// Puts copies of pairs and then an attached payload behind others.
fn put_attached(
    alloc: Global,
    pairs: &mut List<Pair>,
    before: &[Pair],
    payload: &Attached,
) -> OrMemory<()>
    ensures { OnOk result (pairs.new ≡ pairs.old ++ (before.now ++ attached_pair payload.now ∷ [])) }
{
    put_copies(alloc, pairs, before)?;
    let key = Item::Text(payload.name.try_clone(alloc)?);
    let value = Item::Bytes(payload.bytes.try_clone(alloc)?);
    pairs.push(Pair { key, value })
}

/// The attached payloads in their places among the pairs that are kept.
fn merge(alloc: Global, attached: &[Attached], other: &[Pair]) -> OrMemory<List<Pair>>
    requires { AllByRecursion (λ p. IsProper p.key) other.now }
    ensures { IfOk result (λ ps. ps ≡ merged attached.now other.now) }
{
    let keys = encoded_keys(alloc, other)?;
    let mut pairs = List::new(alloc);
    let mut rest = other;
    let mut rest_keys = keys.as_slice();
    for payload in attached {
        let name = encoded_name(alloc, payload.name.as_str())?;
        let place = place_of(&name, rest_keys);
        let (before, behind) = rest.split_at(place);
        put_attached(alloc, &mut pairs, before, payload)?;
        rest = behind;
        rest_keys = rest_keys.split_at(place).1;
    }
    put_copies(alloc, &mut pairs, rest)?;
    Ok(pairs)
}
