ghost use Rattle.std.specs.Prelude.{◌≡◌, ◌⊎◌, ◌↔◌, ◌++◌, IsTrue, IfOk, IfErr, OnOk, option_map};
ghost use Rattle.cbor_core.specs.Spelling.{spelling, IsProper, HasRangesWithin, Spells};
ghost use Rattle.cose_core.specs.Reading.{content_of, payload_of, four_by, members_by, form_of, ReadAs};
ghost use Rattle.cose_core.specs.Sign1 as Sign1s;

use crate::fault::CoseFault;
use crate::headers::{are_good, check_protected};
use crate::labels::{HEADER_KID, SIGN1_TAG};
use base_types::{Boxed, List, Octets, OrMemory};
use cbor_core::{Item, Pair, copy_pairs, decode_whole, encode, field, is_proper};
use cbor_fields::{into_bytes, into_map};
use cbor_heads::Writer;
use std::alloc::Global;

/// A message with one signature: COSE_Sign1 (RFC 9052, section 4.2).
///
/// All headers are kept as they came. `payload` is None where the message has null, which says that
/// the payload travels elsewhere.
#[derive(Debug, Drop, Eq, PartialEq)]
pub struct Sign1 {
    /// The protected headers as they are signed: no bytes, or the encoding of a map.
    pub protected: Octets,
    /// The headers that are not signed.
    pub unprotected: List<Pair>,
    /// What is signed, or None where it is not here.
    pub payload: Option<Octets>,
    /// The signature.
    pub signature: Octets,
}

/// A payload, moved: bytes, or null for none.
fn into_payload(item: Item) -> Option<Option<Octets>>
    ensures { result ≡ payload_of item }
{
    match item {
        Item::Bytes(bytes) => Some(Some(bytes)),
        Item::Null => Some(None),
        _ => None,
    }
}

/// An item without the tag of a COSE_Sign1, where it has it.
fn content(item: Item) -> Item
    ensures { result ≡ content_of item }
{
    match item {
        Item::Tag(n, content) => {
            if n == SIGN1_TAG {
                content.into_inner()
            } else {
                Item::Tag(n, content)
            }
        }
        other => other,
    }
}

/// The four members of a COSE_Sign1, moved.
fn members(mut members: List<Item>) -> Option<Sign1>
    ensures { result ≡ members_by members }
{
    if members.len() != 4 {
        return None;
    }
    let signature = members.pop()?;
    let payload = members.pop()?;
    let unprotected = members.pop()?;
    let protected = members.pop()?;
    four(protected, unprotected, payload, signature)
}

/// A COSE_Sign1 of its members.
fn four(protected: Item, unprotected: Item, payload: Item, signature: Item) -> Option<Sign1>
    ensures { result ≡ four_by protected unprotected payload signature }
{
    let signature = into_bytes(signature)?;
    let payload = into_payload(payload)?;
    let unprotected = into_map(unprotected)?;
    let protected = into_bytes(protected)?;
    Some(Sign1 {
        protected,
        unprotected,
        payload,
        signature,
    })
}

/// What stands in an item, with the tag or without.
fn form(item: Item) -> Option<Sign1>
    ensures { result ≡ form_of item }
{
    match content(item) {
        Item::Array(list) => members(list),
        _ => None,
    }
}

/// Reads a COSE_Sign1 that is an item already.
fn read_item(alloc: Global, item: Item) -> Result<Sign1, CoseFault>
    ensures { ReadAs item result }
{
    let Some(value) = form(item) else {
        return Err(CoseFault::Shape);
    };
    check_protected(alloc, value.protected.as_slice())?;
    Ok(value)
}

impl Sign1 {
    ghost use Rattle.cose_core.specs.Headers.{kid_of};
    ghost use Rattle.cose_core.specs.Sign1.{Sign1Is, RefusedAs, IsFound, IsRefused, IsProperSign1, IsTaggedForm, untagged, tagged};

    /// Reads the COSE_Sign1 that all the bytes spell, with the tag 18 or without (RFC 9052, section
    /// 4.2).
    ///
    /// `NotCose` where they spell no item, with the first fault. `Shape` where the item is not
    /// `[protected, unprotected, payload, signature]`: a byte string that is empty or wraps one map, a
    /// map, a byte string or null, and a byte string. `WrongAlg` where the protected map has not
    /// `1: -46`. `Critical` where it has 2. The first that holds is told. `NoMemory` may come for any
    /// bytes.
    pub fn read(alloc: Global, bytes: &[u8]) -> Result<Sign1, CoseFault>
        // What is found is what the bytes are.
        ensures found { IfOk result (λ v. Sign1Is v bytes.now) }
        // What the bytes are is found, unless memory runs out.
        ensures only { (v : Sign1) → Sign1Is v bytes.now → IsFound result v }
        // A refusal has its cause in the bytes, or memory ran out.
        ensures bad { IfErr result (λ e. (e ≡ CoseFault.NoMemory) ⊎ RefusedAs bytes.now e) }
        // What the bytes are refused for is the answer, unless memory runs out.
        ensures refused { (e : CoseFault) → RefusedAs bytes.now e → IsRefused result e }
    {
        let item = decode_whole(alloc, bytes)?;
        read_item(alloc, item)
    }

    /// The key identifier: the byte string at label 4 of the unprotected headers (RFC 9052, section
    /// 3.1). None exactly where nothing or no byte string is there.
    pub fn kid(&self) -> Option<&[u8]>
        ensures { option_map (λ x. x.now) result ≡ kid_of self.now.unprotected }
    {
        field(self.unprotected.as_slice(), HEADER_KID)?.as_bytes()
    }

    /// The members as an item, with the tag.
    fn to_item(&self, alloc: Global) -> OrMemory<Item>
        ensures { IfOk result (λ x. x ≡ tagged self.now) }
    {
        let mut members = List::new(alloc);
        members.push(Item::Bytes(self.protected.try_clone(alloc)?))?;
        members.push(Item::Map(copy_pairs(alloc, self.unprotected.as_slice())?))?;
        members.push(payload_item(alloc, &self.payload)?)?;
        members.push(Item::Bytes(self.signature.try_clone(alloc)?))?;
        Ok(Item::Tag(SIGN1_TAG, Boxed::new(alloc, Item::Array(members))?))
    }

    /// Whether the value is proper: its tagged form is, whose keys ascend and whose tag is no
    /// seventeenth container, and its protected bytes wrap headers with `1: -46` and without 2. It takes
    /// memory for one encoding and for those headers, and is refused for want of it alone.
    pub fn is_proper(&self, alloc: Global) -> OrMemory<bool>
        ensures { IfOk result (λ b. IsTrue b ↔ IsProperSign1 self.now) }
    {
        if !are_good(alloc, self.protected.as_slice())? {
            return Ok(false);
        }
        let item = self.to_item(alloc)?;
        is_proper(alloc, &item)
    }

    /// The tagged form of a value (RFC 9052, section 4.2): tag 18 and the four members. Its item is
    /// proper, as it is of each value for which `is_proper` says yes. The payload is copied once. Refused
    /// for want of memory alone.
    pub fn write(&self, alloc: Global) -> OrMemory<Octets>
        requires { IsProper (tagged self.now) }
        // The bytes spell the tagged form.
        ensures spelled { IfOk result (λ bytes. Spells (tagged self.now) bytes) }
        // They are read as this value, where it is proper.
        ensures again { IfOk result (λ bytes. IsProperSign1 self.now → Sign1Is self.now bytes) }
        // Of what was read, they are the bytes that it was read from, in their tagged form.
        ensures form { IfOk result (λ bytes. IsTaggedForm self.now bytes) }
    {
        let headers = self.headers(alloc)?;
        let mut out = Writer::new(alloc);
        out.tag(SIGN1_TAG)?;
        out.array(4)?;
        out.bytes(self.protected.as_slice())?;
        out.piece(headers.as_slice())?;
        put_payload(&mut out, &self.payload)?;
        out.bytes(self.signature.as_slice())?;
        Ok(out.into_octets())
    }

    /// The headers that are not signed, encoded.
    fn headers(&self, alloc: Global) -> OrMemory<Octets>
        requires { IsProper (Item.Map self.now.unprotected) }
        ensures { IfOk result (λ bytes. Spells (Item.Map self.now.unprotected) bytes) }
    {
        let headers = Item::Map(copy_pairs(alloc, self.unprotected.as_slice())?);
        encode(alloc, &headers)
    }
}

/// Writes a payload: null for none.
fn put_payload(out: &mut Writer, payload: &Option<Octets>) -> OrMemory<()>
    ensures written { OnOk result (out.new ≡ out.old ++ spelling (Sign1s.payload_item payload.now)) }
    ensures range { HasRangesWithin 14 (Sign1s.payload_item payload.now) }
{
    match payload {
        Some(bytes) => out.bytes(bytes.as_slice()),
        None => out.null(),
    }
}

/// A payload as an item: null for none.
fn payload_item(alloc: Global, payload: &Option<Octets>) -> OrMemory<Item>
    ensures { IfOk result (λ x. x ≡ Sign1s.payload_item payload.now) }
{
    match payload {
        Some(bytes) => Ok(Item::Bytes(bytes.try_clone(alloc)?)),
        None => Ok(Item::Null),
    }
}
