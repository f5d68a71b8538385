ghost use Rattle.std.specs.Prelude.{◌≡◌, ◌⊎◌, ◌&&◌, Ok, Err, IfOk};
ghost use Rattle.cbor_core.specs.declared.item.Item.{out-Item};
ghost use Rattle.cbor_core.specs.Spelling.{Spells};
ghost use Rattle.cbor_core.specs.Views.{field};
ghost use Rattle.item_codec.specs.Answers.{Answers, IsAnswer};
ghost use Rattle.item_codec.specs.Whole.{BytesAnswer};
ghost use Rattle.cose_core.specs.Key.{is_kty_by, is_kty, is_alg_if, key_in, key_of};

use crate::fault::KeyFault;
use crate::headers::is_hss_lms;
use crate::labels::{ALG_HSS_LMS, KEY_ALG, KEY_KID, KEY_KTY, KEY_PUB, KTY_HSS_LMS};
use base_types::{List, Octets, OrMemory};
use cbor_core::{CborFault, Item, Pair, decode_whole, encode, field};
use cbor_fields::{ByteString, negative_field};
use item_codec::{read_known, read_required};
use std::alloc::Global;

/// An HSS/LMS public key with its identifier: COSE_Key (RFC 9052, section 7; RFC 8778, section 3).
#[derive(Debug, Drop, Eq, PartialEq)]
pub struct CoseKey {
    /// The key identifier, where the key has one.
    pub kid: Option<Octets>,
    /// The public key: of an HSS key of RFC 8554 60 bytes, which is not looked at here.
    pub public: Octets,
}

/// Whether an item is the key type HSS-LMS.
fn is_kty(kty: &Item) -> bool
    ensures { result ≡ is_kty_by (out-Item kty.now) }
{
    match kty {
        Item::Unsigned(n) => *n == KTY_HSS_LMS,
        _ => false,
    }
}

/// Whether the labels that say what a key is for are those of HSS/LMS.
fn is_for_hss_lms(pairs: &[Pair]) -> bool
    ensures { result ≡ (is_kty (field KEY_KTY pairs.now) && is_alg_if (field KEY_ALG pairs.now)) }
{
    let is_kind = match field(pairs, KEY_KTY) {
        Some(kty) => is_kty(kty),
        None => false,
    };
    let is_alg = match field(pairs, KEY_ALG) {
        Some(alg) => is_hss_lms(alg),
        None => true,
    };
    is_kind && is_alg
}

/// The key of a map's pairs.
fn read_pairs(alloc: Global, pairs: &[Pair]) -> Result<CoseKey, KeyFault>
    ensures { Answers KeyFault.NoMemory (key_in pairs.now) result }
{
    if !is_for_hss_lms(pairs) {
        return Err(KeyFault::Shape);
    }
    let shape = KeyFault::Shape;
    let kid = read_known::<_, _, ByteString>(alloc, pairs, KEY_KID, shape)?;
    let public = negative_field(pairs, KEY_PUB);
    let public = read_required::<_, _, ByteString>(alloc, public, shape, shape)?;
    Ok(CoseKey { kid, public })
}

/// The key of an item.
fn read_item(alloc: Global, item: &Item) -> Result<CoseKey, KeyFault>
    ensures { Answers KeyFault.NoMemory (key_of item.now) result }
{
    match item.as_map() {
        Some(pairs) => read_pairs(alloc, pairs),
        None => Err(KeyFault::Shape),
    }
}

/// The key that bytes are.
fn read_bytes(alloc: Global, bytes: &[u8]) -> Result<CoseKey, KeyFault>
    ensures { BytesAnswer KeyFault.NoMemory (λ f. KeyFault.NotCbor f) key_of bytes.now result }
{
    match decode_whole(alloc, bytes) {
        Ok(item) => read_item(alloc, &item),
        Err(CborFault::Bad(fault)) => Err(KeyFault::NotCbor(fault)),
        Err(CborFault::NoMemory) => Err(KeyFault::NoMemory),
    }
}

impl CoseKey {
    ghost use Rattle.cose_core.specs.Key.{KeyIs, KeyRefusedAs, written_key};

    /// Reads the COSE_Key that all the bytes spell (RFC 9052, section 7; RFC 8778, section 3).
    ///
    /// `NotCbor` where they spell no item, with the first fault. `Shape` where the item is no map with
    /// `1: 5` and a byte string at -1, where 3 is there and not -46, and where 2 is there and no byte
    /// string. Other labels are passed over. `NoMemory` may come for any bytes.
    pub fn read(alloc: Global, bytes: &[u8]) -> Result<CoseKey, KeyFault>
        // What is found is the key that the bytes are.
        ensures found { IfOk result (λ v. KeyIs v bytes.now) }
        // The key that the bytes are is found, unless memory runs out.
        ensures only { (v : CoseKey) → KeyIs v bytes.now → IsAnswer KeyFault.NoMemory result (Ok v) }
        // A refusal has its cause in the bytes, or memory ran out.
        ensures bad { (e : KeyFault) → result ≡ Err e → (e ≡ KeyFault.NoMemory) ⊎ KeyRefusedAs bytes.now e }
        // What the bytes are refused for is the answer, unless memory runs out.
        ensures refused { (e : KeyFault) → KeyRefusedAs bytes.now e → IsAnswer KeyFault.NoMemory result (Err e) }
    {
        read_bytes(alloc, bytes)
    }

    /// The key as an item.
    fn to_item(&self, alloc: Global) -> OrMemory<Item>
        ensures { IfOk result (λ x. x ≡ written_key self.now) }
    {
        let mut pairs = List::new(alloc);
        pairs.push(Pair {
            key: Item::Unsigned(KEY_KTY),
            value: Item::Unsigned(KTY_HSS_LMS),
        })?;
        if let Some(kid) = &self.kid {
            pairs.push(Pair {
                key: Item::Unsigned(KEY_KID),
                value: Item::Bytes(kid.try_clone(alloc)?),
            })?;
        }
        pairs.push(Pair {
            key: Item::Unsigned(KEY_ALG),
            value: Item::Negative(ALG_HSS_LMS),
        })?;
        pairs.push(Pair {
            key: Item::Negative(KEY_PUB),
            value: Item::Bytes(self.public.try_clone(alloc)?),
        })?;
        Ok(Item::Map(pairs))
    }

    /// The encoding of `{1: 5, 2: kid, 3: -46, -1: public}`, without 2 where the key has no
    /// identifier. Refused for want of memory alone.
    pub fn write(&self, alloc: Global) -> OrMemory<Octets>
        // The bytes spell this map.
        ensures spelled { IfOk result (λ bytes. Spells (written_key self.now) bytes) }
        // They are read as this key.
        ensures again { IfOk result (KeyIs self.now) }
    {
        let item = self.to_item(alloc)?;
        encode(alloc, &item)
    }
}
