ghost use Rattle.std.specs.Prelude.{◌≡◌, IfOk};
ghost use Rattle.cbor_core.specs.Spelling.{IsProper};
ghost use Rattle.item_codec.specs.Answers.{Answers};
ghost use Rattle.item_codec.specs.Fields.{in_array};
ghost use Rattle.item_codec.specs.Wrapped.{wrapped, wrap};
ghost use Rattle.suit_commands.specs.Digests.{digest_in, digest_by, digest_of, wrapped_digest_of, digest_item};
ghost use Rattle.suit_commands.specs.Digests as Digests;

use crate::digest::{Digest, DigestAlgorithm};
use base_types::{List, OrMemory};
use cbor_core::{Item, encode};
use cbor_fields::{Form, FormFault};
use item_codec::{read_sized, unwrap_item};
use std::alloc::Global;

/// An array `[alg, bytes]`.
pub struct DigestArray;

impl Form<Digest> for DigestArray {
    ghost view = { digest_of };

    ghost written = { digest_item };

    #[tactic(auto, using(item_codec::proofs::Public::Forms::form_reads))]
    fn read(alloc: Global, item: &Item) -> Result<Digest, FormFault> {
        read_digest(alloc, item)
    }

    fn write(alloc: Global, value: &Digest) -> OrMemory<Item> {
        write_digest(alloc, value)
    }
}

/// A byte string that holds the encoding of an array `[alg, bytes]`.
pub struct WrappedDigest;

impl Form<Digest> for WrappedDigest {
    ghost view = { wrapped_digest_of };

    ghost written = { wrap digest_item };

    #[tactic(auto, using(item_codec::proofs::Public::Forms::form_reads))]
    fn read(alloc: Global, item: &Item) -> Result<Digest, FormFault> {
        read_wrapped_digest(alloc, item)
    }

    fn write(alloc: Global, value: &Digest) -> OrMemory<Item> {
        let item = write_digest(alloc, value)?;
        Ok(Item::Bytes(encode(alloc, &item)?))
    }
}

/// The hash function of a number -1-n.
fn algorithm_numbered(n: u64) -> Option<DigestAlgorithm>
    ensures { result ≡ Digests.algorithm_numbered n }
{
    match n {
        15 => Some(DigestAlgorithm::Sha256),
        42 => Some(DigestAlgorithm::Sha384),
        43 => Some(DigestAlgorithm::Sha512),
        _ => None,
    }
}

/// The hash function that an item names.
fn algorithm_of(item: &Item) -> Option<DigestAlgorithm>
    ensures { result ≡ Digests.algorithm_of item.now }
{
    match item {
        Item::Negative(n) => algorithm_numbered(*n),
        _ => None,
    }
}

/// How many bytes a digest has.
fn size_of(algorithm: DigestAlgorithm) -> usize
    ensures { result ≡ Digests.size_of algorithm }
{
    match algorithm {
        DigestAlgorithm::Sha256 => 32,
        DigestAlgorithm::Sha384 => 48,
        DigestAlgorithm::Sha512 => 64,
    }
}

/// The n of the number -1-n of a hash function.
fn number_of(algorithm: DigestAlgorithm) -> u64
    ensures { result ≡ Digests.number_of algorithm }
{
    match algorithm {
        DigestAlgorithm::Sha256 => 15,
        DigestAlgorithm::Sha384 => 42,
        DigestAlgorithm::Sha512 => 43,
    }
}

/// The digest by a hash function, with the bytes of an item.
fn read_by(alloc: Global, algorithm: DigestAlgorithm, bytes: &Item) -> Result<Digest, FormFault>
    ensures { Answers FormFault.NoMemory (digest_by algorithm bytes.now) result }
{
    let size = size_of(algorithm);
    let bytes = read_sized(alloc, bytes, size, size, FormFault::Shape, FormFault::Shape)?;
    Ok(Digest { algorithm, bytes })
}

/// The digest of an array.
fn read_digest(alloc: Global, item: &Item) -> Result<Digest, FormFault>
    ensures { Answers FormFault.NoMemory (in_array FormFault.Shape digest_in item.now) result }
{
    let Some([algorithm, bytes]) = item.as_array() else {
        return Err(FormFault::Shape);
    };
    match algorithm_of(algorithm) {
        Some(algorithm) => read_by(alloc, algorithm, bytes),
        None => Err(FormFault::Shape),
    }
}

/// The digest of a byte string that wraps an array.
fn read_wrapped_digest(alloc: Global, item: &Item) -> Result<Digest, FormFault>
    ensures { Answers FormFault.NoMemory (wrapped FormFault.Shape (in_array FormFault.Shape digest_in) item.now) result }
{
    let content = unwrap_item(alloc, item, FormFault::Shape)?;
    read_digest(alloc, &content)
}

/// The array of a digest.
#[tactic(auto, using(cbor_core::proofs::Public::KeyOrder::layers))]
fn write_digest(alloc: Global, value: &Digest) -> OrMemory<Item>
    ensures is { IfOk result (λ x. x ≡ digest_item value.now) }
    ensures proper { IfOk result IsProper }
{
    let mut members = List::new(alloc);
    members.push(Item::Negative(number_of(value.algorithm)))?;
    members.push(Item::Bytes(value.bytes.try_clone(alloc)?))?;
    Ok(Item::Array(members))
}
