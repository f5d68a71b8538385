ghost use Rattle.std.specs.Prelude.{◌≡◌, ◌++◌, ◌<◌, ◌^◌, IfOk, length};
ghost use Rattle.cbor_core.specs.Spelling.{Spells, spelling};
ghost use Rattle.cose_core.specs.Signed.{signed_item};

use base_types::{Octets, OrMemory};
use cbor_heads::Writer;
use std::alloc::Global;

/// What stands before the protected bytes and before the payload in the bytes that a signature is of
/// (RFC 9052, section 4.4): of `["Signature1", protected, h'', payload]` all that is neither.
#[derive(Debug, Drop)]
pub struct SignedHeads {
    /// Before the protected bytes, at most 21 bytes.
    pub front: Octets,
    /// Between the protected bytes and the payload, at most 10 bytes.
    pub middle: Octets,
}

impl SignedHeads {
    /// The heads round these protected bytes and this payload, of which neither is copied. Refused for
    /// want of memory alone.
    pub fn of(alloc: Global, protected: &[u8], payload: &[u8]) -> OrMemory<SignedHeads>
        // With them in their places it is the encoding.
        ensures joined { IfOk result (λ heads. heads.front ++ (protected.now ++ (heads.middle ++ payload.now)) ≡ spelling (signed_item protected.now payload.now)) }
        ensures few { IfOk result (λ heads. (length protected.now < 2 ^ 64) × (length payload.now < 2 ^ 64)) }
    {
        let nothing: [u8; 0] = [];
        let mut front = Writer::new(alloc);
        front.array(4)?;
        front.text("Signature1")?;
        front.bytes_head(protected.len() as u64)?;
        let mut middle = Writer::new(alloc);
        middle.bytes(&nothing)?;
        middle.bytes_head(payload.len() as u64)?;
        Ok(SignedHeads {
            front: front.into_octets(),
            middle: middle.into_octets(),
        })
    }

    // The heads round these protected bytes and this payload, as one.
    fn round(&self, alloc: Global, protected: &[u8], payload: &[u8]) -> OrMemory<Octets>
        ensures { IfOk result (λ bytes. bytes ≡ self.now.front ++ (protected.now ++ (self.now.middle ++ payload.now))) }
    {
        let mut out = Writer::new(alloc);
        out.piece(self.front.as_slice())?;
        out.piece(protected)?;
        out.piece(self.middle.as_slice())?;
        out.piece(payload)?;
        Ok(out.into_octets())
    }
}

/// The bytes that a signature is of (RFC 9052, section 4.4): the encoding of
/// `["Signature1", protected, h'', payload]`. The payload is copied once. Refused for want of memory
/// alone.
pub fn signed_bytes(alloc: Global, protected: &[u8], payload: &[u8]) -> OrMemory<Octets>
    ensures spelled { IfOk result (λ bytes. Spells (signed_item protected.now payload.now) bytes) }
{
    let heads = SignedHeads::of(alloc, protected, payload)?;
    heads.round(alloc, protected, payload)
}
