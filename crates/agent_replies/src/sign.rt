// A message is signed.
ghost use Rattle.std.specs.Prelude.{◌≡◌, ◌<◌, IfOk};
ghost use Rattle.cbor_core.specs.Spelling.{Spells, spelling};
ghost use Rattle.cose_core.specs.Sign1.{tagged};
ghost use Rattle.cose_core.specs.Signed.{signed_item};
ghost use Rattle.hss_sign.specs.Params.{capacity};
ghost use Rattle.hss_sign.specs.Sign.{signature_of};
ghost use Rattle.agent_replies.specs.Envelope.{enveloped};
ghost use Rattle.agent_replies.specs.Signing.{protected, signed};

use base_types::{Octets, OrMemory};
use cbor_heads::Writer;
use cose_core::signed_bytes;
use hss_sign::Key;
use std::alloc::Global;
use std::thread::Threads;

// The tag of a COSE_Sign1 (RFC 9052, section 4.2).
const SIGN1_TAG: u64 = 18;

// The label of the key identifier (RFC 9052, section 3.1).
const KEY_IDENTIFIER: u64 = 4;

// The protected headers {1: -46}: the algorithm is HSS-LMS (RFC 8778, section 5).
fn protected(alloc: Global) -> OrMemory<Octets>
    ensures { IfOk result (λ bytes. bytes ≡ protected) }
{
    Octets::from_slice(alloc, &[0xa1, 0x01, 0x38, 0x2d])
}

/// Signs a message: a COSE_Sign1 with tag 18 (RFC 9052, section 4.2), whose protected headers are
/// `{1: -46}`, whose key identifier is the number of the device, and whose signature is that of the key
/// at the leaf. The payload is copied twice. Refused for want of memory alone.
pub fn sign_message<R: Threads + AllocGlobal + Sync>(
    rt: &R,
    key: &mut Key,
    device: &[u8],
    leaf: u64,
    payload: &[u8],
) -> OrMemory<Octets>
    requires inside { leaf < capacity key.old.params }
    // It is the tagged form alone, which verifies under the key's public part.
    ensures spelled { IfOk result (λ bytes. Spells (tagged (signed key.old device.now leaf payload.now)) bytes) }
    ensures same { key.new ≡ key.old }
{
    let protected = protected(rt.alloc())?;
    let signature = signature(rt, key, protected.as_slice(), leaf, payload)?;
    envelope(
        rt.alloc(),
        protected.as_slice(),
        device,
        payload,
        signature.as_slice(),
    )
}

// The key's signature at a leaf, of a payload under protected headers.
fn signature<R: Threads + AllocGlobal + Sync>(
    rt: &R,
    key: &mut Key,
    protected: &[u8],
    leaf: u64,
    payload: &[u8],
) -> OrMemory<Octets>
    requires inside { leaf < capacity key.old.params }
    ensures value { IfOk result (λ it. it ≡ signature_of key.old.params key.old.seed leaf (spelling (signed_item protected.now payload.now))) }
    ensures same { key.new ≡ key.old }
{
    let bytes = signed_bytes(rt.alloc(), protected, payload)?;
    key.sign(rt, leaf, bytes.as_slice())
}

// The tagged form by its parts.
fn envelope(
    alloc: Global,
    headers: &[u8],
    device: &[u8],
    payload: &[u8],
    signature: &[u8],
) -> OrMemory<Octets>
    requires { headers.now ≡ protected }
    ensures { IfOk result (λ bytes. Spells (tagged (enveloped device.now payload.now signature.now)) bytes) }
{
    let mut out = Writer::new(alloc);
    out.tag(SIGN1_TAG)?;
    out.array(4)?;
    out.bytes(headers)?;
    out.map(1)?;
    out.unsigned(KEY_IDENTIFIER)?;
    out.bytes(device)?;
    out.bytes(payload)?;
    out.bytes(signature)?;
    Ok(out.into_octets())
}
