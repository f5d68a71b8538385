ghost use Rattle.std.specs.Prelude.{IfOk};
ghost use Rattle.cbor_core.specs.Spelling.{Spells};
ghost use Rattle.evidence.specs.Claims.{evidence_item};

use crate::ids::DeviceIds;
use base_types::{Octets, OrMemory};
use cbor_heads::Writer;
use std::alloc::Global;

/// The version of the evidence that is written.
const VERSION: u64 = 1;

/// What a device says of itself to a challenge: the encoding of
/// `[1, device, vendor, class, challenge]`. It is the payload of the attestation evidence in a
/// QueryResponse (draft-ietf-teep-protocol, "QueryResponse Message"). Refused for want of memory alone.
pub fn evidence_of(alloc: Global, device: &DeviceIds, challenge: &[u8]) -> OrMemory<Octets>
    ensures spelled { IfOk result (λ bytes. Spells (evidence_item device.now challenge.now) bytes) }
{
    let mut out = Writer::new(alloc);
    out.array(5)?;
    out.unsigned(VERSION)?;
    out.bytes(device.device.as_slice())?;
    out.bytes(device.vendor.as_slice())?;
    out.bytes(device.class.as_slice())?;
    out.bytes(challenge)?;
    Ok(out.into_octets())
}
