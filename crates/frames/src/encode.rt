ghost use Rattle.std.specs.Prelude.{◌≡◌, ◌<◌, ◌^◌, length, IfOk};
ghost use Rattle.frames.specs.Frames.{frame_bytes};

use base_types::{Octets, OrMemory};
use std::alloc::Global;

/// The bytes of a frame of this kind with this body, which is shorter than 2^32 bytes. Refused for want
/// of memory alone.
#[tactic(auto, unfolding(crate::specs::Frames::four_bytes))]
pub fn frame_of(alloc: Global, kind: u8, body: &[u8]) -> OrMemory<Octets>
    requires { length body.now < 2 ^ 32 }
    ensures { IfOk result (λ bytes. bytes ≡ frame_bytes (record { kind = kind; body = body.now })) }
{
    let size = body.len() as u32;
    let mut frame = Octets::new(alloc);
    frame.push(kind)?;
    frame.extend(&size.to_be_bytes())?;
    frame.extend(body)?;
    Ok(frame)
}
