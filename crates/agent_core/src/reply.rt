// Replies as the bytes of their frames.
ghost use Rattle.std.specs.Prelude.{◌≡◌, IfOk};
ghost use Rattle.frames.specs.Frames.{frame_bytes};
ghost use Rattle.agent_core.specs.Hearing.{HasLeaf};
ghost use Rattle.agent_core.specs.Saying.{Carries};
ghost use Rattle.agent_core.specs.Turns.{key_of, refusal_frame};

use crate::refusal::Refusal;
use agent_replies::sign_message;
use base_types::{NoMemory, Octets, OrMemory};
use component_store::Store;
use frames::frame_of;
use hss_sign::Key;
use std::alloc::Global;
use std::thread::Threads;

// The kind of a frame out that carries a message.
const MESSAGE: u8 = 0x81;

// The kind of a frame out that carries a refusal.
const REFUSAL: u8 = 0x82;

/// The frame of a refusal. Refused for want of memory alone.
pub(crate) fn refusal_reply(alloc: Global, refusal: Refusal) -> OrMemory<Octets>
    ensures { IfOk result (λ bytes. bytes ≡ frame_bytes (refusal_frame refusal)) }
{
    frame_of(alloc, REFUSAL, &[refusal.number()])
}

/// The frame of a message, signed by the device's key at the first leaf that is not used. Refused for want
/// of memory alone.
pub(crate) fn message_reply<R: Threads + AllocGlobal + Sync, S: Store>(
    rt: &R,
    key: &mut Key,
    store: &S,
    payload: &[u8],
) -> OrMemory<Octets>
    requires leaf { HasLeaf (S.state store.now) }
    requires key { key.old ≡ key_of (S.state store.now).config }
    ensures carries { IfOk result (Carries (S.state store.now) payload.now) }
    ensures same { key.new ≡ key.old }
{
    let device = store.config().device.device.as_slice();
    let body = sign_message(rt, key, device, store.leaf(), payload)?;
    // no frame has a length for more, and no device the memory
    if body.len() > u32::MAX as usize {
        return Err(NoMemory);
    }
    frame_of(rt.alloc(), MESSAGE, body.as_slice())
}
