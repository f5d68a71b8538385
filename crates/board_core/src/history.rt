// What a board in memory has been through: the image that it had at first, and each call.
ghost use Rattle.std.specs.Prelude.{◌≡◌, ◌+◌, ◌≤◌, ◌++◌, [], ◌∷◌, length, take, drop, true, OnOk, OnErr, IfOk, IsTrue};
ghost use Rattle.board_core.specs.Replay.{fresh, replay, all_fit, done, IsIdle};
ghost use Rattle.board_core.specs.Moments.{written};

use crate::call::Call;
use base_types::{List, Octets, OrMemory};
use std::alloc::Global;

#[derive(Drop)]
pub struct History {
    pub first: Octets,
    pub image: Vec<u8>,
    pub calls: List<Call>,
    ghost followed: { image.items ≡ (replay (fresh first) calls).bytes },
    ghost puts_fit: { all_fit (length first) calls ≡ true },
}

/// What takes place of a call on these bytes: all, or the first half.
pub fn part_done(bytes: &[u8], ok: bool) -> &[u8]
    ensures { result.now ≡ done ok bytes.now }
{
    if ok { bytes } else { &bytes[..bytes.len() / 2] }
}

/// Writes over a part of the image.
pub fn write(image: &mut Vec<u8>, at: usize, bytes: &[u8])
    requires { at + length bytes.now ≤ length image.old.items }
    ensures { image.new.items ≡ written image.old.items at bytes.now }
{
    image[at..at + bytes.len()].copy_from_slice(bytes);
}

impl History {
    ghost use Rattle.board_core.specs.History.{Noted, Untouched};
    ghost use Rattle.board_core.specs.declared.call.Call.TheVariants.{Send, Put};

    /// The history of a board with this image, of which no call was made.
    pub fn new(alloc: Global, first: Octets) -> OrMemory<History>
        ensures { IfOk result (λ h. (h.first ≡ first) × (h.calls ≡ [])) }
    {
        let image = Vec::from_slice(alloc, first.as_slice())?;
        Ok(History {
            first,
            image,
            calls: List::new(alloc),
        })
    }

    /// Notes a call that leaves the image as it is. Refused for want of memory alone, and all is as before then.
    pub fn idle(&mut self, call: Call) -> OrMemory<()>
        requires { IsIdle call }
        ensures ok { OnOk result (Noted call self.old self.new) }
        ensures err { OnErr result (Untouched self.old self.new) }
    {
        self.calls.push(call)
    }

    /// Notes a send, of which the first half takes place where it fails.
    pub fn send(&mut self, alloc: Global, bytes: &[u8], ok: bool) -> OrMemory<()>
        ensures ok { OnOk result (Noted (Send bytes.now ok) self.old self.new) }
        ensures err { OnErr result (Untouched self.old self.new) }
    {
        let bytes = Octets::from_slice(alloc, bytes)?;
        self.idle(Call::Send { bytes, ok })
    }

    /// Notes a put and writes it; where it fails, its first half.
    pub fn put(&mut self, alloc: Global, at: u64, bytes: &[u8], ok: bool) -> OrMemory<()>
        requires { at + length bytes.now ≤ length self.old.image.items }
        ensures ok { OnOk result (Noted (Put at bytes.now ok) self.old self.new) }
        ensures err { OnErr result (Untouched self.old self.new) }
    {
        let kept = Octets::from_slice(alloc, bytes)?;
        let call = Call::Put {
            at,
            bytes: kept,
            ok,
        };
        self.calls.push(call)?;
        write(&mut self.image, at as usize, part_done(bytes, ok));
        Ok(())
    }

    /// What the image holds there.
    pub fn copy_out(&self, at: u64, buf: &mut [u8])
        requires { at + length buf.old ≤ length self.now.image.items }
        ensures { buf.new ≡ take (length buf.new) (drop at self.now.image.items) }
    {
        let from = at as usize;
        buf.copy_from_slice(&self.image[from..from + buf.len()]);
    }
}
