ghost use Rattle.std.specs.Prelude.{◌≡◌, ℕ, ◌+◌, ◌++◌, ◌∷◌, [], ◌<◌, ◌^◌, length, map, slice_index, IfOk, OnOk};
ghost use Rattle.journal_core.specs.Frames.{frame, frames, AreBodies};

use base_types::{List, Octets, OrMemory};
use std::alloc::Global;
use std::marker::Model;

/// An open gate: a body stands behind it.
pub(crate) const OPEN: u8 = 0xa5;

/// The gate that ends a list. Any byte that is not `OPEN` does.
pub(crate) const CLOSED: u8 = 0;

/// Bodies as the bytes that a journal puts for them, ready before a change begins.
///
/// Contracts see it as the list of bodies.
#[derive(Debug, Drop)]
pub struct Framed {
    // each body behind an open gate and its length, and a closed gate behind the last
    bytes: Vec<u8>,
    lengths: Vec<u32>,
}

impl Model for Framed {
    ghost use Rattle.std.specs.Prelude.{◌≡◌, ◌++◌, ◌∷◌, [], List, ℕ, length, map};
    ghost use Rattle.journal_core.specs.Frames.{frames};
    ghost use Rattle.journal_core.specs.Unframed.{bodies_in, IsFramed};

    ghost Value = { List (List ℕ) };

    ghost view = { λ it. bodies_in it.lengths.items it.bytes.items };

    ghost invariant = { λ it. IsFramed it.lengths.items it.bytes.items };
}

impl Framed {
    /// Frames the bodies, each shorter than 2^32 bytes; there may be none. Refused for want of memory
    /// alone.
    pub fn of(alloc: Global, bodies: &List<Octets>) -> OrMemory<Framed>
        requires { AreBodies bodies.now }
        ensures { IfOk result (λ it. it ≡ bodies.now) }
    {
        let mut bytes = Vec::new(alloc);
        let mut lengths = Vec::new(alloc);
        for body in bodies.as_slice() {
            push_frame(&mut bytes, body.as_slice())?;
            lengths.push(body.len() as u32)?;
        }
        bytes.push(CLOSED)?;
        Ok(Framed { bytes, lengths })
    }

    // Every byte, the closed gate at the end included.
    pub(crate) fn bytes(&self) -> &[u8]
        ensures bytes { result.now ≡ frames self.now ++ 0 ∷ [] }
        ensures bodies { AreBodies self.now }
    {
        know_lengths(self.lengths.as_slice());
        self.bytes.as_slice()
    }

    // Every byte behind the first gate, where there is a body.
    pub(crate) fn behind_gate(&self) -> &[u8]
        requires { 0 < length self.now }
        ensures { 0xa5 ∷ result.now ≡ frames self.now ++ 0 ∷ [] }
    {
        &self.bytes[1..]
    }

    // The lengths of the bodies.
    pub(crate) fn lengths(&self) -> &[u32]
        ensures lengths { map length self.now ≡ result.now }
        ensures count { length result.now ≡ length self.now }
        ensures bodies { AreBodies self.now }
    {
        let lengths = self.lengths.as_slice();
        know_lengths(lengths);
        lengths
    }
}

fn push_frame(bytes: &mut Vec<u8>, body: &[u8]) -> OrMemory<()>
    requires { length body.now < 2 ^ 32 }
    ensures { OnOk result (bytes.new.items ≡ bytes.old.items ++ frame body.now) }
{
    bytes.push(OPEN)?;
    bytes.extend_from_slice(&(body.len() as u32).to_be_bytes())?;
    bytes.extend_from_slice(body)?;
    Ok(())
}

// Each length has four bytes.
fn know_lengths(lengths: &[u32])
    ensures { (i : ℕ) → slice_index lengths.now i < 2 ^ 32 }
{
    let _count = lengths.len();
}
