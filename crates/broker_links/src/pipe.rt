// The bytes of a connection or of a child in memory.
ghost use Rattle.std.specs.Prelude.{◌≡◌, ◌<◌, ◌≤◌, length, take, min, IfOk};
ghost use Rattle.outside_core.specs.Stream.{Gives};
ghost use Rattle.broker_links.specs.Traffic.{Writes, fresh, stream_of};

use base_types::{Octets, OrMemory};
use std::alloc::Global;
use std::marker::Model;

/// An input that is read by pieces, and what was written. Contracts see its traffic.
#[derive(Drop)]
pub(crate) struct Pipe {
    input: Octets,
    taken: usize,
    sent: Octets,
}

impl Model for Pipe {
    ghost use Rattle.std.specs.Prelude.{◌≤◌, length};
    ghost use Rattle.broker_links.specs.Traffic.{Traffic};

    ghost Value = { Traffic };

    ghost view = { λ it. record { input = it.input; taken = it.taken; sent = it.sent } };

    ghost invariant = { λ it. it.taken ≤ length it.input };
}

// Copies the next bytes, as many as a piece has at most.
fn hand_out(rest: &[u8], piece: usize, buf: &mut [u8]) -> usize
    ensures count { result ≡ min (min (length rest.now) piece) (length buf.old) }
    ensures bytes { take result buf.new ≡ take result rest.now }
{
    let count = rest.len().min(piece).min(buf.len());
    buf[..count].copy_from_slice(&rest[..count]);
    count
}

impl Pipe {
    /// A copy of this input, of which nothing is taken.
    pub(crate) fn new(alloc: Global, input: &Octets) -> OrMemory<Pipe>
        ensures { IfOk result (λ it. it ≡ fresh input.now) }
    {
        Ok(Pipe {
            input: input.try_clone(alloc)?,
            taken: 0,
            sent: Octets::new(alloc),
        })
    }

    /// Gives a piece, or what is left of the input where that is less, as far as the buffer goes.
    pub(crate) fn read(&mut self, piece: usize, buf: &mut [u8]) -> usize
        requires piece { 0 < piece }
        requires room { 0 < length buf.old }
        ensures within { result ≤ length buf.new }
        ensures count { result ≡ min (min (length (stream_of self.old).rest) piece) (length buf.old) }
        ensures gives { Gives result buf.new (stream_of self.old) (stream_of self.new) }
        ensures input { self.new.input ≡ self.old.input }
        ensures sent { self.new.sent ≡ self.old.sent }
    {
        let count = hand_out(&self.input.as_slice()[self.taken..], piece, buf);
        self.taken += count;
        count
    }

    /// Writes the bytes, and says whether that worked. Where it is not to work, the first half stands,
    /// rounded down; where no room is found, nothing.
    pub(crate) fn write(&mut self, works: bool, bytes: &[u8]) -> bool
        ensures { Writes works bytes.now result self.old self.new }
    {
        if works {
            return self.sent.extend(bytes).is_ok();
        }
        let _half = self.sent.extend(&bytes[..bytes.len() / 2]);
        false
    }

    /// All of the input, also what is taken.
    pub(crate) fn input(&self) -> &[u8]
        ensures { result.now ≡ self.now.input }
    {
        self.input.as_slice()
    }

    /// How many bytes were taken.
    pub(crate) fn taken(&self) -> usize
        ensures { result ≡ self.now.taken }
    {
        self.taken
    }

    /// All that was written.
    pub(crate) fn written(&self) -> &[u8]
        ensures { result.now ≡ self.now.sent }
    {
        self.sent.as_slice()
    }
}
