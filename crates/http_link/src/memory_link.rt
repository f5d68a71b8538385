// A connection in memory.
ghost use Rattle.std.specs.Prelude.{◌≡◌, ◌<◌, ◌≤◌, length, take, min, IfOk};

use crate::link::Link;
use base_types::{Failed, List, Octets, OrMemory};
use outside_core::{CallNumbers, FaultCount, Source};
use std::alloc::Global;

/// A connection in memory, which tells everything and fails where it is told to.
///
/// Its reads and writes are numbered from 0 together. Those whose number is in `failing` fail: a write
/// has written the first half of its bytes then, rounded down, and a read nothing. A write fails too
/// where no room is found for its bytes, and writes nothing then.
#[derive(Drop)]
pub struct MemoryLink {
    input: Octets,
    taken: usize,
    piece: usize,
    sent: Octets,
    calls: CallNumbers,
    faults: FaultCount,
    ghost piece_some: { 0 < piece },
    ghost within: { taken ≤ length input },
}

// Copies the next bytes, as many as a piece has at most.
fn hand_out(rest: &[u8], piece: usize, buf: &mut [u8]) -> usize
    ensures count { result ≡ min (min (length rest.now) piece) (length buf.old) }
    ensures bytes { take result buf.new ≡ take result rest.now }
{
    let count = rest.len().min(piece).min(buf.len());
    buf[..count].copy_from_slice(&rest[..count]);
    count
}

impl MemoryLink {
    ghost use Rattle.std.specs.Option.{option_copied};
    ghost use Rattle.http_link.specs.Links.{IsNew, stream_of, written_at};

    /// A connection with this input, of which no call was made.
    ///
    /// `piece`, at least 1, is the most bytes that one read gives; `failing` has the numbers of the
    /// calls that are to fail. Refused for want of memory alone.
    pub fn new(
        alloc: Global,
        input: Octets,
        piece: usize,
        failing: List<u64>,
    ) -> OrMemory<MemoryLink>
        requires { 0 < piece }
        ensures new { IfOk result (IsNew input piece failing) }
    {
        Ok(MemoryLink {
            input,
            taken: 0,
            piece,
            sent: Octets::new(alloc),
            calls: CallNumbers::new(failing),
            faults: FaultCount::new(),
        })
    }

    /// All bytes that were written to the connection, for index 0. It is the one connection, so that
    /// another index has none.
    pub fn written(&self, index: u64) -> Option<&[u8]>
        ensures { option_copied result ≡ written_at index (stream_of self.now) }
    {
        if index == 0 {
            Some(self.sent.as_slice())
        } else {
            None
        }
    }
}

impl Source for MemoryLink {
    ghost use Rattle.http_link.specs.Links.{stream_of, faults_of, piece_of, KeepsSetting, TakesNumber};
    ghost use Rattle.http_link.specs.LinkLaws.{keeps_same, keeps_both};
    ghost use Rattle.base_types.specs.Causes.{HasCause};
    ghost use Rattle.outside_core.specs.Stream.{Reads};

    ghost told = { Unit {0} };

    ghost read_faults = { faults_of };

    ghost stream = { stream_of };

    ghost keeps = { KeepsSetting };

    ghost keeps_itself = { keeps_same };

    ghost keeps_on = { λ old mid new first second. keeps_both first second };

    /// A read that works gives a piece, or what is left of the input where that is less, as far as the
    /// buffer goes.
    fn read(&mut self, buf: &mut [u8]) -> Result<usize, Failed>
        requires { 0 < length buf.old }
        ensures within { IfOk result (λ n. n ≤ length buf.new) }
        ensures cause { HasCause (faults_of self.old) (faults_of self.new) result }
        ensures stream { Reads buf.new result (stream_of self.old) (stream_of self.new) }
        ensures keeps { KeepsSetting self.old self.new }
        ensures piece { IfOk result (λ n. n ≡ min (min (length (stream_of self.old).rest) (piece_of self.old)) (length buf.old)) }
        ensures number { TakesNumber result self.old self.new }
    {
        if self.calls.begin() {
            let count = hand_out(&self.input.as_slice()[self.taken..], self.piece, buf);
            self.taken += count;
            Ok(count)
        } else {
            Err(self.faults.failed())
        }
    }
}

impl Link for MemoryLink {
    ghost use Rattle.std.specs.Prelude.{refl};
    ghost use Rattle.http_link.specs.Links.{stream_of, faults_of, KeepsSetting, TakesWrite};
    ghost use Rattle.http_link.specs.LinkLaws.{keeps_same, keeps_both};
    ghost use Rattle.base_types.specs.Causes.{HasCause};
    ghost use Rattle.outside_core.specs.Stream.{Sends};

    ghost faults = { faults_of };

    ghost keeps_written = { KeepsSetting };

    ghost counts_reads = { λ l. refl };

    ghost writes_none = { keeps_same };

    ghost writes_on = { λ old mid new first second. keeps_both first second };

    fn write(&mut self, bytes: &[u8]) -> Result<(), Failed>
        ensures cause { HasCause (faults_of self.old) (faults_of self.new) result }
        ensures contents { Sends bytes.now result (stream_of self.old) (stream_of self.new) }
        ensures keeps { KeepsSetting self.old self.new }
        ensures number { TakesWrite bytes.now result self.old self.new }
    {
        if self.calls.begin() {
            return match self.sent.extend(bytes) {
                Ok(()) => Ok(()),
                Err(_) => Err(self.faults.failed()),
            };
        }
        match self.sent.extend(&bytes[..bytes.len() / 2]) {
            Ok(()) => Err(self.faults.failed()),
            Err(_) => Err(self.faults.failed()),
        }
    }
}
