// A board in memory. It keeps the image that it had at first and each call, so that what a crash may leave is replayed.
ghost use Rattle.std.specs.Prelude.{◌≡◌, ◌+◌, ◌<◌, ◌≤◌, length, drop, take, min, IfOk};

use crate::board::Board;
use crate::call::Call;
use crate::crash::{all_sent, stopped};
use crate::fault_counts::FaultCounts;
use crate::history::History;
use crate::stop::Stop;
use base_types::{Failed, List, Octets, OrMemory};
use outside_core::{FailingCalls, Source};
use std::alloc::Global;

/// A board in memory that tells everything, fails where it is told to, and can be stopped inside any call.
///
/// The calls read, send, load, put and sync are numbered from 0 together. Those whose number is in
/// `failing` fail: a send or a put has done the first half of its bytes then, rounded down, and another
/// call nothing. No other call fails but one for which no room is found.
#[derive(Drop)]
pub struct MemoryBoard {
    alloc: Global,
    input: Octets,
    taken: usize,
    history: History,
    piece: usize,
    failing: FailingCalls,
    counts: FaultCounts,
    short: bool,
    ghost piece_some: { 0 < piece },
    ghost within: { taken ≤ length input },
}

// Copies the next bytes, as many as a piece has at most.
fn hand_out(input: &[u8], at: usize, piece: usize, buf: &mut [u8]) -> usize
    requires { at ≤ length input.now }
    ensures within { result ≤ length buf.new }
    ensures count { result ≡ min (min (length (drop at input.now)) piece) (length buf.old) }
    ensures bytes { take result buf.new ≡ take result (drop at input.now) }
{
    let count = (input.len() - at).min(piece).min(buf.len());
    buf[..count].copy_from_slice(&input[at..at + count]);
    count
}

impl MemoryBoard {
    ghost use Rattle.std.specs.Prelude.{slice_get};
    ghost use Rattle.board_core.specs.Memory.{IsNew, view_of, first_of, calls_of, failing_of, is_short};
    ghost use Rattle.outside_core.specs.Numbers.{works_at};
    ghost use Rattle.board_core.specs.Replay.{fresh, replay, Inside};
    ghost use Rattle.board_core.specs.Stops.{kind_of, StopLeaves};
    ghost use Rattle.board_core.specs.declared.call.Call.{Call};

    /// A board with this input and this image, of which no call was made.
    ///
    /// `piece`, at least 1, is the most bytes that one read gives; `failing` has the numbers of the
    /// calls that are to fail. Refused for want of memory alone.
    pub fn new(
        alloc: Global,
        input: Octets,
        image: Octets,
        piece: usize,
        failing: List<u64>,
    ) -> OrMemory<MemoryBoard>
        requires { 0 < piece }
        ensures new { IfOk result (IsNew input image piece failing) }
    {
        let history = History::new(alloc, image)?;
        Ok(MemoryBoard {
            alloc,
            input,
            taken: 0,
            history,
            piece,
            failing: FailingCalls::new(failing),
            counts: FaultCounts::new(),
            short: false,
        })
    }

    /// The number of calls so far that found room for their note.
    pub fn calls(&self) -> u64
        ensures count { result ≡ length (calls_of self.now) }
    {
        self.history.calls.len() as u64
    }

    /// Whether some call found no room for its note: it failed, raised its count and took no number.
    pub fn short(&self) -> bool
        ensures short { result ≡ is_short self.now }
    {
        self.short
    }

    /// The bytes sent and the image that a stop inside a call leaves, by the call's number.
    ///
    /// The mode, below 4, says what becomes of each byte that is pending then, those of the call
    /// included: 0, it is as at the last good sync; 1, as last put; 2, it is `a5`; 3, it is `5a`. A send
    /// that is stopped has sent nothing in modes 0 and 2, and the first half of its bytes, rounded up,
    /// in modes 1 and 3. Where no call has that number, what was sent and what a load gives now.
    /// Refused for want of memory alone.
    pub fn crash(&self, call: u64, mode: u8) -> OrMemory<(Octets, Octets)>
        requires { mode < 4 }
        ensures stopped { (c : Call) → slice_get (calls_of self.now) call ≡ Some c →
            IfOk result (λ pair. StopLeaves (kind_of mode) (first_of self.now) (take call (calls_of self.now)) c pair.0 pair.1) }
        ensures inside { (c : Call) → slice_get (calls_of self.now) call ≡ Some c →
            IfOk result (λ pair. Inside (replay (fresh (first_of self.now)) (take call (calls_of self.now))) c pair.0 pair.1) }
        ensures present { length (calls_of self.now) ≤ call →
            IfOk result (λ pair. (pair.0 ≡ (view_of self.now).now.stream.sent) × (pair.1 ≡ (view_of self.now).now.disk.bytes)) }
        ensures left { IfOk result (λ pair. (view_of self.now).left call pair.0 pair.1) }
    {
        let calls = self.history.calls.as_slice();
        let number = call as usize;
        match self.history.calls.get(number) {
            Some(inside) => {
                let first = self.history.first.as_slice();
                let stop = Stop::from_mode(mode);
                stopped(self.alloc, first, &calls[..number], inside, stop)
            }
            None => {
                let sent = all_sent(self.alloc, calls)?;
                let image = Octets::from_slice(self.alloc, &self.history.image)?;
                Ok((sent, image))
            }
        }
    }

    // Whether the next call is to work.
    fn works(&self) -> bool
        ensures { result ≡ works_at (failing_of self.now) (length (calls_of self.now)) }
    {
        let number = self.history.calls.len() as u64;
        self.failing.works(number)
    }
}

impl Source for MemoryBoard {
    ghost use Rattle.board_core.specs.Memory.{view_of, piece_of, IsNoted};
    ghost use Rattle.board_core.specs.Calls.{ReadAlone};
    ghost use Rattle.board_core.specs.declared.call.Call.TheVariants.{Read};
    ghost use Rattle.board_core.specs.ReadLaws.{reads_none, reads_both};
    ghost use Rattle.base_types.specs.Causes.{HasCause};
    ghost use Rattle.outside_core.specs.Stream.{Reads};

    ghost told = { Unit {0} };

    ghost read_faults = { λ m. (view_of m).faults.read };

    ghost stream = { λ m. (view_of m).now.stream };

    ghost keeps = { λ old new. ReadAlone (Unit {0}) (view_of old) (view_of new) };

    ghost keeps_itself = { λ m. reads_none (Unit {0}) (view_of m) };

    ghost keeps_on = { λ old mid new first second. reads_both first second };

    /// A read that works gives a piece, or what is left of the input where that is less, as far as the
    /// buffer goes.
    fn read(&mut self, buf: &mut [u8]) -> Result<usize, Failed>
        requires { 0 < length buf.old }
        ensures within { IfOk result (λ n. n ≤ length buf.new) }
        ensures cause { HasCause (view_of self.old).faults.read (view_of self.new).faults.read result }
        ensures stream { Reads buf.new result (view_of self.old).now.stream (view_of self.new).now.stream }
        ensures keeps { ReadAlone (Unit {0}) (view_of self.old) (view_of self.new) }
        ensures piece { IfOk result (λ n. n ≡ min (min (length (view_of self.old).now.stream.rest) (piece_of self.old)) (length buf.old)) }
        ensures noted { IsNoted Read result self.old self.new }
    {
        let ok = self.works();
        match self.history.idle(Call::Read { ok }) {
            Ok(()) if ok => {
                let count = hand_out(self.input.as_slice(), self.taken, self.piece, buf);
                self.taken += count;
                Ok(count)
            }
            Ok(()) => Err(self.counts.read.failed()),
            Err(_) => {
                self.short = true;
                Err(self.counts.read.failed())
            }
        }
    }
}

impl Board for MemoryBoard {
    ghost use Rattle.board_core.specs.Memory.{view_of, IsNoted};
    ghost use Rattle.board_core.specs.MemoryLaws.{lawful};
    ghost use Rattle.board_core.specs.Moments.{Passes, NoMoment, WithinSend, WithinPut};
    ghost use Rattle.board_core.specs.Calls.{SendCause, DiskCause, SendsOut, Loads, Puts, Syncs};
    ghost use Rattle.board_core.specs.Faulted.{faults_in};
    ghost use Rattle.board_core.specs.declared.call.Call.TheVariants.{Send, Load, Put, Sync};
    ghost use Rattle.std.specs.Prelude.{refl};

    ghost view = { view_of };

    ghost reads_faults = { λ m. refl };

    ghost reads_stream = { λ m told. refl };

    ghost reads_keep = { λ old new keeps. keeps };

    ghost laws = { λ m told. lawful (faults_in m.counts) m.taken (drop m.taken m.input) m.history };

    fn send(&mut self, bytes: &[u8]) -> Result<(), Failed>
        ensures cause { SendCause (view_of self.old) (view_of self.new) result }
        ensures contents { SendsOut bytes.now result (view_of self.old) (view_of self.new) }
        ensures moments { Passes (view_of self.old) (view_of self.new) (WithinSend (view_of self.old) bytes.now) }
        ensures noted { IsNoted (Send bytes.now) result self.old self.new }
    {
        let ok = self.works();
        match self.history.send(self.alloc, bytes, ok) {
            Ok(()) if ok => Ok(()),
            Ok(()) => Err(self.counts.send.failed()),
            Err(_) => {
                self.short = true;
                Err(self.counts.send.failed())
            }
        }
    }

    fn size(&self) -> u64 {
        self.history.first.len() as u64
    }

    /// One that fails leaves the buffer as it was.
    fn load(&mut self, at: u64, buf: &mut [u8]) -> Result<(), Failed>
        requires { at + length buf.old ≤ (view_of self.old).extent }
        ensures cause { DiskCause (view_of self.old) (view_of self.new) result }
        ensures contents { Loads at buf.new result (view_of self.old) (view_of self.new) }
        ensures moments { Passes (view_of self.old) (view_of self.new) NoMoment }
        ensures noted { IsNoted Load result self.old self.new }
    {
        let ok = self.works();
        match self.history.idle(Call::Load { ok }) {
            Ok(()) if ok => {
                self.history.copy_out(at, buf);
                Ok(())
            }
            Ok(()) => Err(self.counts.disk.failed()),
            Err(_) => {
                self.short = true;
                Err(self.counts.disk.failed())
            }
        }
    }

    fn put(&mut self, at: u64, bytes: &[u8]) -> Result<(), Failed>
        requires { at + length bytes.now ≤ (view_of self.old).extent }
        ensures cause { DiskCause (view_of self.old) (view_of self.new) result }
        ensures contents { Puts at bytes.now result (view_of self.old) (view_of self.new) }
        ensures moments { Passes (view_of self.old) (view_of self.new) (WithinPut (view_of self.old) at (length bytes.now)) }
        ensures noted { IsNoted (Put at bytes.now) result self.old self.new }
    {
        let ok = self.works();
        match self.history.put(self.alloc, at, bytes, ok) {
            Ok(()) if ok => Ok(()),
            Ok(()) => Err(self.counts.disk.failed()),
            Err(_) => {
                self.short = true;
                Err(self.counts.disk.failed())
            }
        }
    }

    fn sync(&mut self) -> Result<(), Failed>
        ensures cause { DiskCause (view_of self.old) (view_of self.new) result }
        ensures contents { Syncs result (view_of self.old) (view_of self.new) }
        ensures moments { Passes (view_of self.old) (view_of self.new) NoMoment }
        ensures noted { IsNoted Sync result self.old self.new }
    {
        let ok = self.works();
        match self.history.idle(Call::Sync { ok }) {
            Ok(()) if ok => Ok(()),
            Ok(()) => Err(self.counts.disk.failed()),
            Err(_) => {
                self.short = true;
                Err(self.counts.disk.failed())
            }
        }
    }
}
