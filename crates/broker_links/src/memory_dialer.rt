// A dialer in memory.
ghost use Rattle.std.specs.Prelude.{◌≡◌, ◌<◌, ◌≤◌, ℕ, length, min, Some, IfOk};
ghost use Rattle.std.specs.Vec.{vec_len, vec_capacity};
ghost use Rattle.broker_links.specs.Dials.{Dialed};

use crate::connection::Connection;
use crate::dialer::Dialer;
use base_types::{Failed, List, Octets, OrMemory};
use http_link::Link;
use outside_core::{CallNumbers, FaultCount, Source};
use std::alloc::Global;

/// A dialer in memory, which tells everything and fails where it is told to.
///
/// Its dials, reads and writes are numbered from 0 together; a close has no number. Those whose number
/// is in `failing` fail: a write has written the first half of its bytes then, rounded down, and
/// another call nothing. Each dial that is Ok begins the next connection, with its bytes as input. A
/// dial fails too where no connection is left, a read and a write where none is open, and a dial and a
/// write where no room is found.
#[derive(Drop)]
pub struct MemoryDialer {
    alloc: Global,
    inputs: List<Octets>,
    piece: usize,
    closed: Vec<Connection>,
    current: Option<Connection>,
    calls: CallNumbers,
    faults: FaultCount,
    ghost piece_some: { 0 < piece },
    ghost room: { (c : Dialed) → current ≡ Some c → vec_len closed < vec_capacity closed },
}

impl MemoryDialer {
    ghost use Rattle.std.specs.Prelude.{IsTrue, false, None, slice_get, option_map, option_copied};
    ghost use Rattle.broker_links.specs.Dials.{Opens, Closes, all_of, begun};
    ghost use Rattle.broker_links.specs.Dialing.{IsNew, KeepsSetting, dials_of, inputs_of, next_of, faults_of, sent_of};

    /// A dialer with these connections to come, of which no call was made.
    ///
    /// `piece`, at least 1, is the most bytes that one read gives; `failing` has the numbers of the
    /// calls that are to fail. Refused for want of memory alone.
    pub fn new(
        alloc: Global,
        connections: List<Octets>,
        piece: usize,
        failing: List<u64>,
    ) -> OrMemory<MemoryDialer>
        requires { 0 < piece }
        ensures new { IfOk result (IsNew connections piece failing) }
    {
        Ok(MemoryDialer {
            alloc,
            inputs: connections,
            piece,
            closed: Vec::new(alloc),
            current: None,
            calls: CallNumbers::new(failing),
            faults: FaultCount::new(),
        })
    }

    /// The connection of a number, counted from 0 in the order of the dials, and None exactly where no
    /// such connection was begun.
    pub fn connection(&self, index: u64) -> Option<&Connection>
        ensures { option_copied result ≡ slice_get (all_of (dials_of self.now)) index }
    {
        let count = self.closed.len() as u64;
        if index < count {
            self.closed.get(index as usize)
        } else if index == count {
            self.current.as_ref()
        } else {
            None
        }
    }

    /// All bytes that were written to the connection of a number, and None exactly where no such
    /// connection was begun.
    pub fn written(&self, index: u64) -> Option<&[u8]>
        ensures { option_copied result ≡ option_map sent_of (slice_get (all_of (dials_of self.now)) index) }
    {
        match self.connection(index) {
            Some(connection) => Some(connection.written()),
            None => None,
        }
    }

    // Puts what is open behind what is closed. The room for it was made when it was opened.
    fn shut(&mut self)
        ensures closes { Closes (dials_of self.old) (dials_of self.new) }
        ensures setting { KeepsSetting self.old self.new }
        ensures next { next_of self.new ≡ next_of self.old }
        ensures faults { faults_of self.new ≡ faults_of self.old }
    {
        if let Some(connection) = self.current.take() {
            self.closed.push_reserved(connection);
        }
    }

    // Opens the next connection, where one is left and room is found for it. None is open.
    fn begin(&mut self, host: &str, port: u16) -> bool
        requires shut { (dials_of self.old).current ≡ None }
        ensures closed { (dials_of self.new).closed ≡ (dials_of self.old).closed }
        ensures ok { IsTrue result → (input : List ℕ) × (slice_get (inputs_of self.old) (length (dials_of self.old).closed) ≡ Some input) × ((dials_of self.new).current ≡ Some (begun host.now port input)) }
        ensures refused { result ≡ false → (dials_of self.new).current ≡ None }
        ensures setting { KeepsSetting self.old self.new }
        ensures next { next_of self.new ≡ next_of self.old }
        ensures faults { faults_of self.new ≡ faults_of self.old }
    {
        let Some(input) = self.inputs.get(self.closed.len()) else {
            return false;
        };
        let Ok(connection) = Connection::begin(self.alloc, host, port, input) else {
            return false;
        };
        if self.closed.reserve(1).is_err() {
            return false;
        }
        self.current = Some(connection);
        true
    }
}

impl Source for MemoryDialer {
    ghost use Rattle.broker_links.specs.Dials.{stream_in};
    ghost use Rattle.broker_links.specs.Dialing.{dials_of, faults_of, piece_of, KeepsRead, TakesRead};
    ghost use Rattle.broker_links.specs.DialLaws.{reads_none, reads_on};
    ghost use Rattle.base_types.specs.Causes.{HasCause};
    ghost use Rattle.outside_core.specs.Stream.{Reads};

    ghost told = { Unit {0} };

    ghost read_faults = { faults_of };

    ghost stream = { λ m. stream_in (dials_of m) };

    ghost keeps = { KeepsRead };

    ghost keeps_itself = { reads_none };

    ghost keeps_on = { reads_on };

    /// A read that works gives a piece, or what is left of the input where that is less, as far as the
    /// buffer goes.
    fn read(&mut self, buf: &mut [u8]) -> Result<usize, Failed>
        requires { 0 < length buf.old }
        ensures within { IfOk result (λ n. n ≤ length buf.new) }
        ensures cause { HasCause (faults_of self.old) (faults_of self.new) result }
        ensures stream { Reads buf.new result (stream_in (dials_of self.old)) (stream_in (dials_of self.new)) }
        ensures keeps { KeepsRead self.old self.new }
        ensures piece { IfOk result (λ n. n ≡ min (min (length (stream_in (dials_of self.old)).rest) (piece_of self.old)) (length buf.old)) }
        ensures number { TakesRead result self.old self.new }
    {
        let works = self.calls.begin();
        match &mut self.current {
            Some(connection) => match connection.read(works, self.piece, buf) {
                Some(count) => Ok(count),
                None => Err(self.faults.failed()),
            },
            None => Err(self.faults.failed()),
        }
    }
}

impl Link for MemoryDialer {
    ghost use Rattle.std.specs.Prelude.{refl};
    ghost use Rattle.broker_links.specs.Dials.{stream_in};
    ghost use Rattle.broker_links.specs.Dialing.{dials_of, faults_of, KeepsWritten, TakesWrite};
    ghost use Rattle.broker_links.specs.DialLaws.{writes_none as none_written, writes_on as both_written};
    ghost use Rattle.base_types.specs.Causes.{HasCause};
    ghost use Rattle.outside_core.specs.Stream.{Sends};

    ghost faults = { faults_of };

    ghost keeps_written = { KeepsWritten };

    ghost counts_reads = { λ l. refl };

    ghost writes_none = { none_written };

    ghost writes_on = { both_written };

    fn write(&mut self, bytes: &[u8]) -> Result<(), Failed>
        ensures cause { HasCause (faults_of self.old) (faults_of self.new) result }
        ensures contents { Sends bytes.now result (stream_in (dials_of self.old)) (stream_in (dials_of self.new)) }
        ensures keeps { KeepsWritten self.old self.new }
        ensures number { TakesWrite bytes.now result self.old self.new }
    {
        let works = self.calls.begin();
        match &mut self.current {
            Some(connection) => {
                if connection.write(works, bytes) {
                    Ok(())
                } else {
                    Err(self.faults.failed())
                }
            }
            None => Err(self.faults.failed()),
        }
    }
}

impl Dialer for MemoryDialer {
    ghost use Rattle.std.specs.Prelude.{refl};
    ghost use Rattle.broker_links.specs.Dials.{DialsTo, Closes, stream_in};
    ghost use Rattle.broker_links.specs.Dialing.{dials_of, faults_of, next_of, KeepsSetting, TakesDial};
    ghost use Rattle.base_types.specs.Causes.{HasCause};

    ghost dials = { dials_of };

    ghost streams = { λ m told. refl };

    ghost reads_keep = { λ old new keeps told. keeps.alone };

    ghost writes_keep = { λ old new keeps told. keeps.alone };

    fn dial(&mut self, host: &str, port: u16) -> Result<(), Failed>
        ensures cause { HasCause (faults_of self.old) (faults_of self.new) result }
        ensures contents { DialsTo host.now port result (dials_of self.old) (dials_of self.new) }
        ensures number { TakesDial host.now port result self.old self.new }
    {
        self.shut();
        if self.calls.begin() && self.begin(host, port) {
            Ok(())
        } else {
            Err(self.faults.failed())
        }
    }

    fn close(&mut self)
        ensures steady { faults_of self.new ≡ faults_of self.old }
        ensures contents { Closes (dials_of self.old) (dials_of self.new) }
        ensures setting { KeepsSetting self.old self.new }
        ensures next { next_of self.new ≡ next_of self.old }
    {
        self.shut();
    }
}
