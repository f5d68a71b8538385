// One connection in memory, with what was done on it.
ghost use Rattle.std.specs.Prelude.{◌≡◌, ◌<◌, ◌≤◌, length, min, is_some, IfOk, IfSome, IfNone, IsTrue, true, false};
ghost use Rattle.outside_core.specs.Stream.{Gives};
ghost use Rattle.broker_links.specs.Traffic.{Writes, stream_of};
ghost use Rattle.broker_links.specs.Dials.{begun};
ghost use Rattle.broker_links.specs.Dialing.{carries, read_failing, wrote_failing};

use crate::pipe::Pipe;
use base_types::{Octets, OrMemory, Utf8};
use std::alloc::Global;
use std::marker::Model;

/// A connection that was begun: where it leads, its input, what was taken of it and written to it, and
/// whether a read and whether a write of it failed while it was open. Contracts see these.
#[derive(Drop)]
pub struct Connection {
    host: Utf8,
    port: u16,
    pipe: Pipe,
    read_failed: bool,
    write_failed: bool,
}

impl Model for Connection {
    ghost use Rattle.broker_links.specs.Dials.{Dialed};

    ghost Value = { Dialed };

    ghost view = { λ it. record { host = it.host; port = it.port; traffic = it.pipe; read_failed = it.read_failed; write_failed = it.write_failed } };
}

impl Connection {
    /// The host that was dialed.
    pub fn host(&self) -> &str
        ensures { result.now ≡ self.now.host }
    {
        self.host.as_str()
    }

    /// The port that was dialed.
    pub fn port(&self) -> u16
        ensures { result ≡ self.now.port }
    {
        self.port
    }

    /// All of the input, also what is taken.
    pub fn input(&self) -> &[u8]
        ensures { result.now ≡ self.now.traffic.input }
    {
        self.pipe.input()
    }

    /// How many bytes of the input were taken.
    pub fn taken(&self) -> usize
        ensures { result ≡ self.now.traffic.taken }
    {
        self.pipe.taken()
    }

    /// All that was written.
    pub fn written(&self) -> &[u8]
        ensures { result.now ≡ self.now.traffic.sent }
    {
        self.pipe.written()
    }

    /// Whether a read failed while the connection was open.
    pub fn read_failed(&self) -> bool
        ensures { result ≡ self.now.read_failed }
    {
        self.read_failed
    }

    /// Whether a write failed while the connection was open.
    pub fn write_failed(&self) -> bool
        ensures { result ≡ self.now.write_failed }
    {
        self.write_failed
    }

    // A connection with a copy of the input, of which nothing is taken.
    pub(crate) fn begin(
        alloc: Global,
        host: &str,
        port: u16,
        input: &Octets,
    ) -> OrMemory<Connection>
        ensures { IfOk result (λ it. it ≡ begun host.now port input.now) }
    {
        let pipe = Pipe::new(alloc, input)?;
        Ok(Connection {
            host: Utf8::from_str(alloc, host)?,
            port,
            pipe,
            read_failed: false,
            write_failed: false,
        })
    }

    // Gives the next piece where the read is to work, and is marked where it is not.
    pub(crate) fn read(&mut self, works: bool, piece: usize, buf: &mut [u8]) -> Option<usize>
        requires piece { 0 < piece }
        requires room { 0 < length buf.old }
        ensures works { is_some result ≡ works }
        ensures within { IfSome result (λ n. n ≤ length buf.new) }
        ensures count { IfSome result (λ n. n ≡ min (min (length (stream_of self.old.traffic).rest) piece) (length buf.old)) }
        ensures gives { IfSome result (λ n. Gives n buf.new (stream_of self.old.traffic) (stream_of self.new.traffic)) }
        ensures input { self.new.traffic.input ≡ self.old.traffic.input }
        ensures sent { self.new.traffic.sent ≡ self.old.traffic.sent }
        ensures kept { IfSome result (λ n. self.new ≡ carries self.new.traffic self.old) }
        ensures failed { IfNone result (self.new ≡ read_failing self.old) }
    {
        if works {
            Some(self.pipe.read(piece, buf))
        } else {
            self.read_failed = true;
            None
        }
    }

    // Writes the bytes, and is marked where that did not work.
    pub(crate) fn write(&mut self, works: bool, bytes: &[u8]) -> bool
        ensures traffic { Writes works bytes.now result self.old.traffic self.new.traffic }
        ensures kept { IsTrue result → self.new ≡ carries self.new.traffic self.old }
        ensures failed { result ≡ false → self.new ≡ wrote_failing self.new.traffic self.old }
    {
        let done = self.pipe.write(works, bytes);
        if !done {
            self.write_failed = true;
        }
        done
    }
}
