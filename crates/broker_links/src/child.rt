// One child in memory, with what was done with it.
ghost use Rattle.std.specs.Prelude.{◌≡◌, ◌<◌, ◌≤◌, length, min, is_some, is_none, IfOk, IfSome, IfNone, true, false, Some};
ghost use Rattle.outside_core.specs.Stream.{Gives};
ghost use Rattle.broker_links.specs.Traffic.{Writes, stream_of};
ghost use Rattle.broker_links.specs.Children.{begun};
ghost use Rattle.broker_links.specs.Spawning.{carries};

use crate::pipe::Pipe;
use base_types::{Octets, OrMemory, Utf8};
use std::alloc::Global;
use std::marker::Model;

/// A child that was started: its program, its bytes, and what the call answered that finished it.
/// Contracts see these.
#[derive(Drop)]
pub(crate) struct Child {
    program: Utf8,
    pipe: Pipe,
    finished: Option<bool>,
}

impl Model for Child {
    ghost use Rattle.broker_links.specs.Children.{Started};

    ghost Value = { Started };

    ghost view = { λ it. record { program = it.program; traffic = it.pipe; finished = it.finished } };
}

impl Child {
    // A child of this program with a copy of the output, of which nothing is taken.
    pub(crate) fn begin(alloc: Global, program: &str, output: &Octets) -> OrMemory<Child>
        ensures { IfOk result (λ it. it ≡ begun program.now output.now) }
    {
        let pipe = Pipe::new(alloc, output)?;
        Ok(Child {
            program: Utf8::from_str(alloc, program)?,
            pipe,
            finished: None,
        })
    }

    // The program that was started.
    pub(crate) fn program(&self) -> &str
        ensures { result.now ≡ self.now.program }
    {
        self.program.as_str()
    }

    // All that was written to it.
    pub(crate) fn written(&self) -> &[u8]
        ensures { result.now ≡ self.now.traffic.sent }
    {
        self.pipe.written()
    }

    // What the finish that ended it answered.
    pub(crate) fn finished(&self) -> Option<bool>
        ensures { result ≡ self.now.finished }
    {
        self.finished
    }

    // Whether it is there: no finish has come.
    pub(crate) fn is_there(&self) -> bool
        ensures { result ≡ is_none self.now.finished }
    {
        self.finished.is_none()
    }

    // Gives the next piece.
    pub(crate) fn read(&mut self, piece: usize, buf: &mut [u8]) -> usize
        requires piece { 0 < piece }
        requires room { 0 < length buf.old }
        ensures within { result ≤ length buf.new }
        ensures count { result ≡ min (min (length (stream_of self.old.traffic).rest) piece) (length buf.old) }
        ensures gives { Gives result buf.new (stream_of self.old.traffic) (stream_of self.new.traffic) }
        ensures input { self.new.traffic.input ≡ self.old.traffic.input }
        ensures sent { self.new.traffic.sent ≡ self.old.traffic.sent }
        ensures kept { self.new ≡ carries self.new.traffic self.old }
    {
        self.pipe.read(piece, buf)
    }

    // Writes the bytes, and says whether that worked.
    pub(crate) fn write(&mut self, works: bool, bytes: &[u8]) -> bool
        ensures traffic { Writes works bytes.now result self.old.traffic self.new.traffic }
        ensures kept { self.new ≡ carries self.new.traffic self.old }
    {
        self.pipe.write(works, bytes)
    }

    // Ends it, with this answer.
    pub(crate) fn end(&mut self, answer: bool)
        ensures finished { self.new.finished ≡ Some answer }
        ensures program { self.new.program ≡ self.old.program }
        ensures traffic { self.new.traffic ≡ self.old.traffic }
    {
        self.finished = Some(answer);
    }
}
