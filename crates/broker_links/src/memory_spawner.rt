// A spawner in memory.
ghost use Rattle.std.specs.Prelude.{◌≡◌, ◌<◌, ◌≤◌, length, min, IfOk};

use crate::child::Child;
use crate::spawner::Spawner;
use base_types::{Failed, List, Octets, OrMemory};
use outside_core::{CallNumbers, FaultCount, Source};
use std::alloc::Global;

/// A spawner in memory of one child with a stated output, which tells everything and fails where it is
/// told to.
///
/// All its calls are numbered from 0 together. Those whose number is in `failing` fail: a write has
/// written the first half of its bytes then, rounded down, a finish has ended the child, and another
/// call has done nothing. A start fails too where a child was started before, a read, a write and a
/// finish where none is there, and a start and a write where no room is found.
#[derive(Drop)]
pub struct MemorySpawner {
    alloc: Global,
    output: Octets,
    piece: usize,
    child: Option<Child>,
    calls: CallNumbers,
    faults: FaultCount,
    ghost piece_some: { 0 < piece },
}

impl MemorySpawner {
    ghost use Rattle.std.specs.Prelude.{option_map, option_and_then, option_copied, ◌==◌, None, if◌then◌else◌};
    ghost use Rattle.broker_links.specs.Spawning.{IsNew, child_of, program_of, sent_of, finished_of};

    /// A spawner whose child has this output, of which no call was made.
    ///
    /// `piece`, at least 1, is the most bytes that one read gives; `failing` has the numbers of the
    /// calls that are to fail. Refused for want of memory alone.
    pub fn new(
        alloc: Global,
        output: Octets,
        piece: usize,
        failing: List<u64>,
    ) -> OrMemory<MemorySpawner>
        requires { 0 < piece }
        ensures new { IfOk result (IsNew output piece failing) }
    {
        Ok(MemorySpawner {
            alloc,
            output,
            piece,
            child: None,
            calls: CallNumbers::new(failing),
            faults: FaultCount::new(),
        })
    }

    /// The program that was started, and None exactly where no start was Ok.
    pub fn program(&self) -> Option<&str>
        ensures { option_copied result ≡ option_map program_of (child_of self.now) }
    {
        match &self.child {
            Some(child) => Some(child.program()),
            None => None,
        }
    }

    /// All bytes that were written to the child, for index 0, and None exactly for another index and
    /// where no start was Ok.
    pub fn written(&self, index: u64) -> Option<&[u8]>
        ensures { option_copied result ≡ (if index == 0 then option_map sent_of (child_of self.now) else None) }
    {
        match &self.child {
            Some(child) if index == 0 => Some(child.written()),
            _ => None,
        }
    }

    /// Whether the finish that ended the child worked, and None exactly where none has ended one.
    pub fn finished(&self) -> Option<bool>
        ensures { result ≡ option_and_then finished_of (child_of self.now) }
    {
        match &self.child {
            Some(child) => child.finished(),
            None => None,
        }
    }
}

impl Source for MemorySpawner {
    ghost use Rattle.std.specs.Prelude.{is_ok};
    ghost use Rattle.broker_links.specs.Children.{stream_in};
    ghost use Rattle.broker_links.specs.Spawning.{child_of, faults_of, piece_of, works_there, KeepsRead, Takes};
    ghost use Rattle.broker_links.specs.ChildLaws.{reads_none, reads_on};
    ghost use Rattle.base_types.specs.Causes.{HasCause};
    ghost use Rattle.outside_core.specs.Stream.{Reads};

    ghost told = { Unit {0} };

    ghost read_faults = { faults_of };

    ghost stream = { λ m. stream_in (child_of m) };

    ghost keeps = { KeepsRead };

    ghost keeps_itself = { reads_none };

    ghost keeps_on = { reads_on };

    /// A read that works gives a piece, or what is left of the output where that is less, as far as the
    /// buffer goes.
    fn read(&mut self, buf: &mut [u8]) -> Result<usize, Failed>
        requires { 0 < length buf.old }
        ensures within { IfOk result (λ n. n ≤ length buf.new) }
        ensures cause { HasCause (faults_of self.old) (faults_of self.new) result }
        ensures stream { Reads buf.new result (stream_in (child_of self.old)) (stream_in (child_of self.new)) }
        ensures keeps { KeepsRead self.old self.new }
        ensures piece { IfOk result (λ n. n ≡ min (min (length (stream_in (child_of self.old)).rest) (piece_of self.old)) (length buf.old)) }
        ensures works { is_ok result ≡ works_there self.old }
        ensures number { Takes self.old self.new }
    {
        let works = self.calls.begin();
        match &mut self.child {
            Some(child) if works && child.is_there() => Ok(child.read(self.piece, buf)),
            _ => Err(self.faults.failed()),
        }
    }
}

impl Spawner for MemorySpawner {
    ghost use Rattle.std.specs.Prelude.{refl, is_ok};
    ghost use Rattle.broker_links.specs.Children.{Starts, WritesTo, Finishes};
    ghost use Rattle.broker_links.specs.Spawning.{child_of, faults_of, works_there, Takes, TakesStart, TakesWrite};
    ghost use Rattle.base_types.specs.Causes.{HasCause};

    ghost faults = { faults_of };

    ghost child = { child_of };

    ghost counts_reads = { λ s. refl };

    ghost streams = { λ s told. refl };

    ghost reads_keep = { λ old new keeps told. keeps.alone };

    fn start(&mut self, program: &str) -> Result<(), Failed>
        ensures cause { HasCause (faults_of self.old) (faults_of self.new) result }
        ensures contents { Starts program.now result (child_of self.old) (child_of self.new) }
        ensures number { TakesStart program.now result self.old self.new }
    {
        let works = self.calls.begin();
        if !works || self.child.is_some() {
            return Err(self.faults.failed());
        }
        match Child::begin(self.alloc, program, &self.output) {
            Ok(child) => {
                self.child = Some(child);
                Ok(())
            }
            Err(_) => Err(self.faults.failed()),
        }
    }

    fn write(&mut self, bytes: &[u8]) -> Result<(), Failed>
        ensures cause { HasCause (faults_of self.old) (faults_of self.new) result }
        ensures contents { WritesTo bytes.now result (child_of self.old) (child_of self.new) }
        ensures number { TakesWrite bytes.now result self.old self.new }
    {
        let works = self.calls.begin();
        match &mut self.child {
            Some(child) if child.is_there() => {
                if child.write(works, bytes) {
                    Ok(())
                } else {
                    Err(self.faults.failed())
                }
            }
            _ => Err(self.faults.failed()),
        }
    }

    fn finish(&mut self) -> Result<(), Failed>
        ensures cause { HasCause (faults_of self.old) (faults_of self.new) result }
        ensures contents { Finishes result (child_of self.old) (child_of self.new) }
        ensures works { is_ok result ≡ works_there self.old }
        ensures number { Takes self.old self.new }
    {
        let works = self.calls.begin();
        match &mut self.child {
            Some(child) if child.is_there() => {
                child.end(works);
                if works {
                    Ok(())
                } else {
                    Err(self.faults.failed())
                }
            }
            _ => Err(self.faults.failed()),
        }
    }
}
