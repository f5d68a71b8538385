// Standard input, standard output and a file.
ghost use Rattle.std.specs.Prelude.{◌≡◌, ◌+◌, ◌≤◌, ◌<◌, length, false, IfOk, IsNone, OnErr};
ghost use Rattle.base_types.specs.Causes.{HasCause};
ghost use Rattle.board_core.specs.Faulted.{no_faults};
ghost use Rattle.board_core.specs.Calls.{ReadAlone, SendCause, DiskCause};
ghost use Rattle.board_core.specs.Files.{file_view, StaysUnusable, FailsUnusable};

use crate::board::Board;
use crate::fault_counts::FaultCounts;
use base_types::Failed;
use outside_core::Source;
use std::fs;
use std::fs::{File, OpenFile, OpenOptions};
use std::io::{ErrorKind, Read};
use std::marker::Model;
use std::os::fd::AsRawFd;
use std::os::unix::fs::FileExt;
use std::rt::Files;

// The standard streams have the descriptors below this one.
const FIRST_FREE: i32 = 3;

/// A board over standard input, standard output and a named file.
///
/// It tells its counts of faults and its size alone. What the file, the input and the output then hold
/// is the system's affair: that the disk model of `Board` holds of the file is a premise.
///
/// The file is locked, so that no other board has it for as long as this one lives. Behind a sync that
/// failed each further disk call fails, since nothing tells what of the file is durable then.
#[derive(Drop)]
pub struct FileBoard<'a, R: Files<File = File>> {
    rt: &'a R,
    // these stand where a standard stream is closed, so that no file gets its descriptor
    closed: [Option<File>; 3],
    file: Option<File>,
    size: u64,
    usable: bool,
    counts: FaultCounts,
}

impl<'a, R: Files<File = File>> Model for FileBoard<'a, R> {
    ghost use Rattle.board_core.specs.Faulted.{faults_in};
    ghost use Rattle.board_core.specs.Files.{FileTold};

    ghost Value = { FileTold };

    ghost view = { λ b. record { faults = faults_in b.counts; extent = b.size; usable = b.usable } };
}

// Takes a descriptor of a standard stream that is closed: to read it ends, and to write it fails.
fn take_closed<R: Files<File = File>>(rt: &R) -> Option<File> {
    let file = fs::open(rt, "/dev/null").ok()?;
    if file.as_raw_fd() < FIRST_FREE {
        Some(file)
    } else {
        None
    }
}

// The file, for reading and writing, and its length. It is locked, and none where another has the lock.
fn open<R: Files<File = File>>(rt: &R, name: &str) -> Option<(File, u64)> {
    let mut how = OpenOptions::new();
    how.read(true);
    how.write(true);
    let file = how.open(rt, name).ok()?;
    if file.as_raw_fd() < FIRST_FREE {
        return None;
    }
    file.try_lock().ok()?;
    let size = file.metadata().ok()?.len();
    Some((file, size))
}

// Reads what comes next. A read that was interrupted is made again.
fn read_some<R: Input>(rt: &R, buf: &mut [u8]) -> Result<usize, Failed>
    ensures within { IfOk result (λ n. n ≤ length buf.new) }
{
    for _ in 0..u64::MAX {
        match rt.reader().read(buf) {
            Ok(count) => return Ok(count),
            Err(error) if error.kind() == ErrorKind::Interrupted => {}
            Err(_) => return Err(Failed),
        }
    }
    Err(Failed)
}

impl<'a, R: Input + Print + Files<File = File>> FileBoard<'a, R> {
    /// The board whose image is the named file, with the length that it has now.
    ///
    /// Where the file cannot be opened for reading and writing, or another board has it, each disk call
    /// fails and `size()` is 0. Where standard input is closed, a read fails or ends; where standard
    /// output is, a send fails.
    pub fn new(rt: &'a R, file: &str) -> FileBoard<'a, R>
        ensures faults { result.faults ≡ no_faults }
        ensures unusable { result.usable ≡ false → result.extent ≡ 0 }
    {
        let closed = [take_closed(rt), take_closed(rt), take_closed(rt)];
        let counts = FaultCounts::new();
        match open(rt, file) {
            Some((file, size)) => FileBoard {
                rt,
                closed,
                file: Some(file),
                size,
                usable: true,
                counts,
            },
            None => FileBoard {
                rt,
                closed,
                file: None,
                size: 0,
                usable: false,
                counts,
            },
        }
    }

    // The file, where it can be used.
    fn usable_file(&self) -> Option<&File>
        ensures unusable { self.now.usable ≡ false → IsNone result }
    {
        if self.usable {
            self.file.as_ref()
        } else {
            None
        }
    }
}

impl<'a, R: Input + Print + Files<File = File>> Source for FileBoard<'a, R> {
    ghost use Rattle.board_core.specs.ReadLaws.{reads_none, reads_both};

    ghost told = { ⊥ };

    ghost read_faults = { λ b. b.faults.read };

    ghost stream = { λ b. (file_view b).now.stream };

    ghost keeps = { λ old new. ReadAlone ⊥ (file_view old) (file_view new) };

    ghost keeps_itself = { λ b. reads_none ⊥ (file_view b) };

    ghost keeps_on = { λ old mid new first second. reads_both first second };

    fn read(&mut self, buf: &mut [u8]) -> Result<usize, Failed>
        requires { 0 < length buf.old }
        ensures within { IfOk result (λ n. n ≤ length buf.new) }
        ensures cause { HasCause self.old.faults.read self.new.faults.read result }
        ensures keeps { ReadAlone ⊥ (file_view self.old) (file_view self.new) }
        ensures lost { StaysUnusable self.old self.new }
    {
        match read_some(self.rt, buf) {
            Ok(count) => Ok(count),
            Err(_) => Err(self.counts.read.failed()),
        }
    }
}

impl<'a, R: Input + Print + Files<File = File>> Board for FileBoard<'a, R> {
    ghost use Rattle.std.specs.Prelude.{refl};

    ghost view = { file_view };

    ghost reads_faults = { λ b. refl };

    ghost reads_stream = { λ b told. absurd told };

    ghost reads_keep = { λ old new keeps. keeps };

    ghost laws = { λ b told. absurd told };

    fn send(&mut self, bytes: &[u8]) -> Result<(), Failed>
        ensures cause { SendCause (file_view self.old) (file_view self.new) result }
        ensures lost { StaysUnusable self.old self.new }
    {
        match Print::write_all(self.rt, bytes) {
            Ok(()) => Ok(()),
            Err(_) => Err(self.counts.send.failed()),
        }
    }

    fn size(&self) -> u64 {
        self.size
    }

    fn load(&mut self, at: u64, buf: &mut [u8]) -> Result<(), Failed>
        requires { at + length buf.old ≤ self.old.extent }
        ensures cause { DiskCause (file_view self.old) (file_view self.new) result }
        ensures unusable { FailsUnusable self.old result }
        ensures lost { StaysUnusable self.old self.new }
    {
        match self.usable_file() {
            Some(file) if file.read_exact_at(buf, at).is_ok() => Ok(()),
            _ => Err(self.counts.disk.failed()),
        }
    }

    fn put(&mut self, at: u64, bytes: &[u8]) -> Result<(), Failed>
        requires { at + length bytes.now ≤ self.old.extent }
        ensures cause { DiskCause (file_view self.old) (file_view self.new) result }
        ensures unusable { FailsUnusable self.old result }
        ensures lost { StaysUnusable self.old self.new }
    {
        match self.usable_file() {
            Some(file) if file.write_all_at(bytes, at).is_ok() => Ok(()),
            _ => Err(self.counts.disk.failed()),
        }
    }

    /// Behind one that fails, each further call of the disk fails.
    fn sync(&mut self) -> Result<(), Failed>
        ensures cause { DiskCause (file_view self.old) (file_view self.new) result }
        ensures unusable { FailsUnusable self.old result }
        ensures lost { StaysUnusable self.old self.new }
        ensures failed { OnErr result (self.new.usable ≡ false) }
    {
        match self.usable_file() {
            Some(file) if file.sync_data().is_ok() => Ok(()),
            _ => {
                self.usable = false;
                Err(self.counts.disk.failed())
            }
        }
    }
}
