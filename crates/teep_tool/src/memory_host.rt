// A host in memory, for tests and for whoever holds the files already.
ghost use Rattle.std.specs.Prelude.{◌≡◌, Some, Err, option_map, IsErr, OnErr, false};
ghost use Rattle.teep_tool.specs.Calls.{Gives};
ghost use Rattle.teep_tool.specs.Memory.{file_in};

use crate::host::{Host, HostFault};
use base_types::{FILE_LIMIT, Failed, List, Octets, Utf8};
use outside_core::{CallNumbers, FaultCount};
use std::alloc::Global;

/// A file of a host in memory.
#[derive(Debug, Drop)]
pub struct Named {
    pub name: Utf8,
    pub bytes: Octets,
}

/// A host in memory that tells everything, and fails where it is told to.
///
/// Its calls are numbered from 0 together. Those whose number is in `failing` fail: they raise the count
/// and do nothing else. A read fails also where no file has the name, and a print where no room is found.
/// Where files have one name, the first counts.
#[derive(Drop)]
pub struct MemoryHost {
    alloc: Global,
    files: List<Named>,
    printed: String,
    calls: CallNumbers,
    faults: FaultCount,
}

// The bytes of the first file that has the name.
fn file_of<'a>(files: &'a [Named], name: &str) -> Option<&'a [u8]>
    ensures { option_map (λ bytes. bytes.now) result ≡ file_in files.now name.now }
{
    for file in files {
        if file.name.as_str() == name {
            return Some(file.bytes.as_slice());
        }
    }
    None
}

impl MemoryHost {
    ghost use Rattle.base_types.specs.Causes.{HasCause};
    ghost use Rattle.teep_tool.specs.Calls.{ReadCause};
    ghost use Rattle.teep_tool.specs.Memory.{IsNew, contents, faults_of, works, TakesNumber};

    /// A host with these files, of which no call was made and which has printed nothing.
    ///
    /// `failing` has the numbers of the calls that are to fail.
    pub fn new(alloc: Global, files: List<Named>, failing: List<u64>) -> MemoryHost
        ensures is_new { IsNew files failing result }
    {
        MemoryHost {
            alloc,
            files,
            printed: String::new(alloc),
            calls: CallNumbers::new(failing),
            faults: FaultCount::new(),
        }
    }

    /// The bytes of a file. None exactly where none has the name.
    pub fn file(&self, name: &str) -> Option<&[u8]>
        ensures file { option_map (λ bytes. bytes.now) result ≡ (contents self.now).files name.now }
    {
        file_of(self.files.as_slice(), name)
    }

    /// What was printed.
    pub fn printed(&self) -> &str
        ensures printed { result.now ≡ (contents self.now).printed }
    {
        self.printed.as_str()
    }

    // Takes the next number, and says whether the call works.
    fn begins(&mut self) -> bool
        ensures works { result ≡ works self.old }
        ensures number { TakesNumber self.old self.new }
        ensures contents { contents self.new ≡ contents self.old }
        ensures faults { faults_of self.new ≡ faults_of self.old }
    {
        self.calls.begin()
    }

    // Counts a fault.
    fn failed(&mut self) -> Failed
        ensures cause { HasCause {T = Unit {0}} (faults_of self.old) (faults_of self.new) (Err result) }
        ensures others { self.new ≡ record self.old { faults = self.new.faults } }
    {
        self.faults.failed()
    }

    // Counts a fault of a read.
    fn read_failed(&mut self) -> HostFault
        ensures cause { ReadCause (faults_of self.old) (faults_of self.new) (Err result) }
        ensures others { self.new ≡ record self.old { faults = self.new.faults } }
        ensures fault { result ≡ HostFault.Failed }
    {
        self.failed();
        HostFault::Failed
    }
}

// A copy of a file, where it is not too long.
fn copied(alloc: Global, bytes: &[u8]) -> Result<Octets, HostFault>
    ensures gives { Gives (Some bytes.now) result }
    ensures fault { result ≡ Err HostFault.Failed → ⊥ }
{
    if bytes.len() > FILE_LIMIT {
        return Err(HostFault::Long);
    }
    match Octets::from_slice(alloc, bytes) {
        Ok(copy) => Ok(copy),
        Err(_) => Err(HostFault::NoMemory),
    }
}

impl Host for MemoryHost {
    ghost use Rattle.base_types.specs.Causes.{HasCause};
    ghost use Rattle.teep_tool.specs.Calls.{ReadCause, ReadsFile, PrintsText};
    ghost use Rattle.teep_tool.specs.Memory.{contents, faults_of, works, TakesNumber, ReadAnswers};

    ghost told = { Unit {0} };

    ghost faults = { faults_of };

    ghost now = { contents };

    fn read_file(&mut self, name: &str) -> Result<Octets, HostFault>
        ensures cause { ReadCause (faults_of self.old) (faults_of self.new) result }
        ensures contents { ReadsFile name.now result (contents self.old) (contents self.new) }
        ensures number { TakesNumber self.old self.new }
        ensures answer { ReadAnswers (works self.old) ((contents self.old).files name.now) result }
    {
        if !self.begins() {
            return Err(self.read_failed());
        }
        match file_of(self.files.as_slice(), name) {
            Some(bytes) => copied(self.alloc, bytes),
            None => Err(self.read_failed()),
        }
    }

    fn print(&mut self, text: &str) -> Result<(), Failed>
        ensures cause { HasCause (faults_of self.old) (faults_of self.new) result }
        ensures contents { PrintsText text.now result (contents self.old) (contents self.new) }
        ensures number { TakesNumber self.old self.new }
        ensures works { works self.old ≡ false → IsErr result }
        ensures err { OnErr result (contents self.new ≡ contents self.old) }
    {
        if self.begins() && self.printed.push_str(text).is_ok() {
            return Ok(());
        }
        Err(self.failed())
    }
}
