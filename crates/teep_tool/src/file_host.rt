// Files of the system, and standard output.
ghost use Rattle.std.specs.Prelude.{◌≡◌, ◌≤◌, ◌+◌, ℕ, [], length, None, IfOk, IfSome};

use crate::host::{Host, HostFault};
use base_types::{FILE_LIMIT, Failed, Octets};
use outside_core::FaultCount;
use std::alloc::Global;
use std::fs::{File, OpenFile};
use std::io::{self, ErrorKind, Read};
use std::rt::Files;

/// A host over the system's files and standard output.
///
/// It tells its count of faults alone. What a file holds, and where the printed text goes, is the
/// system's affair.
#[derive(Drop)]
pub struct FileHost<'a, R: Files + Print> {
    rt: &'a R,
    alloc: Global,
    faults: FaultCount,
}

impl<'a, R: Files + Print> FileHost<'a, R> {
    /// A host that has met no fault.
    pub fn new(rt: &'a R, alloc: Global) -> FileHost<'a, R>
        ensures { result.faults ≡ 0 }
    {
        FileHost {
            rt,
            alloc,
            faults: FaultCount::new(),
        }
    }
}

// The bytes of a file, and None where they are more than the limit.
fn read_limited<R: Files>(rt: &R, alloc: Global, name: &str) -> io::Result<Option<Vec<u8>>>
    ensures { IfOk result (λ found. IfSome found (λ bytes. length bytes.items ≤ FILE_LIMIT)) }
{
    let file = File::open(rt, name)?;
    if file.metadata()?.len() > FILE_LIMIT as u64 {
        return Ok(None);
    }
    let mut bytes = Vec::new(alloc);
    // A file that grows meanwhile, or a device, is not read further.
    file.take(FILE_LIMIT as u64 + 1).read_to_end(&mut bytes)?;
    if bytes.len() > FILE_LIMIT {
        return Ok(None);
    }
    Ok(Some(bytes))
}

impl<'a, R: Files + Print> Host for FileHost<'a, R> {
    ghost told = { ⊥ };

    ghost faults = { λ h. h.faults };

    ghost now = { λ h. record { files = λ name. None; printed = [] } };

    fn read_file(&mut self, name: &str) -> Result<Octets, HostFault> {
        match read_limited(self.rt, self.alloc, name) {
            Ok(Some(bytes)) => Ok(Octets::from_vec(bytes)),
            Ok(None) => Err(HostFault::Long),
            Err(error) if error.kind() == ErrorKind::OutOfMemory => Err(HostFault::NoMemory),
            Err(_) => {
                self.faults.failed();
                Err(HostFault::Failed)
            }
        }
    }

    fn print(&mut self, text: &str) -> Result<(), Failed> {
        match Print::write_all(self.rt, text.as_bytes()) {
            Ok(()) => Ok(()),
            Err(_) => Err(self.faults.failed()),
        }
    }
}
