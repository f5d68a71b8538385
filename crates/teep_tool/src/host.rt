// Files and a printed text, as the tool meets them.
ghost use Rattle.std.specs.Prelude.{◌≡◌, ◌≤◌, ℕ};
ghost use Rattle.base_types.specs.Causes.{HasCause};
ghost use Rattle.teep_tool.specs.Contents.{Contents};
ghost use Rattle.teep_tool.specs.Calls.{ReadCause, ReadsFile, PrintsText};

use base_types::{Failed, Octets};
use thiserror::Error;

/// Why a file was not read.
#[derive(Clone, Copy, Debug, Eq, Error, PartialEq)]
pub enum HostFault {
    /// The host failed: there is no such file, or it could not be read.
    #[error("the host failed")]
    Failed,
    /// The file is longer than `FILE_LIMIT`.
    #[error("the file is longer than 2^29 bytes")]
    Long,
    /// No memory was left.
    #[error("no memory is left")]
    NoMemory,
}

/// The files that the tool reads, and the text that it prints.
///
/// The count of faults is always told. The files and the printed text are told by some hosts alone
/// (`told`): a host in memory tells them, one over the system's files does not. Whether it tells them
/// belongs to the type, and so never changes.
pub trait Host {
    /// Whether the contents are told.
    ghost told: { Type 0 };

    /// How often the host has failed. A count that has reached the end of its type stays there.
    ghost faults: { Self → ℕ };

    /// What the host holds.
    ghost now: { Self → Contents };

    /// The bytes of the named file.
    ///
    /// `Failed` only where the count of faults rose in this call, as it does where no file has the name.
    /// `Long` exactly where the call met no fault and the file is longer than `FILE_LIMIT`. Nothing that
    /// is told but the count changes.
    fn read_file(&mut self, name: &str) -> Result<Octets, HostFault>
        ensures cause { ReadCause (faults self.old) (faults self.new) result }
        ensures contents { told → ReadsFile name.now result (now self.old) (now self.new) };

    /// Prints the text.
    ///
    /// `Failed` only where the count of faults rose in this call; a front of the text is printed then,
    /// perhaps none. No file changes.
    fn print(&mut self, text: &str) -> Result<(), Failed>
        ensures cause { HasCause (faults self.old) (faults self.new) result }
        ensures contents { told → PrintsText text.now result (now self.old) (now self.new) };
}
