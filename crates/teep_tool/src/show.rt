// What `show` does: it reads a file and prints the diagnostic text of its item, or why it spells none.
ghost use Rattle.std.specs.Prelude.{◌≡◌, ◌≢◌, ◌≤◌, ℕ, List, Some, IfOk, string_bytes};
ghost use Rattle.base_types.specs.Causes.{Rose, CausedBy};
ghost use Rattle.teep_tool.specs.Show.{Showed, CallsFor};
ghost use Rattle.teep_tool.specs.Showing.{IsLine, ShowedBytes};
ghost use Rattle.teep_tool.specs.declared.status.Status.{Status};

use crate::host::{Host, HostFault};
use crate::status::Status;
use base_types::{NoMemory, OrMemory};
use cbor_core::{CborFault, decode_whole};
use diag_text::print;
use std::alloc::Global;

// A line that a file is shown as, and the status with which it is printed.
#[derive(Drop)]
struct Line {
    status: Status,
    text: String,
}

// The line of some bytes.
fn line_of(alloc: Global, bytes: &[u8]) -> OrMemory<Line>
    ensures { IfOk result (λ line. IsLine bytes.now line.status (string_bytes line.text)) }
{
    match decode_whole(alloc, bytes) {
        Ok(item) => {
            let mut text = print(alloc, &item)?.into_string();
            text.push_str("\n")?;
            Ok(Line {
                status: Status::Done,
                text,
            })
        }
        Err(CborFault::Bad(fault)) => Ok(Line {
            status: Status::Refused,
            text: format!(in alloc; "refused: {fault}\n")?,
        }),
        Err(CborFault::NoMemory) => Err(NoMemory),
    }
}

// Prints what some bytes are shown as.
fn show_bytes<H: Host>(alloc: Global, bytes: &[u8], host: &mut H) -> Status
    ensures showed { H.told → ShowedBytes bytes.now result (H.now host.old) (H.now host.new) }
    ensures cause { CausedBy (result ≡ Status.HostFault) (H.faults host.old) (H.faults host.new) }
    ensures words { result ≢ Status.Usage }
{
    let Ok(line) = line_of(alloc, bytes) else {
        return Status::NoMemory;
    };
    match host.print(line.text.as_str()) {
        Ok(()) => line.status,
        Err(_) => Status::HostFault,
    }
}

/// Shows a file.
pub fn show<H: Host>(alloc: Global, name: &str, host: &mut H) -> Status
    ensures showed { H.told → Showed name.now result (H.now host.old) (H.now host.new) }
    ensures exactly { H.told →
        (Rose (H.faults host.old) (H.faults host.new) → ⊥) →
        result ≢ Status.NoMemory →
        (bytes : List ℕ) (status : Status) → (H.now host.old).files name.now ≡ Some bytes → CallsFor bytes status →
        result ≡ status }
    ensures cause { CausedBy (result ≡ Status.HostFault) (H.faults host.old) (H.faults host.new) }
    ensures words { result ≢ Status.Usage }
{
    match host.read_file(name) {
        Ok(bytes) => show_bytes(alloc, bytes.as_slice(), host),
        Err(HostFault::Failed) => Status::HostFault,
        Err(HostFault::Long) => Status::LongFile,
        Err(HostFault::NoMemory) => Status::NoMemory,
    }
}
