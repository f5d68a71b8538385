ghost use Rattle.std.specs.Prelude.{◌≡◌, ◌≢◌, ◌≤◌, ◌↔◌, ℕ, List, Some};
ghost use Rattle.base_types.specs.Causes.{Rose, CausedBy};
ghost use Rattle.teep_tool.specs.Words.{IsShow, IsCommand};
ghost use Rattle.teep_tool.specs.Statuses.{number_of};
ghost use Rattle.teep_tool.specs.Show.{Ran, CallsFor};
ghost use Rattle.teep_tool.specs.declared.status.Status.{Status};

use crate::host::Host;
use crate::show::show;
use crate::status::Status;
use crate::words::shown_file;
use std::alloc::Global;
use std::thread::Threads;

/// Runs the tool: the words of the command line, and a host for files and printing. The answer is the
/// number of a `Status`.
///
/// The words are looked at first: 2 (Usage) exactly where they are no command, and the host is untouched
/// then. The one command is `show FILE`. It prints the diagnostic text of the item that the file spells,
/// and a newline, and answers 0; or `refused: `, the fault, as in `LongForm at 0`, and a newline, and
/// answers 1. A file longer than `FILE_LIMIT` is not shown: 4. The answer is 3 only where the host's count
/// of faults rose in this call; nothing, or a front of the line, is printed then. At 9 there was no memory,
/// and nothing is printed. No file changes.
pub fn run_tool<R: Threads + Sync, H: Host>(
    _rt: &R,
    alloc: Global,
    words: &[String],
    host: &mut H,
) -> u8
    ensures usage { result ≡ number_of Status.Usage ↔ (IsCommand words.now → ⊥) }
    ensures untouched { result ≡ number_of Status.Usage → host.new ≡ host.old }

    // What was printed, by the status.
    ensures ran { H.told → (name : List ℕ) → IsShow words.now name → Ran name result (H.now host.old) (H.now host.new) }

    // Where the host did not fail and memory sufficed, the file decides.
    ensures exactly { H.told →
        (Rose (H.faults host.old) (H.faults host.new) → ⊥) →
        result ≢ number_of Status.NoMemory →
        (name bytes : List ℕ) (status : Status) → IsShow words.now name → (H.now host.old).files name ≡ Some bytes → CallsFor bytes status →
        result ≡ number_of status }
    ensures cause { CausedBy (result ≡ number_of Status.HostFault) (H.faults host.old) (H.faults host.new) }
{
    let status = match shown_file(words) {
        Some(name) => show(alloc, name, host),
        None => Status::Usage,
    };
    status.number()
}
