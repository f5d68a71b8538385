// One frame off a source.
ghost use Rattle.std.specs.Prelude.{◌≡◌, ◌+◌, ◌<◌, ◌≤◌, length};
ghost use Rattle.base_types.specs.Causes.{CausedBy};
ghost use Rattle.frames.specs.Nexts.{Nexts, Bodies, Grows, IsReadFault};
ghost use Rattle.frames.specs.Filling.{TookSome};

use crate::budget::Budget;
use crate::fill::{Fill, fill_from};
use base_types::{Octets, u32_from_be_bytes, zeros};
use outside_core::Source;
use std::alloc::Global;

/// What a look for the next frame gives.
#[derive(Drop)]
pub enum Next {
    /// A frame came whole.
    Got { kind: u8, body: Octets },
    /// The input ended before another frame.
    Whole,
    /// A head says a length above the limit.
    Long,
    /// The input ended inside a frame.
    Cut,
    /// A byte is needed, and no more may be taken.
    Spent,
    ReadFault,
    NoMemory,
}

/// Takes the next frame, and no byte behind it. Its body has at most `limit` bytes: the body of a frame
/// that says more is not awaited, and takes no memory.
///
/// `ReadFault` exactly where the count of failed reads rose in this call.
pub fn next_frame<S: Source>(
    alloc: Global,
    source: &mut S,
    limit: usize,
    budget: &mut Budget,
) -> Next
    ensures next { S.told → Nexts limit budget.new.most budget.new.taken (S.stream source.old).rest (S.stream source.new).rest result }
    ensures took { S.told → TookSome budget.old.taken budget.new.taken (S.stream source.old) (S.stream source.new) }
    ensures grows { Grows budget.old.taken budget.new.taken result }
    ensures most { budget.new.most ≡ budget.old.most }
    ensures cause { CausedBy (IsReadFault result) (S.read_faults source.old) (S.read_faults source.new) }
    ensures keeps { S.keeps source.old source.new }
{
    let mut head = [0u8; 5];
    match fill_from(source, &mut head, budget) {
        Fill::Full => {}
        Fill::Ended(0) => return Next::Whole,
        Fill::Ended(_) => return Next::Cut,
        Fill::Spent(_) => return Next::Spent,
        Fill::Failed(_) => return Next::ReadFault,
    }
    let [kind, a, b, c, d] = head;
    let size = u32_from_be_bytes(a, b, c, d) as usize;
    if size > limit {
        return Next::Long;
    }
    read_body(alloc, source, budget, kind, size)
}

// Takes the body of a frame of this kind, of so many bytes.
fn read_body<S: Source>(
    alloc: Global,
    source: &mut S,
    budget: &mut Budget,
    kind: u8,
    size: usize,
) -> Next
    ensures body { S.told → Bodies budget.new.most kind size budget.new.taken (S.stream source.old) (S.stream source.new) result }
    ensures took { S.told → TookSome budget.old.taken budget.new.taken (S.stream source.old) (S.stream source.new) }
    ensures later { budget.old.taken ≤ budget.new.taken }
    ensures most { budget.new.most ≡ budget.old.most }
    ensures cause { CausedBy (IsReadFault result) (S.read_faults source.old) (S.read_faults source.new) }
    ensures keeps { S.keeps source.old source.new }
{
    if size == 0 {
        return Next::Got {
            kind,
            body: Octets::new(alloc),
        };
    }
    let Ok(mut body) = zeros(alloc, size) else {
        return Next::NoMemory;
    };
    match fill_from(source, &mut body, budget) {
        Fill::Full => Next::Got {
            kind,
            body: Octets::from_vec(body),
        },
        Fill::Ended(_) => Next::Cut,
        Fill::Spent(_) => Next::Spent,
        Fill::Failed(_) => Next::ReadFault,
    }
}
