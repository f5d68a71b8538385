// A buffer is filled from a source, piece by piece. Nothing else of this crate reads.
ghost use Rattle.std.specs.Prelude.{◌≡◌, ◌+◌, ◌<◌, ◌≤◌, length, take, IfOk};
ghost use Rattle.base_types.specs.Causes.{HasCause, CausedBy};
ghost use Rattle.outside_core.specs.Stream.{Took};
ghost use Rattle.frames.specs.Filling.{count_of, Why, IsFailed, ReadsAt};

use crate::budget::Budget;
use base_types::Failed;
use outside_core::Source;

/// How far a buffer was filled, in bytes.
#[derive(Clone, Copy, Debug, Eq, PartialEq)]
pub enum Fill {
    Full,
    /// The input has ended.
    Ended(usize),
    /// No more may be taken from the input.
    Spent(usize),
    /// A read failed.
    Failed(usize),
}

/// Fills the buffer, unless the input ends, the budget is spent or a read fails.
pub fn fill_from<S: Source>(source: &mut S, buf: &mut [u8], budget: &mut Budget) -> Fill
    ensures within { count_of (length buf.new) result ≤ length buf.new }
    ensures counted { budget.new.taken ≡ budget.old.taken + count_of (length buf.new) result }
    ensures most { budget.new.most ≡ budget.old.most }
    ensures took { S.told → Took (take (count_of (length buf.new) result) buf.new) (S.stream source.old) (S.stream source.new) }
    ensures why { S.told → Why budget.new.most budget.new.taken (S.stream source.new).rest (length buf.new) result }
    ensures cause { CausedBy (IsFailed result) (S.read_faults source.old) (S.read_faults source.new) }
    ensures keeps { S.keeps source.old source.new }
{
    let mut n = 0;
    while n < buf.len() {
        let room = budget.most - budget.taken;
        if room == 0 {
            return Fill::Spent(n);
        }
        let most = room.min((buf.len() - n) as u64) as usize;
        match read_at(source, buf, n, most) {
            Ok(0) => return Fill::Ended(n),
            Ok(count) => {
                n += count;
                budget.taken += count as u64;
            }
            Err(_) => return Fill::Failed(n),
        }
    }
    Fill::Full
}

// Reads at most so many bytes behind the first n of the buffer.
fn read_at<S: Source>(
    source: &mut S,
    buf: &mut [u8],
    n: usize,
    most: usize,
) -> Result<usize, Failed>
    requires some { 0 < most }
    requires fits { n + most ≤ length buf.old }
    ensures within { IfOk result (λ count. count ≤ most) }
    ensures front { take n buf.new ≡ take n buf.old }
    ensures cause { HasCause (S.read_faults source.old) (S.read_faults source.new) result }
    ensures reads { S.told → ReadsAt n buf.new result (S.stream source.old) (S.stream source.new) }
    ensures keeps { S.keeps source.old source.new }
{
    source.read(&mut buf[n..n + most])
}
