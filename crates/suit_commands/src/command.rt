use crate::parameters::Parameters;
use base_types::{List, NESTING_LIMIT};

/// How many levels of sequences there may be: one that stands alone, and 8 inside one another in it.
pub(crate) const SEQUENCE_LEVELS: u8 = NESTING_LIMIT + 1;

/// A command sequence, its commands in order.
pub type Sequence = List<Command>;

/// A command of a sequence, with its number and its argument.
#[derive(Debug, Drop, Eq, PartialEq)]
pub enum Command {
    /// 1, a condition: the vendor's identifier is the device's. The number is its reporting policy, as
    /// in all commands but the index and those that hold parameters or sequences.
    Vendor(u64),
    /// 2, a condition: the class's identifier is the device's.
    Class(u64),
    /// 3, a condition: the image has the digest.
    ImageMatch(u64),
    /// 24, a condition: the device's identifier is its own.
    Device(u64),
    /// 14, a condition that never holds.
    Abort(u64),
    /// 18: the content is written to the component.
    Write(u64),
    /// 21: the component is fetched from where the URI says.
    Fetch(u64),
    /// 22: the component is copied from another.
    Copy(u64),
    /// 12: the component that the commands behind are about, by its index.
    SetIndex(u64),
    /// 15: the first alternative that succeeds counts. Where `null_last` is true, a last one that does
    /// nothing and succeeds stands behind them. There is an alternative, or `null_last` is true.
    TryEach {
        alternatives: List<Sequence>,
        null_last: bool,
    },
    /// 20: the parameters that are there are set.
    Override(Parameters),
    /// 32: the sequence is run.
    RunSequence(Sequence),
}
