ghost use Rattle.std.specs.Prelude.{◌≡◌};

use base_types::NoMemory;
use thiserror::Error;

/// Why bytes were not read as a change.
#[derive(Clone, Copy, Debug, Eq, Error, PartialEq)]
pub enum ChangeFault {
    /// They are none.
    #[error("BadChange")]
    BadChange,
    /// No memory was left.
    #[error("no memory is left")]
    NoMemory,
}

impl From<NoMemory> for ChangeFault {
    ghost use Rattle.commit_records.specs.declared.fault.ChangeFault.TheVariants as faults;

    ghost from_gives = { λ _ e. e ≡ faults.NoMemory };

    fn from(_: NoMemory) -> ChangeFault {
        ChangeFault::NoMemory
    }
}
