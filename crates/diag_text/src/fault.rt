ghost use Rattle.std.specs.Prelude.{◌≡◌};

use base_types::NoMemory;
use std::alloc::{AllocError, AllocFailed};
use thiserror::Error;

/// The place of the first fault of a text: how many bytes stand before it.
#[derive(Clone, Copy, Debug, Eq, Error, PartialEq)]
#[error("Text at {at}")]
pub struct TextFault {
    pub at: usize,
}

/// Why a diagnostic text was not read.
#[derive(Clone, Copy, Debug, Eq, Error, PartialEq)]
pub enum DiagFault {
    /// The text is not that of a proper item, and this is its first fault.
    #[error("{0}")]
    Bad(TextFault),
    /// No memory was left.
    #[error("no memory is left")]
    NoMemory,
}

impl From<NoMemory> for DiagFault {
    ghost use Rattle.diag_text.specs.declared.fault.DiagFault.TheVariants as faults;

    ghost from_gives = { λ _ e. e ≡ faults.NoMemory };

    fn from(_: NoMemory) -> DiagFault {
        DiagFault::NoMemory
    }
}

impl From<AllocError> for DiagFault {
    ghost use Rattle.diag_text.specs.declared.fault.DiagFault.TheVariants as faults;

    ghost from_gives = { λ _ e. e ≡ faults.NoMemory };

    fn from(_: AllocError) -> DiagFault {
        DiagFault::NoMemory
    }
}

impl<T: Drop> From<AllocFailed<T>> for DiagFault {
    ghost use Rattle.diag_text.specs.declared.fault.DiagFault.TheVariants as faults;

    ghost from_gives = { λ _ e. e ≡ faults.NoMemory };

    fn from(_: AllocFailed<T>) -> DiagFault {
        DiagFault::NoMemory
    }
}
