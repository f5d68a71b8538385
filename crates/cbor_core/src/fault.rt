ghost use Rattle.std.specs.Prelude.{◌≡◌};

use base_types::NoMemory;
use cbor_heads::Fault;
use std::alloc::{AllocError, AllocFailed};
use thiserror::Error;

/// Why bytes were not read.
#[derive(Clone, Copy, Debug, Eq, Error, PartialEq)]
pub enum CborFault {
    /// The bytes spell no item, and this is their first fault.
    #[error("{0}")]
    Bad(Fault),
    /// No memory was left.
    #[error("no memory is left")]
    NoMemory,
}

impl From<Fault> for CborFault {
    ghost use Rattle.cbor_core.specs.declared.fault.CborFault.TheVariants as faults;

    ghost from_gives = { λ f e. e ≡ faults.Bad f };

    fn from(fault: Fault) -> CborFault {
        CborFault::Bad(fault)
    }
}

impl From<NoMemory> for CborFault {
    ghost use Rattle.cbor_core.specs.declared.fault.CborFault.TheVariants as faults;

    ghost from_gives = { λ _ e. e ≡ faults.NoMemory };

    fn from(_: NoMemory) -> CborFault {
        CborFault::NoMemory
    }
}

impl From<AllocError> for CborFault {
    ghost use Rattle.cbor_core.specs.declared.fault.CborFault.TheVariants as faults;

    ghost from_gives = { λ _ e. e ≡ faults.NoMemory };

    fn from(_: AllocError) -> CborFault {
        CborFault::NoMemory
    }
}

impl<T: Drop> From<AllocFailed<T>> for CborFault {
    ghost use Rattle.cbor_core.specs.declared.fault.CborFault.TheVariants as faults;

    ghost from_gives = { λ _ e. e ≡ faults.NoMemory };

    fn from(_: AllocFailed<T>) -> CborFault {
        CborFault::NoMemory
    }
}
