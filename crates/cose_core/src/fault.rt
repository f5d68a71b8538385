ghost use Rattle.std.specs.Prelude.{◌≡◌};

use base_types::NoMemory;
use cbor_core::{CborFault, Fault};
use item_codec::Refusal;
use thiserror::Error;

/// Why bytes were not read as a COSE_Sign1. Of those that hold, the first in this order is told.
#[derive(Clone, Copy, Debug, Eq, Error, PartialEq)]
pub enum CoseFault {
    /// The bytes spell no item, and this is their first fault.
    #[error("NotCose {0}")]
    NotCose(Fault),
    /// The item is no COSE_Sign1, or its protected bytes are neither empty nor a wrapped map.
    #[error("Shape")]
    Shape,
    /// The protected headers do not name HSS/LMS.
    #[error("WrongAlg")]
    WrongAlg,
    /// The protected headers name some that a reader has to understand.
    #[error("Critical")]
    Critical,
    /// No memory was left.
    #[error("no memory is left")]
    NoMemory,
}

impl From<CborFault> for CoseFault {
    ghost use Rattle.cose_core.specs.Faults.{IsNotCose};

    ghost from_gives = { IsNotCose };

    fn from(fault: CborFault) -> CoseFault {
        match fault {
            CborFault::Bad(fault) => CoseFault::NotCose(fault),
            CborFault::NoMemory => CoseFault::NoMemory,
        }
    }
}

impl From<NoMemory> for CoseFault {
    ghost use Rattle.cose_core.specs.declared.fault.CoseFault.TheVariants as faults;

    ghost from_gives = { λ _ e. e ≡ faults.NoMemory };

    fn from(_: NoMemory) -> CoseFault {
        CoseFault::NoMemory
    }
}

/// Why bytes were not read as a COSE_Key. Of those that hold, the first in this order is told.
#[derive(Clone, Copy, Debug, Eq, Error, PartialEq)]
pub enum KeyFault {
    /// The bytes spell no item, and this is their first fault.
    #[error("NotCbor {0}")]
    NotCbor(Fault),
    /// The item is no HSS/LMS key.
    #[error("Shape")]
    Shape,
    /// No memory was left.
    #[error("no memory is left")]
    NoMemory,
}

impl Refusal for KeyFault {
    ghost use Rattle.cose_core.specs.declared.fault.KeyFault.TheVariants as faults;

    ghost no_memory = { faults.NoMemory };

    fn out_of_memory() -> KeyFault {
        KeyFault::NoMemory
    }
}
