ghost use Rattle.std.specs.Prelude.{◌≡◌};

use base_types::{Failed, NoMemory};
use thiserror::Error;

/// Why a change was not prepared.
#[derive(Clone, Copy, Debug, Eq, Error, PartialEq)]
pub enum PrepareFault {
    /// The device would keep more than its quota.
    #[error("Room")]
    Room,
    /// No memory was left.
    #[error("NoMemory")]
    NoMemory,
}

impl From<NoMemory> for PrepareFault {
    ghost use Rattle.component_store.specs.declared.fault.PrepareFault.TheVariants as faults;

    ghost from_gives = { λ _ e. e ≡ faults.NoMemory };

    fn from(_: NoMemory) -> PrepareFault {
        PrepareFault::NoMemory
    }
}

/// Why the image of a component was not told.
#[derive(Clone, Copy, Debug, Eq, Error, PartialEq)]
pub enum LoadFault {
    /// The disk failed.
    #[error("DiskFault")]
    DiskFault,
    /// No memory was left.
    #[error("NoMemory")]
    NoMemory,
}

impl From<NoMemory> for LoadFault {
    ghost use Rattle.component_store.specs.declared.fault.LoadFault.TheVariants as faults;

    ghost from_gives = { λ _ e. e ≡ faults.NoMemory };

    fn from(_: NoMemory) -> LoadFault {
        LoadFault::NoMemory
    }
}

impl From<Failed> for LoadFault {
    ghost use Rattle.component_store.specs.declared.fault.LoadFault.TheVariants as faults;

    ghost from_gives = { λ _ e. e ≡ faults.DiskFault };

    fn from(_: Failed) -> LoadFault {
        LoadFault::DiskFault
    }
}
