ghost use Rattle.std.specs.Prelude.{◌≡◌};

use base_types::{Failed, NoMemory};
use thiserror::Error;

/// Why bytes were not read as a configuration.
#[derive(Clone, Copy, Debug, Eq, Error, PartialEq)]
pub enum ConfigFault {
    /// They are none.
    #[error("BadConfig")]
    BadConfig,
    /// No memory was left.
    #[error("NoMemory")]
    NoMemory,
}

impl From<NoMemory> for ConfigFault {
    ghost use Rattle.device_config.specs.declared.fault.ConfigFault.TheVariants as faults;

    ghost from_gives = { λ _ e. e ≡ faults.NoMemory };

    fn from(_: NoMemory) -> ConfigFault {
        ConfigFault::NoMemory
    }
}

/// Why an image was not mounted.
#[derive(Clone, Copy, Debug, Eq, Error, PartialEq)]
pub enum MountFault {
    /// The image is that of no device.
    #[error("BadImage")]
    BadImage,
    /// The disk failed.
    #[error("DiskFault")]
    DiskFault,
    /// No memory was left.
    #[error("NoMemory")]
    NoMemory,
}

impl From<NoMemory> for MountFault {
    ghost use Rattle.device_config.specs.declared.fault.MountFault.TheVariants as faults;

    ghost from_gives = { λ _ e. e ≡ faults.NoMemory };

    fn from(_: NoMemory) -> MountFault {
        MountFault::NoMemory
    }
}

impl From<Failed> for MountFault {
    ghost use Rattle.device_config.specs.declared.fault.MountFault.TheVariants as faults;

    ghost from_gives = { λ _ e. e ≡ faults.DiskFault };

    fn from(_: Failed) -> MountFault {
        MountFault::DiskFault
    }
}
