ghost use Rattle.std.specs.Prelude.{◌≡◌};

use base_types::{Failed, NoMemory};
use std::alloc::{AllocError, AllocFailed};
use thiserror::Error;

/// Why a journal was not mounted.
#[derive(Clone, Copy, Debug, Eq, Error, PartialEq)]
pub enum JournalFault {
    /// The region stands for no list.
    #[error("the region stands for no list")]
    NoJournal,
    /// A load failed.
    #[error("the disk failed")]
    DiskFault,
    /// No memory was left.
    #[error("no memory is left")]
    NoMemory,
}

impl From<Failed> for JournalFault {
    ghost use Rattle.journal_core.specs.declared.fault.JournalFault.TheVariants as faults;

    ghost from_gives = { λ _ e. e ≡ faults.DiskFault };

    fn from(_: Failed) -> JournalFault {
        JournalFault::DiskFault
    }
}

impl From<NoMemory> for JournalFault {
    ghost use Rattle.journal_core.specs.declared.fault.JournalFault.TheVariants as faults;

    ghost from_gives = { λ _ e. e ≡ faults.NoMemory };

    fn from(_: NoMemory) -> JournalFault {
        JournalFault::NoMemory
    }
}

impl<T: Drop> From<AllocFailed<T>> for JournalFault {
    ghost use Rattle.journal_core.specs.declared.fault.JournalFault.TheVariants as faults;

    ghost from_gives = { λ _ e. e ≡ faults.NoMemory };

    fn from(_: AllocFailed<T>) -> JournalFault {
        JournalFault::NoMemory
    }
}

/// Why a list was not changed.
#[derive(Clone, Copy, Debug, Eq, Error, PartialEq)]
pub enum AppendFault {
    /// The bodies and the closed gate behind them do not fit into the half. Nothing was put.
    #[error("the half is full")]
    Full,
    /// A put or a sync failed.
    #[error("the disk failed")]
    DiskFault,
}

impl From<Failed> for AppendFault {
    ghost use Rattle.journal_core.specs.declared.fault.AppendFault.TheVariants as faults;

    ghost from_gives = { λ _ e. e ≡ faults.DiskFault };

    fn from(_: Failed) -> AppendFault {
        AppendFault::DiskFault
    }
}
