use std::alloc::{AllocError, AllocFailed};
use thiserror::Error;

/// No memory was left for what was asked.
///
/// It is the one answer without a stated cause: nothing ties it to a refused growth.
#[derive(Clone, Copy, Debug, Eq, Error, PartialEq)]
#[error("no memory is left")]
pub struct NoMemory;

/// The answer of a call that can be refused for want of memory alone.
pub type OrMemory<T> = Result<T, NoMemory>;

impl From<AllocError> for NoMemory {
    fn from(_: AllocError) -> NoMemory {
        NoMemory
    }
}

impl<T: Drop> From<AllocFailed<T>> for NoMemory {
    fn from(_: AllocFailed<T>) -> NoMemory {
        NoMemory
    }
}
