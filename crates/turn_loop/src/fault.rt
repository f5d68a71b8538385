use thiserror::Error;

/// Why a frame got no reply.
#[derive(Clone, Copy, Debug, Eq, Error, PartialEq)]
pub enum TurnFault {
    /// A call of the disk failed.
    #[error("the disk failed")]
    DiskFault,
    /// There was no memory.
    #[error("no memory is left for a reply")]
    NoMemory,
}
