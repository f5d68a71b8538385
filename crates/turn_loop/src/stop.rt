/// Why a run stops.
#[derive(Clone, Copy, Debug, Eq, PartialEq)]
pub enum Stop {
    /// The input ended between two frames, and each frame is answered.
    Whole,
    /// The input ended inside a frame.
    Cut,
    /// A frame says a length above the limit.
    Long,
    /// As many bytes were taken as a run may take, and one more is needed.
    Spent,
    /// A read failed.
    ReadFault,
    /// A send failed.
    SendFault,
    /// The disk failed.
    DiskFault,
    /// No memory was left.
    NoMemory,
}
