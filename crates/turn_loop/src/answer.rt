/// How the answer to a frame ended.
#[derive(Clone, Copy, Debug, Eq, PartialEq)]
pub enum Answer {
    /// The reply is sent.
    Sent,
    /// The send failed: a front of the reply may be sent.
    SendFault,
    /// The disk failed: nothing is sent.
    DiskFault,
    /// There was no memory for the reply: nothing is put or sent.
    NoMemory,
}
