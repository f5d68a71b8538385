ghost use Rattle.std.specs.Prelude.{◌≡◌};
ghost use Rattle.agent_run.specs.Statuses.{number_of};

use turn_loop::Stop;

/// How a run ended.
#[derive(Clone, Copy, Debug, Eq, PartialEq)]
pub enum Status {
    /// The input ended between two frames, and each frame is answered.
    Done,
    /// The words are not `run` alone.
    Usage,
    /// The image is that of no device.
    BadImage,
    /// A read failed.
    ReadFault,
    /// A send failed.
    SendFault,
    /// The disk failed.
    DiskFault,
    /// The input ended inside a frame.
    CutFrame,
    /// A frame says a length above the limit.
    LongFrame,
    /// No memory was left.
    NoMemory,
    /// As many bytes were taken as a run may take, and one more is needed.
    InputSpent,
}

impl Status {
    /// The number that a program ends with: 0 and 2 to 10, in the order of the variants.
    pub fn number(self) -> u8
        ensures { result ≡ number_of self }
    {
        match self {
            Status::Done => 0,
            Status::Usage => 2,
            Status::BadImage => 3,
            Status::ReadFault => 4,
            Status::SendFault => 5,
            Status::DiskFault => 6,
            Status::CutFrame => 7,
            Status::LongFrame => 8,
            Status::NoMemory => 9,
            Status::InputSpent => 10,
        }
    }
}

impl From<Stop> for Status {
    ghost use Rattle.std.specs.Prelude.{◌≡◌};
    ghost use Rattle.agent_run.specs.Statuses.{status_of};

    ghost from_gives = { λ stop status. status ≡ status_of stop };

    fn from(stop: Stop) -> Status {
        match stop {
            Stop::Whole => Status::Done,
            Stop::Cut => Status::CutFrame,
            Stop::Long => Status::LongFrame,
            Stop::Spent => Status::InputSpent,
            Stop::ReadFault => Status::ReadFault,
            Stop::SendFault => Status::SendFault,
            Stop::DiskFault => Status::DiskFault,
            Stop::NoMemory => Status::NoMemory,
        }
    }
}
