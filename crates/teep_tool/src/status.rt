ghost use Rattle.std.specs.Prelude.{◌≡◌};
ghost use Rattle.teep_tool.specs.Statuses.{number_of};

/// How a command ended.
#[derive(Clone, Copy, Debug, Eq, PartialEq)]
pub enum Status {
    /// It did what it is for.
    Done,
    /// The content of a file was refused, and a line says why.
    Refused,
    /// The words are no command.
    Usage,
    /// The host failed.
    HostFault,
    /// A file is longer than the limit.
    LongFile,
    /// No memory was left.
    NoMemory,
}

impl Status {
    /// The number that the program ends with: 0, 1, 2, 3, 4 and 9, in the order of the variants.
    pub fn number(self) -> u8
        ensures { result ≡ number_of self }
    {
        match self {
            Status::Done => 0,
            Status::Refused => 1,
            Status::Usage => 2,
            Status::HostFault => 3,
            Status::LongFile => 4,
            Status::NoMemory => 9,
        }
    }
}
