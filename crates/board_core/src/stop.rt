/// What a stop leaves of the bytes that are pending, and of a send that it comes into.
#[derive(Clone, Copy, Debug, Eq, PartialEq)]
pub enum Stop {
    /// The image of the last good sync; nothing of the send.
    AsSynced,
    /// The image as last put; the first half of the send, rounded up.
    AsPut,
    /// Each pending byte is `a5`; nothing of the send.
    FilledA5,
    /// Each pending byte is `5a`; the first half of the send, rounded up.
    Filled5A,
}

impl Stop {
    ghost use Rattle.std.specs.Prelude.{◌≡◌, ◌<◌};
    ghost use Rattle.board_core.specs.Stops.{kind_of};

    /// The kinds by their numbers, which are below 4.
    pub fn from_mode(mode: u8) -> Stop
        requires { mode < 4 }
        ensures { result ≡ kind_of mode }
    {
        match mode {
            0 => Stop::AsSynced,
            1 => Stop::AsPut,
            2 => Stop::FilledA5,
            _ => Stop::Filled5A,
        }
    }
}
