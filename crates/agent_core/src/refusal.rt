ghost use Rattle.std.specs.Prelude.{◌≡◌};
ghost use Rattle.agent_core.specs.Refusals.{number_of};

/// Why an event is refused.
#[derive(Clone, Copy, Debug, Eq, PartialEq)]
pub enum Refusal {
    /// The event is no message.
    Kind,
    /// The bytes are no COSE_Sign1 with a payload.
    NotCose,
    /// None of the manager's keys signed the payload.
    NotSigned,
    /// The payload is no message, or a question without a token.
    NotMessage,
    /// The message is of a kind that no agent is sent.
    NotForAgent,
    /// Every leaf of the device's key is used.
    KeySpent,
}

impl Refusal {
    /// The number that the refusal is told by: 1 for `Kind`, 2 for `NotCose`, 3 for `NotSigned`, 4 for
    /// `NotMessage`, 5 for `NotForAgent`, 6 for `KeySpent`.
    pub fn number(self) -> u8
        ensures { result ≡ number_of self }
    {
        match self {
            Refusal::Kind => 1,
            Refusal::NotCose => 2,
            Refusal::NotSigned => 3,
            Refusal::NotMessage => 4,
            Refusal::NotForAgent => 5,
            Refusal::KeySpent => 6,
        }
    }
}
