ghost use Rattle.std.specs.Prelude.{◌≡◌};
ghost use Rattle.agent_core.specs.Events.{event_by};

use base_types::Octets;

/// What a frame into the agent brings.
#[derive(Debug, Drop, Eq, PartialEq)]
pub enum Event {
    /// A message of a manager.
    Message(Octets),
    /// A payload that was fetched.
    Payload(Octets),
    /// A payload could not be fetched.
    FetchFailed,
    /// A kind that is not known, or a failed fetch with a body.
    Strange,
}

/// The event of a frame: kind 1 is a message, 2 a payload, 3 with no body a failed fetch, and
/// everything else is strange.
pub fn event_of(kind: u8, body: Octets) -> Event
    ensures { result ≡ event_by kind body }
{
    match kind {
        1 => Event::Message(body),
        2 => Event::Payload(body),
        3 if body.is_empty() => Event::FetchFailed,
        _ => Event::Strange,
    }
}
