ghost use Rattle.std.specs.Prelude.{◌≡◌, IfOk};
ghost use Rattle.suit_engine.specs.Acts.{takes, source_bytes, fetches_from};
ghost use Rattle.suit_engine.specs.Steps.{Went};
ghost use Rattle.suit_engine.specs.States.{current, with_current, with_bytes, with_given};
ghost use Rattle.suit_engine.specs.Answers.{Gives, NeverWaits, SuspendsAt, FindsAs};

use crate::outcome::Word;
use crate::place::Place;
use crate::shared::Slot;
use crate::state::State;
use crate::stop::Stop;
use crate::world::{Around, Found};
use base_types::{Octets, OrMemory, PAYLOAD_LIMIT};
use std::alloc::Global;
use suit_commands::Parameters;

/// The state with other bytes of the current component.
fn with_bytes(state: State, bytes: Slot<Octets>) -> Result<State, Stop>
    ensures gives { Gives (Went (with_current state (with_bytes bytes (current state)))) result }
    ensures waits { NeverWaits result }
{
    match state.current() {
        Some(part) => {
            let part = part.with_bytes(bytes)?;
            Ok(state.with_current(part))
        }
        None => Ok(state),
    }
}

/// The current component takes bytes that are there and not above the limit.
pub(crate) fn take(state: State, bytes: Slot<Octets>) -> Result<State, Stop>
    ensures gives { Gives (takes bytes state) result }
    ensures waits { NeverWaits result }
{
    match bytes.get() {
        Some(content) if content.len() <= PAYLOAD_LIMIT => with_bytes(state, bytes),
        _ => Err(Stop::Failed(Word::Payload)),
    }
}

/// The content that is set, not copied.
fn content(state: &State) -> OrMemory<Slot<Octets>>
    ensures { IfOk result (λ it. it ≡ (current state.now).setting.content) }
{
    match state.current() {
        Some(part) => part.setting.content.share(),
        None => Ok(Slot::empty()),
    }
}

/// The current component takes the content that is set.
pub(crate) fn write(state: State) -> Result<State, Stop>
    ensures gives { Gives (takes (current state).setting.content state) result }
    ensures waits { NeverWaits result }
{
    let bytes = content(&state)?;
    take(state, bytes)
}

/// The bytes of the component that an index names, not copied.
fn bytes_of(state: &State, source: Option<u64>) -> OrMemory<Slot<Octets>>
    ensures { IfOk result (λ it. it ≡ source_bytes source state.now) }
{
    let Some(index) = source else {
        return Ok(Slot::empty());
    };
    match state.part(index) {
        Some(part) => part.bytes.share(),
        None => Ok(Slot::empty()),
    }
}

/// The index of the component that is copied from.
fn source(state: &State) -> Option<u64>
    ensures { result ≡ (current state.now).setting.source }
{
    match state.current() {
        Some(part) => part.setting.source,
        None => None,
    }
}

/// The current component takes the bytes of the source component.
pub(crate) fn copy(state: State) -> Result<State, Stop>
    ensures gives { Gives (takes (source_bytes (current state).setting.source state) state) result }
    ensures waits { NeverWaits result }
{
    let bytes = bytes_of(&state, source(&state))?;
    take(state, bytes)
}

/// What a fetch finds in a state.
fn find(world: &Around<'_>, state: &State) -> OrMemory<Found>
    ensures { IfOk result (FindsAs (fetches_from world.now (current state.now).setting.uri)) }
{
    match state.current() {
        Some(part) => world.payload(part.setting.uri.get()),
        None => world.payload(None),
    }
}

/// The current component takes the payload that its URI names, or the run needs it first.
pub(crate) fn fetch(world: &Around<'_>, state: State) -> Result<State, Stop>
    ensures gives { Gives (fetches_from world.now (current state).setting.uri state) result }
    ensures waits { SuspendsAt state result }
{
    match find(world, &state)? {
        Found::Bytes(bytes) => take(state, bytes),
        Found::Unknown(uri) => Err(Stop::Needed(uri, Place::Fetch(state))),
        Found::TooMany => Err(Stop::Failed(Word::Fetches)),
    }
}

/// The given parameters of the current component are set, and the others stay.
pub(crate) fn override_parameters(
    alloc: Global,
    given: &Parameters,
    state: State,
) -> Result<State, Stop>
    ensures gives { Gives (Went (with_current state (with_given given.now (current state)))) result }
    ensures waits { NeverWaits result }
{
    match state.current() {
        Some(part) => {
            let part = part.with_given(alloc, given)?;
            Ok(state.with_current(part))
        }
        None => Ok(state),
    }
}
