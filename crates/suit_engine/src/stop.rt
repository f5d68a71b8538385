ghost use Rattle.suit_engine.specs.Answers.{CaughtAs, IsSeenFrom};

use crate::outcome::Word;
use crate::pass::Pass;
use crate::place::Place;
use crate::state::State;
use base_types::{Boxed, NoMemory, Utf8};
use std::alloc::Global;

/// Why a run does not go on.
#[derive(Drop)]
pub(crate) enum Stop {
    /// It failed.
    Failed(Word),
    /// It needs the payload of this URI first, and waits at this place.
    Needed(Utf8, Place),
    /// No memory was left.
    NoMemory,
}

impl From<NoMemory> for Stop {
    ghost use Rattle.std.specs.Prelude.{◌≡◌};
    ghost use Rattle.suit_engine.specs.declared.stop.Stop.TheVariants as stops;

    ghost from_gives = { λ _ e. e ≡ stops.NoMemory };

    fn from(_: NoMemory) -> Stop {
        Stop::NoMemory
    }
}

impl Stop {
    /// The word, where a try-each catches the stop, and else the stop.
    pub(crate) fn caught(self) -> Result<Word, Stop>
        ensures { CaughtAs self result }
    {
        match self {
            Stop::Failed(Word::Condition) => Ok(Word::Condition),
            Stop::Failed(Word::Payload) => Ok(Word::Payload),
            Stop::Failed(Word::Fetches) => Err(Stop::Failed(Word::Fetches)),
            Stop::Needed(uri, place) => Err(Stop::Needed(uri, place)),
            Stop::NoMemory => Err(Stop::NoMemory),
        }
    }

    /// The stop of a command, seen from the sequence. Memory may run out.
    pub(crate) fn at_command(self, alloc: Global, number: usize) -> Stop
        ensures { IsSeenFrom (λ place. Place.Command number place) self result }
    {
        match self {
            Stop::Failed(word) => Stop::Failed(word),
            Stop::Needed(uri, within) => match Boxed::new(alloc, within) {
                Ok(within) => Stop::Needed(uri, Place::Command { number, within }),
                Err(NoMemory) => Stop::NoMemory,
            },
            Stop::NoMemory => Stop::NoMemory,
        }
    }

    /// The stop of an alternative, seen from the try-each that began in the state. Memory may run out.
    pub(crate) fn at_alternative(self, alloc: Global, number: usize, before: State) -> Stop
        ensures { IsSeenFrom (λ place. Place.Alternative number before place) self result }
    {
        match self {
            Stop::Failed(word) => Stop::Failed(word),
            Stop::Needed(uri, within) => match Boxed::new(alloc, within) {
                Ok(within) => Stop::Needed(
                    uri,
                    Place::Alternative {
                        number,
                        before,
                        within,
                    },
                ),
                Err(NoMemory) => Stop::NoMemory,
            },
            Stop::NoMemory => Stop::NoMemory,
        }
    }
}

/// In which pass a run stopped, and why.
#[derive(Drop)]
pub(crate) struct Stopped {
    pub(crate) pass: Pass,
    pub(crate) stop: Stop,
}
