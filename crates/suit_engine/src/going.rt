ghost use Rattle.suit_engine.specs.Places.{from_command, from_alternative, in_tries, sequence_goes_on, command_goes_on};
ghost use Rattle.suit_engine.specs.Answers.{Gives, Suspends};
ghost use Rattle.suit_commands.specs.declared.command.Command.{out-Command};

use crate::outcome::Word;
use crate::payloads::fetch;
use crate::place::Place;
use crate::run::{run_from, try_from};
use crate::state::State;
use crate::stop::Stop;
use crate::world::Around;
use suit_commands::Command;

/// Goes on in a sequence from a place in it. A place that is none of it fails.
#[cycle(going)]
pub(crate) fn go_on_sequence(
    commands: &[Command],
    world: &Around<'_>,
    place: Place,
) -> Result<State, Stop>
    ensures gives { Gives (sequence_goes_on world.now commands.now place) result }
    ensures waits { Suspends world.now (λ w. sequence_goes_on w commands.now) (λ w. sequence_goes_on w commands.now place) result }
{
    match place {
        Place::Command { number, within } => {
            go_on_from(commands, number, world, within.into_inner())
        }
        Place::Fetch(_) | Place::Alternative { .. } => Err(Stop::Failed(Word::Condition)),
    }
}

/// Goes on in the command of a number, which fails where it is not there, and in those behind.
#[cycle(going)]
fn go_on_from(
    commands: &[Command],
    number: usize,
    world: &Around<'_>,
    within: Place,
) -> Result<State, Stop>
    ensures gives { Gives (from_command world.now number (λ command. command_goes_on world.now command within) commands.now) result }
    ensures waits { Suspends world.now (λ w. sequence_goes_on w commands.now) (λ w. from_command w number (λ command. command_goes_on w command within) commands.now) result }
{
    if number >= commands.len() {
        return Err(Stop::Failed(Word::Condition));
    }
    match go_on_command(&commands[number], world, within) {
        Ok(state) => run_from(commands, number + 1, world, state),
        Err(stop) => Err(stop.at_command(world.alloc, number)),
    }
}

/// Goes on in a command from a place in it. A place that is none of it fails.
#[cycle(going)]
fn go_on_command(command: &Command, world: &Around<'_>, place: Place) -> Result<State, Stop>
    ensures gives { Gives (command_goes_on world.now command.now place) result }
    ensures waits { Suspends world.now (λ w. command_goes_on w command.now) (λ w. command_goes_on w command.now place) result }
{
    match place {
        Place::Fetch(state) => match command {
            Command::Fetch(_) => fetch(world, state),
            _ => Err(Stop::Failed(Word::Condition)),
        },
        Place::Command { number, within } => match command {
            Command::RunSequence(commands) => {
                go_on_from(commands.as_slice(), number, world, within.into_inner())
            }
            _ => Err(Stop::Failed(Word::Condition)),
        },
        Place::Alternative {
            number,
            before,
            within,
        } => go_on_alternative(command, number, world, before, within.into_inner()),
    }
}

/// Goes on in the alternative of a number from a place in it, and where that is caught tries those
/// behind from the state before. Fails where there is no such alternative.
#[cycle(going)]
fn go_on_alternative(
    command: &Command,
    number: usize,
    world: &Around<'_>,
    before: State,
    within: Place,
) -> Result<State, Stop>
    ensures gives { Gives (in_tries (from_alternative world.now number before (λ commands. sequence_goes_on world.now commands within)) (out-Command command.now)) result }
    ensures waits { Suspends world.now (λ w. command_goes_on w command.now) (λ w. in_tries (from_alternative w number before (λ commands. sequence_goes_on w commands within)) (out-Command command.now)) result }
{
    let Command::TryEach { alternatives, .. } = command else {
        return Err(Stop::Failed(Word::Condition));
    };
    let alternatives = alternatives.as_slice();
    if number >= alternatives.len() {
        return Err(Stop::Failed(Word::Condition));
    }
    match go_on_sequence(alternatives[number].as_slice(), world, within) {
        Ok(state) => Ok(state),
        Err(stop) => match stop.caught() {
            Ok(word) => try_from(command, number + 1, word, world, before),
            Err(stop) => Err(stop.at_alternative(world.alloc, number, before)),
        },
    }
}
