ghost use Rattle.std.specs.Prelude.{drop};
ghost use Rattle.suit_engine.specs.Acts.{does, do_all};
ghost use Rattle.suit_engine.specs.Places.{sequence_goes_on, command_goes_on};
ghost use Rattle.suit_engine.specs.Answers.{Gives, Suspends, tries};

use crate::conditions::{is_class, is_device, is_image, is_vendor, only_if};
use crate::outcome::Word;
use crate::payloads::{copy, fetch, override_parameters, write};
use crate::state::State;
use crate::stop::Stop;
use crate::world::Around;
use suit_commands::Command;

/// Runs a command.
#[cycle(run)]
fn run_command(command: &Command, world: &Around<'_>, state: State) -> Result<State, Stop>
    ensures gives { Gives (does world.now command.now state) result }
    ensures waits { Suspends world.now (λ w. command_goes_on w command.now) (λ w. does w command.now state) result }
{
    match command {
        Command::Vendor(_) => only_if(is_vendor(&state, world.device), state),
        Command::Class(_) => only_if(is_class(&state, world.device), state),
        Command::ImageMatch(_) => only_if(is_image(&state), state),
        Command::Device(_) => only_if(is_device(&state, world.device), state),
        Command::Abort(_) => Err(Stop::Failed(Word::Condition)),
        Command::Write(_) => write(state),
        Command::Fetch(_) => fetch(world, state),
        Command::Copy(_) => copy(state),
        Command::SetIndex(index) => Ok(state.at_index(*index)),
        Command::TryEach { .. } => try_from(command, 0, Word::Condition, world, state),
        Command::Override(given) => override_parameters(world.alloc, given, state),
        Command::RunSequence(commands) => run_from(commands.as_slice(), 0, world, state),
    }
}

/// Runs the commands from a number on, in turn.
#[cycle(run)]
pub(crate) fn run_from(
    commands: &[Command],
    first: usize,
    world: &Around<'_>,
    state: State,
) -> Result<State, Stop>
    ensures gives { Gives (do_all world.now (drop first commands.now) state) result }
    ensures waits { Suspends world.now (λ w. sequence_goes_on w commands.now) (λ w. do_all w (drop first commands.now) state) result }
{
    let mut state = state;
    for number in first..commands.len() {
        match run_command(&commands[number], world, state) {
            Ok(next) => state = next,
            Err(stop) => return Err(stop.at_command(world.alloc, number)),
        }
    }
    Ok(state)
}

/// Tries the alternatives of a command from a number on, each from the state before. The word is that
/// of the alternative before them. Any other command tries nothing.
#[cycle(run)]
pub(crate) fn try_from(
    command: &Command,
    first: usize,
    word: Word,
    world: &Around<'_>,
    before: State,
) -> Result<State, Stop>
    ensures gives { Gives (tries world.now command.now first word before) result }
    ensures waits { Suspends world.now (λ w. command_goes_on w command.now) (λ w. tries w command.now first word before) result }
{
    let Command::TryEach {
        alternatives,
        null_last,
    } = command
    else {
        return Ok(before);
    };
    let alternatives = alternatives.as_slice();
    let mut word = word;
    for number in first..alternatives.len() {
        let state = before.share(world.alloc)?;
        match run_from(alternatives[number].as_slice(), 0, world, state) {
            Ok(state) => return Ok(state),
            Err(stop) => match stop.caught() {
                Ok(caught) => word = caught,
                Err(stop) => return Err(stop.at_alternative(world.alloc, number, before)),
            },
        }
    }
    if *null_last {
        Ok(before)
    } else {
        Err(Stop::Failed(word))
    }
}
