ghost use Rattle.std.specs.Prelude.{◌≡◌, option_and_then};
ghost use Rattle.suit_envelope.specs.Plans.{strange_index, first_strange};
ghost use Rattle.suit_envelope.specs.Plans as Plans;

use suit_commands::Command;

/// The index, where it is not below the count of components.
fn beyond(n: u64, count: usize) -> Option<u64>
    ensures { result ≡ Plans.beyond count n }
{
    if n < count as u64 { None } else { Some(n) }
}

/// The index, where one is there that is not below the count.
fn source_beyond(source: Option<u64>, count: usize) -> Option<u64>
    ensures { result ≡ option_and_then (Plans.beyond count) source }
{
    match source {
        Some(n) => beyond(n, count),
        None => None,
    }
}

/// The first index in a command that is not below the count of components.
#[cycle(indices)]
fn index_in(command: &Command, count: usize) -> Option<u64>
    ensures { result ≡ strange_index count command.now }
{
    match command {
        Command::SetIndex(n) => beyond(*n, count),
        Command::Override(parameters) => source_beyond(parameters.source, count),
        Command::TryEach { alternatives, .. } => {
            for sequence in alternatives.as_slice() {
                if let Some(n) = first_index(sequence.as_slice(), count) {
                    return Some(n);
                }
            }
            None
        }
        Command::RunSequence(sequence) => first_index(sequence.as_slice(), count),
        _ => None,
    }
}

/// The first index in commands that is not below the count of components.
#[cycle(indices)]
pub fn first_index(commands: &[Command], count: usize) -> Option<u64>
    ensures { result ≡ first_strange count commands.now }
{
    for command in commands {
        if let Some(n) = index_in(command, count) {
            return Some(n);
        }
    }
    None
}
