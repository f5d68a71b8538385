ghost use Rattle.suit_engine.specs.Places.{sequence_goes_on};
ghost use Rattle.suit_engine.specs.Passes.{behind};
ghost use Rattle.suit_engine.specs.Runs.{sequence_of, passes, pass_does, passes_do};
ghost use Rattle.suit_engine.specs.Suspended.{pass_goes_on};
ghost use Rattle.suit_engine.specs.Answers.{Gives, Suspends, GivesPass, SuspendsPass};

use crate::going::go_on_sequence;
use crate::pass::Pass;
use crate::place::{Place, Waiting};
use crate::run::run_from;
use crate::state::State;
use crate::stop::{Stop, Stopped};
use crate::world::Around;
use suit_envelope::Plan;

/// Runs a pass.
fn run_pass(plan: &Plan, world: &Around<'_>, pass: Pass, state: State) -> Result<State, Stop>
    ensures gives { Gives (pass_does world.now plan.now pass state) result }
    ensures waits { Suspends world.now (λ w. sequence_goes_on w (sequence_of plan.now pass)) (λ w. pass_does w plan.now pass state) result }
{
    run_from(pass.sequence(plan), 0, world, state.at_index(0))
}

/// Runs all passes.
pub(crate) fn run_passes(plan: &Plan, world: &Around<'_>, state: State) -> Result<State, Stopped>
    ensures gives { GivesPass (passes_do world.now plan.now passes state) result }
    ensures waits { SuspendsPass world.now plan.now (λ w. passes_do w plan.now passes state) result }
{
    let pass = Pass::SharedBeforeFetch;
    match run_pass(plan, world, pass, state) {
        Ok(state) => run_behind(plan, world, pass, state),
        Err(stop) => Err(Stopped { pass, stop }),
    }
}

/// Runs the passes behind one.
fn run_behind(plan: &Plan, world: &Around<'_>, pass: Pass, state: State) -> Result<State, Stopped>
    ensures gives { GivesPass (passes_do world.now plan.now (behind pass) state) result }
    ensures waits { SuspendsPass world.now plan.now (λ w. passes_do w plan.now (behind pass) state) result }
{
    let Some(pass) = pass.next() else {
        return Ok(state);
    };
    match run_pass(plan, world, pass, state) {
        Ok(state) => run_behind(plan, world, pass, state),
        Err(stop) => Err(Stopped { pass, stop }),
    }
}

/// Goes on in a pass from a place in its sequence.
fn go_on_pass(plan: &Plan, world: &Around<'_>, pass: Pass, place: Place) -> Result<State, Stop>
    ensures gives { Gives (sequence_goes_on world.now (sequence_of plan.now pass) place) result }
    ensures waits { Suspends world.now (λ w. sequence_goes_on w (sequence_of plan.now pass)) (λ w. sequence_goes_on w (sequence_of plan.now pass) place) result }
{
    go_on_sequence(pass.sequence(plan), world, place)
}

/// Goes on from where a run waits, and runs the passes behind.
pub(crate) fn go_on(plan: &Plan, world: &Around<'_>, waiting: Waiting) -> Result<State, Stopped>
    ensures gives { GivesPass (pass_goes_on world.now plan.now waiting.pass waiting.place) result }
    ensures waits { SuspendsPass world.now plan.now (λ w. pass_goes_on w plan.now waiting.pass waiting.place) result }
{
    let Waiting { pass, place } = waiting;
    match go_on_pass(plan, world, pass, place) {
        Ok(state) => run_behind(plan, world, pass, state),
        Err(stop) => Err(Stopped { pass, stop }),
    }
}
