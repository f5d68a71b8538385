ghost use Rattle.std.specs.Prelude.{◌≡◌, IfOk, None, length, map};
ghost use Rattle.suit_engine.specs.Runs.{built, run, outcome_of, RunsFor, IsFor, SameRun};
ghost use Rattle.suit_engine.specs.Steps.{Step};
ghost use Rattle.suit_engine.specs.Suspended.{pass_goes_on, run_of, world_of, GoesOn, WaitsAfter};
ghost use Rattle.suit_engine.specs.Answers.{GivesPass, SuspendsPass, waiting_after};

use crate::outcome::{Built, Env, Outcome};
use crate::pass::Pass;
use crate::passes::{go_on, run_passes};
use crate::place::Waiting;
use crate::shared::Slot;
use crate::state::{Part, State, copied};
use crate::stop::{Stop, Stopped};
use crate::world::{Around, Payload, payloads};
use base_types::{List, NoMemory, Octets, OrMemory};
use evidence::DeviceIds;
use std::alloc::Global;
use std::marker::Model;
use suit_commands::Digest;
use suit_envelope::{Attached, Manifest, Plan};

/// The run of one manifest, which waits where it needs a payload and goes on once that is known.
#[derive(Drop)]
pub struct Engine {
    alloc: Global,
    count: usize,
    plan: Plan,
    attached: List<Payload>,
    device: DeviceIds,
    waiting: Option<Waiting>,
}

impl Model for Engine {
    ghost use Rattle.suit_engine.specs.Contents.{Contents};

    ghost Value = { Contents };

    ghost use Rattle.std.specs.Coded.{codes};
    ghost use Rattle.suit_commands.specs.contracts.command.Command as command;
    ghost use Rattle.suit_engine.specs.contracts.place.Place as place;

    ghost coded = { Prim.hlevel (codes, command.the_row.coded, place.the_row.coded) };

    ghost view = { λ it. record { count = it.count; plan = it.plan; attached = it.attached; device = it.device; waiting = it.waiting } };
}

/// A copy of a device's identifiers.
fn copied_ids(alloc: Global, device: &DeviceIds) -> OrMemory<DeviceIds>
    ensures { IfOk result (λ it. it ≡ device.now) }
{
    let vendor = device.vendor.try_clone(alloc)?;
    let class = device.class.try_clone(alloc)?;
    let device = device.device.try_clone(alloc)?;
    Ok(DeviceIds {
        vendor,
        class,
        device,
    })
}

/// The bytes of a component, copied.
fn bytes_of(alloc: Global, bytes: &Slot<Octets>) -> OrMemory<Option<Octets>>
    ensures { IfOk result (λ it. it ≡ bytes.now) }
{
    match bytes.get() {
        Some(bytes) => Ok(Some(bytes.try_clone(alloc)?)),
        None => Ok(None),
    }
}

/// The digest of a component, copied.
fn digest_of(alloc: Global, digest: &Slot<Digest>) -> OrMemory<Option<Digest>>
    ensures { IfOk result (λ it. it ≡ digest.now) }
{
    match digest.get() {
        Some(digest) => Ok(Some(copied(alloc, digest)?)),
        None => Ok(None),
    }
}

/// What is told of a component.
fn built(alloc: Global, part: &Part) -> OrMemory<Built>
    ensures { IfOk result (λ it. it ≡ built part.now) }
{
    let digest = digest_of(alloc, &part.setting.image_digest)?;
    let bytes = bytes_of(alloc, &part.bytes)?;
    let size = part.setting.image_size;
    Ok(Built {
        bytes,
        digest,
        size,
    })
}

/// What is told of each component.
fn all_built(alloc: Global, parts: &[Part]) -> OrMemory<List<Built>>
    ensures { IfOk result (λ it. it ≡ map built parts.now) }
{
    let mut all = List::new(alloc);
    for part in parts {
        all.push(built(alloc, part)?)?;
    }
    Ok(all)
}

impl Engine {
    /// An engine for a manifest's plan, the payloads that are attached, and the device. Payloads and
    /// identifiers are copied, and nothing waits. Refused for want of memory alone.
    pub fn start(
        alloc: Global,
        manifest: &Manifest,
        plan: Plan,
        attached: &List<Attached>,
        device: &DeviceIds,
    ) -> OrMemory<Engine>
        ensures made { IfOk result (λ e. IsFor e (length manifest.now.components) plan attached.now device.now) }
        ensures fresh { IfOk result (λ e. e.waiting ≡ None) }
    {
        let attached = payloads(alloc, attached)?;
        let device = copied_ids(alloc, device)?;
        Ok(Engine {
            alloc,
            count: manifest.components.len(),
            plan,
            attached,
            device,
            waiting: None,
        })
    }

    /// Runs the manifest from the start, with what was fetched so far (draft-ietf-suit-manifest,
    /// "Abstract Machine"). A run that waited is forgotten.
    ///
    /// `Done` with what each component has, in the order of the manifest's components. `Need` where a
    /// payload is needed that is not attached and was not fetched yet: the URI has the form of
    /// `fetch_uri` and none of the entries has it. The run then waits in the engine, for `resume`.
    /// `Failed` with the word of what failed: `Condition` for a condition that does not hold and for an
    /// abort; `Payload` where a URI, its payload, the content or the source's bytes are missing, where a
    /// fetch failed, or where the bytes are above `PAYLOAD_LIMIT`; `Fetches` where a payload is needed and
    /// 16 entries are there. A try-each catches the first two words alone. Refused for want of memory
    /// alone. But after `Need` nothing waits, and a later call runs from the start.
    ///
    /// The work is linear in the sequences that are run, beside the hashes. A payload that is fetched is
    /// copied once when it is fetched, and an attached one was copied at `start`; each is copied once
    /// more into the outcome.
    pub fn go(&mut self, env: &Env) -> OrMemory<Outcome>
        // It is the outcome of the run.
        ensures outcome { IfOk result (RunsFor self.old env.now) }
        // The engine is for the same.
        ensures same { SameRun self.old self.new }
        // From where it waits it goes on, with these entries and any behind them, as a run from the start goes.
        ensures waits { GoesOn self.new env.now }
        // It waits exactly where a payload is needed.
        ensures suspended { WaitsAfter result self.new }
    {
        self.waiting = None;
        let answer = self.run(env);
        self.leave(answer)
    }

    /// Goes on from where the run waits, with what was fetched so far; where nothing waits, runs the
    /// manifest from the start.
    ///
    /// The entries are those of the call before, with what came since behind them: by the law `waits_on`
    /// what that call ensures gives what this one requires. Outcome, refusal and what waits afterwards
    /// are those of `go`. The work is that of the command that waited and of those behind it: no command
    /// is done again, and no payload that a component has is copied again but into the outcome.
    pub fn resume(&mut self, env: &Env) -> OrMemory<Outcome>
        // From where it waits it goes on, with these entries and any behind them, as a run from the start.
        requires { GoesOn self.old env.now }
        ensures outcome { IfOk result (RunsFor self.old env.now) }
        ensures same { SameRun self.old self.new }
        ensures waits { GoesOn self.new env.now }
        ensures suspended { WaitsAfter result self.new }
    {
        let Some(waiting) = self.waiting.take() else {
            return self.go(env);
        };
        let answer = self.go_on(env, waiting);
        self.leave(answer)
    }

    /// What a run has around it.
    fn around<'a>(&'a self, env: &'a Env) -> Around<'a>
        ensures { result ≡ world_of self.now env.now }
    {
        Around {
            alloc: self.alloc,
            attached: self.attached.as_slice(),
            device: &self.device,
            env: env.as_slice(),
        }
    }

    /// Runs all passes.
    fn run(&self, env: &Env) -> Result<State, Stopped>
        ensures gives { GivesPass (run_of self.now env.now) result }
        ensures waits { SuspendsPass (world_of self.now env.now) self.now.plan (λ w. run w self.now.plan self.now.count) result }
    {
        match State::beginning(self.alloc, self.count) {
            Ok(state) => run_passes(&self.plan, &self.around(env), state),
            Err(NoMemory) => Err(Stopped {
                pass: Pass::SharedBeforeFetch,
                stop: Stop::NoMemory,
            }),
        }
    }

    /// Goes on where a run waits.
    fn go_on(&self, env: &Env, waiting: Waiting) -> Result<State, Stopped>
        ensures gives { GivesPass (pass_goes_on (world_of self.now env.now) self.now.plan waiting.pass waiting.place) result }
        ensures waits { SuspendsPass (world_of self.now env.now) self.now.plan (λ w. pass_goes_on w self.now.plan waiting.pass waiting.place) result }
    {
        go_on(&self.plan, &self.around(env), waiting)
    }

    /// Keeps where a run waits, and tells what came of it.
    fn leave(&mut self, answer: Result<State, Stopped>) -> OrMemory<Outcome>
        requires { self.old.waiting ≡ None }
        ensures outcome { (step : Step) → GivesPass step answer → IfOk result (λ o. outcome_of step ≡ o) }
        ensures left { self.new ≡ record self.old { waiting = waiting_after answer } }
        ensures suspended { WaitsAfter result self.new }
    {
        match answer {
            Ok(state) => Ok(Outcome::Done(all_built(self.alloc, state.parts.as_slice())?)),
            Err(Stopped { pass, stop }) => match stop {
                Stop::Failed(word) => Ok(Outcome::Failed(word)),
                Stop::Needed(uri, place) => {
                    self.waiting = Some(Waiting { pass, place });
                    Ok(Outcome::Need(uri))
                }
                Stop::NoMemory => Err(NoMemory),
            },
        }
    }
}
