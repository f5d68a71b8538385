// What is found of a manifest once it is run.
ghost use Rattle.std.specs.Prelude.{◌≡◌, IsTrue, IfOk};
ghost use Rattle.manifest_judge.specs.Subjects.{Subject};
ghost use Rattle.manifest_judge.specs.Testing.{Owned, Finished, Ended};
ghost use Rattle.manifest_judge.specs.Openings.{Begins, CanGoOn};
ghost use Rattle.manifest_judge.specs.Judging.{Judged};
ghost use Rattle.manifest_judge.specs.Answers.{row_with};

use crate::candidate::{Candidate, Entry, Target};
use crate::components::components_of;
use crate::verdict::Verdict;
use crate::word::{Word, of_run};
use base_types::{List, OrMemory};
use device_state::{ComponentRow, ManifestRow};
use std::alloc::Global;
use suit_engine::{Built, Env, Outcome};

impl Candidate {
    /// Runs the manifest with what was fetched so far, from where it waits, and else from the start
    /// (draft-ietf-suit-manifest, "Abstract Machine"). The entries are those of the call before, with
    /// what came since behind them.
    ///
    /// `Needs` with the URI of a payload that was not fetched yet: the run waits for it. `Passes` with the
    /// row of the manifest: its identifier and number, and each component that it lists with the bytes
    /// and the digest that were built. `Fails` with the first word that holds: `Condition`, `Payload` or
    /// `Fetches` where the run ends so; `Image` where a component that is listed has no bytes, no digest,
    /// or bytes that have not its digest, or not its size where one is set; `Owner` where one belongs to
    /// another manifest. Refused for want of memory alone; a later call then runs from the start.
    ///
    /// The work is that of `Engine::resume`, beside one hash of each component. The bytes of components
    /// are moved into the row.
    pub fn run(&mut self, alloc: Global, env: &Env) -> OrMemory<Verdict>
        // From where it waits it goes on, with these entries and any behind them, as a run from the start.
        requires { CanGoOn self.old env.now }
        // It is the verdict on what the candidate was opened for.
        ensures verdict { (s : Subject) → Begins s (Entry.Goes self.old) → IfOk result (Judged s env.now) }
        // It is for the same afterwards.
        ensures same { (s : Subject) → Begins s (Entry.Goes self.old) → Begins s (Entry.Goes self.new) }
        // And it goes on with what comes behind these entries.
        ensures waits { CanGoOn self.new env.now }
    {
        let outcome = self.engine.resume(env)?;
        self.target.end(alloc, outcome)
    }
}

impl Target {
    /// The verdict of an outcome.
    fn end(&self, alloc: Global, outcome: Outcome) -> OrMemory<Verdict>
        ensures { IfOk result (Ended self.now.components (IsTrue self.now.free) (row_with self.now) outcome) }
    {
        match outcome {
            Outcome::Done(built) => self.finish(alloc, built),
            Outcome::Need(uri) => Ok(Verdict::Needs(uri)),
            Outcome::Failed(word) => Ok(Verdict::Fails(of_run(word))),
        }
    }

    /// The verdict of a run that is done, with what it built.
    fn finish(&self, alloc: Global, built: List<Built>) -> OrMemory<Verdict>
        ensures { IfOk result (Finished self.now.components (IsTrue self.now.free) (row_with self.now) built) }
    {
        match components_of(alloc, self.components.as_slice(), built)? {
            Some(components) => self.settle(alloc, components),
            None => Ok(Verdict::Fails(Word::Image)),
        }
    }

    /// The verdict of components that are whole.
    fn settle(&self, alloc: Global, components: List<ComponentRow>) -> OrMemory<Verdict>
        ensures { IfOk result (Owned (IsTrue self.now.free) (row_with self.now components)) }
    {
        if !self.free {
            return Ok(Verdict::Fails(Word::Owner));
        }
        Ok(Verdict::Passes(ManifestRow {
            id: self.id.try_clone(alloc)?,
            sequence: self.sequence,
            present: true,
            components,
        }))
    }
}
