ghost use Rattle.std.specs.Prelude.{◌≡◌, ◌<◌, ◌↔◌, ℕ, length, map, replicate, IfOk, IsTrue};
ghost use Rattle.wave_core.specs.declared.wave.Wave.{Wave};
ghost use Rattle.wave_core.specs.declared.wave.Step.{Step};
ghost use Rattle.wave_core.specs.Ledger.{Ledger, Rises, empty, raised};
ghost use Rattle.wave_core.specs.Waves.{AreProper, Open, recorded};
ghost use Rattle.wave_core.specs.Book.{StandsFor, IsStepAt, steps_of};

use crate::counts::Counts;
use crate::noting::note_each;
use crate::reading::{is_open_in, wave_of};
use crate::wave::Wave;
use base_types::{List, OrMemory};
use std::alloc::Global;
use std::marker::Model;

/// The waves of a manager, and how many devices of each step have confirmed the wave's manifest.
///
/// A book stands for a ledger where each of its counts is the one that the ledger gives. It holds no
/// ledger: whoever keeps one tells the book of each number that rises, once.
#[derive(Debug, Drop)]
pub struct WaveBook {
    waves: List<Wave>,
    counts: Vec<Counts>,
}

impl Model for WaveBook {
    ghost use Rattle.wave_core.specs.Book.{Book, IsBook};

    ghost Value = { Book };

    ghost view = { λ it. record { waves = it.waves; counts = it.counts.items } };

    ghost invariant = { λ it. IsBook it.waves it.counts.items };
}

/// The counts of waves of which no device is recorded. Refused for want of memory alone.
fn no_counts(alloc: Global, waves: &[Wave]) -> OrMemory<Vec<Counts>>
    ensures { IfOk result (λ counts. counts.items ≡ map (λ wave. replicate (length wave.steps) 0) waves.now) }
{
    let mut counts = Vec::new(alloc);
    for wave in waves {
        counts.push(Counts::none(alloc, wave.steps.len())?)?;
    }
    Ok(counts)
}

impl WaveBook {
    /// The book of these waves over the empty ledger. Refused for want of memory alone; the waves are
    /// dropped then.
    pub fn new(alloc: Global, waves: List<Wave>) -> OrMemory<WaveBook>
        requires { AreProper waves }
        ensures waves { IfOk result (λ book. book.waves ≡ waves) }
        ensures empty { IfOk result (λ book. StandsFor book empty) }
    {
        let counts = no_counts(alloc, waves.as_slice())?;
        Ok(WaveBook { waves, counts })
    }

    /// Notes that a device's number for an identifier has risen: `before` is the number that the ledger
    /// had, if any, and `after` the one above it that it has now. No memory is taken.
    ///
    /// The waves are walked once, and the steps of those with this identifier. A rise that is noted twice,
    /// or with another `before` than the ledger's, leaves counts that no ledger gives.
    pub fn note(&mut self, device: &[u8], id: &[u8], before: Option<u64>, after: u64)
        ensures waves { self.new.waves ≡ self.old.waves }
        // Whatever ledger the book stands for: where the number rises in it so, the book then stands for the ledger with it raised.
        ensures noted { (ledger : Ledger) → StandsFor self.old ledger → Rises ledger device.now id.now before after
            → StandsFor self.new (raised device.now id.now after ledger) }
    {
        note_each(
            self.waves.as_slice(),
            &mut self.counts,
            device,
            id,
            before,
            after,
        );
    }

    /// Whether the manifest of this identifier is open to a device of this class: there is no wave of the
    /// two, or each step below the device's own has as many recorded as it needs. No memory is taken.
    pub fn open(&self, class: &[u8], id: &[u8], device: &[u8]) -> bool
        ensures { (ledger : Ledger) → StandsFor self.now ledger → (IsTrue result ↔ Open self.now.waves ledger class.now id.now device.now) }
    {
        let waves = self.waves.as_slice();
        match wave_of(waves, class, id) {
            Some(number) => is_open_in(&waves[number], self.counts[number].as_slice(), device),
            None => true,
        }
    }

    /// How many devices of a step are recorded, by the numbers of its wave and of the step in it, counted
    /// from 0. No memory is taken.
    pub fn recorded(&self, wave: usize, step: usize) -> u64
        requires { step < length (steps_of self.now.waves wave) }
        ensures { (ledger : Ledger) (w : Wave) (s : Step) → StandsFor self.now ledger → IsStepAt self.now.waves wave step w s → result ≡ recorded ledger w s }
    {
        self.counts[wave].at(step)
    }

    /// The waves, as they were given.
    pub fn waves(&self) -> &List<Wave>
        ensures waves { result.now ≡ self.now.waves }
        ensures proper { AreProper self.now.waves }
    {
        &self.waves
    }
}
