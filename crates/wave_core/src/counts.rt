ghost use Rattle.std.specs.Prelude.{◌≡◌, ◌<◌, IfOk, length, replicate, slice_index};
ghost use Rattle.wave_core.specs.Counting.{more_at};

use base_types::OrMemory;
use std::alloc::Global;
use std::marker::Model;

/// How many devices are recorded of each step of a wave, which contracts see as these numbers.
#[derive(Debug, Drop)]
pub struct Counts {
    counts: Vec<u64>,
}

impl Model for Counts {
    ghost use Rattle.std.specs.Prelude.{List, ℕ};

    ghost Value = { List ℕ };

    ghost view = { λ it. it.counts.items };
}

impl Counts {
    /// None recorded of so many steps. Refused for want of memory alone.
    pub fn none(alloc: Global, steps: usize) -> OrMemory<Counts>
        ensures { IfOk result (λ it. it ≡ replicate steps 0) }
    {
        Ok(Counts {
            counts: vec![in alloc; 0u64; steps]?,
        })
    }

    /// The numbers, step by step.
    pub fn as_slice(&self) -> &[u64]
        ensures { result.now ≡ self.now }
    {
        self.counts.as_slice()
    }

    /// The number of this step.
    pub fn at(&self, step: usize) -> u64
        requires { step < length self.now }
        ensures { result ≡ slice_index self.now step }
    {
        self.counts[step]
    }

    /// One more of this step, unless it has as many as there may be. Nothing where there is no such step.
    pub fn raise(&mut self, step: usize, most: u64)
        ensures { self.new ≡ more_at step most self.old }
    {
        if step < self.counts.len() && self.counts[step] < most {
            self.counts[step] += 1;
        }
    }
}
