// Which calls of an object in memory are to fail: its calls are numbered from 0.
ghost use Rattle.std.specs.Prelude.{◌≡◌};
ghost use Rattle.outside_core.specs.Numbers.{works_at, numbered};

use base_types::List;
use std::marker::Model;

/// The numbers of the calls that are to fail. Contracts see the list.
#[derive(Debug, Drop)]
pub struct FailingCalls {
    numbers: List<u64>,
}

impl Model for FailingCalls {
    ghost use Rattle.std.specs.Prelude.{List, ℕ};

    ghost Value = { List ℕ };

    ghost view = { λ it. it.numbers };
}

impl FailingCalls {
    /// Those of the list.
    pub fn new(numbers: List<u64>) -> FailingCalls
        ensures { result ≡ numbers }
    {
        FailingCalls { numbers }
    }

    /// Whether the call of a number is to work.
    pub fn works(&self, number: u64) -> bool
        ensures { result ≡ works_at self.now number }
    {
        !self.numbers.as_slice().contains(&number)
    }
}

/// The calls that are to fail, and the number of the next call.
#[derive(Debug, Drop)]
pub struct CallNumbers {
    pub failing: FailingCalls,
    pub next: u64,
}

impl CallNumbers {
    /// No call was made so far.
    pub fn new(failing: List<u64>) -> CallNumbers
        ensures failing { result.failing ≡ failing }
        ensures next { result.next ≡ 0 }
    {
        CallNumbers {
            failing: FailingCalls::new(failing),
            next: 0,
        }
    }

    /// Takes the next number, and says whether its call is to work. Behind 2^64 - 1 calls each further
    /// one has that number.
    pub fn begin(&mut self) -> bool
        ensures works { result ≡ works_at self.old.failing self.old.next }
        ensures next { self.new.next ≡ numbered self.old.next }
        ensures failing { self.new.failing ≡ self.old.failing }
    {
        let works = self.failing.works(self.next);
        self.next = self.next.saturating_add(1);
        works
    }
}
