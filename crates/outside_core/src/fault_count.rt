ghost use Rattle.std.specs.Prelude.{◌≡◌, Err};
ghost use Rattle.base_types.specs.Causes.{HasCause, raised};

use base_types::Failed;
use std::marker::Model;

/// How often a part of the outside has failed. Contracts see the number.
///
/// A count that has reached 2^64 - 1 stays there.
#[derive(Debug, Drop)]
pub struct FaultCount {
    count: u64,
}

impl Model for FaultCount {
    ghost use Rattle.std.specs.Prelude.{ℕ};

    ghost Value = { ℕ };

    ghost view = { λ it. it.count };
}

impl FaultCount {
    /// No fault so far.
    pub fn new() -> FaultCount
        ensures { result ≡ 0 }
    {
        FaultCount { count: 0 }
    }

    /// Counts one fault more, and gives the answer of the call that failed.
    pub fn failed(&mut self) -> Failed
        ensures cause { HasCause {T = Unit {0}} self.old self.new (Err result) }
        ensures count { self.new ≡ raised self.old }
    {
        self.count = self.count.saturating_add(1);
        Failed
    }
}
