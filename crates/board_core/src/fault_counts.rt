ghost use Rattle.std.specs.Prelude.{◌≡◌};

use outside_core::FaultCount;

/// How often the input, the output and the disk of a board have failed.
#[derive(Debug, Drop)]
pub struct FaultCounts {
    pub read: FaultCount,
    pub send: FaultCount,
    pub disk: FaultCount,
}

impl FaultCounts {
    ghost use Rattle.board_core.specs.Faulted.{no_faults, faults_in};

    /// Nothing has failed.
    pub fn new() -> FaultCounts
        ensures none { faults_in result ≡ no_faults }
    {
        FaultCounts {
            read: FaultCount::new(),
            send: FaultCount::new(),
            disk: FaultCount::new(),
        }
    }
}
