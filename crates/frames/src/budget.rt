ghost use Rattle.std.specs.Prelude.{◌≡◌, ◌≤◌};

/// How many bytes of an input were taken, and the most that may be.
#[derive(Debug, Drop)]
pub struct Budget {
    pub taken: u64,
    pub most: u64,
    ghost within: { taken ≤ most },
}

impl Budget {
    /// Nothing is taken yet.
    pub fn new(most: u64) -> Budget
        ensures taken { result.taken ≡ 0 }
        ensures most { result.most ≡ most }
    {
        Budget { taken: 0, most }
    }
}
