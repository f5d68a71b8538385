ghost use Rattle.commit_records.specs.Law.{OneChange};

/// Bytes are one change at most.
pub fn one_change()
    ensures { OneChange }
{}
