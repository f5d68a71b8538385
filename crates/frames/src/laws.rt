ghost use Rattle.std.specs.Prelude.{◌<◌, ◌^◌};
ghost use Rattle.frames.specs.Reading.{OneReading};

/// An input has exactly one list of frames and one end, whatever the longest body and the most bytes
/// that may be taken.
pub fn one_reading(limit: u32, most: u64)
    ensures { OneReading limit most }
{}
