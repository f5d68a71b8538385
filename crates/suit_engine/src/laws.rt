ghost use Rattle.suit_engine.specs.Law.{DoneStays, NeedsAnAddress, OneOutcome, WaitsOn};

/// A run has exactly one outcome.
pub fn one_outcome()
    ensures { OneOutcome }
{}

/// A run that is done is done with the same components where more was fetched behind what it had.
pub fn done_stays()
    ensures { DoneStays }
{}

/// A URI that a run needs is the address of a payload, and nothing was fetched for it yet.
pub fn needs_an_address()
    ensures { NeedsAnAddress }
{}

/// An engine that goes on with some entries goes on with more behind them.
pub fn waits_on()
    ensures { WaitsOn }
{}
