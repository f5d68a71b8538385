use thiserror::Error;

/// A fault of the outside: a read, a write, a disk or a connection did not do what was asked.
///
/// What a call may have done before it failed stands in that call's contract. That it failed has
/// a cause there too: a count of faults that rose.
#[derive(Clone, Copy, Debug, Eq, Error, PartialEq)]
#[error("the outside failed")]
pub struct Failed;
