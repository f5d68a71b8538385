use crate::pass::Pass;
use crate::state::State;
use base_types::Boxed;

/// Where a run waits for a payload.
#[derive(Drop)]
pub(crate) enum Place {
    /// At a fetch, which is to be done from this state.
    Fetch(State),
    /// In a sequence, at the command of this number, counted from 0.
    Command {
        number: usize,
        within: Boxed<Place>,
    },
    /// In a try-each, at the alternative of this number, counted from 0. The state is the one before
    /// the try-each.
    Alternative {
        number: usize,
        before: State,
        within: Boxed<Place>,
    },
}

/// Where a run waits: in which pass, and at which place in its sequence.
#[derive(Drop)]
pub(crate) struct Waiting {
    pub(crate) pass: Pass,
    pub(crate) place: Place,
}
