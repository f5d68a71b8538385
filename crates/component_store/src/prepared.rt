use base_types::List;
use device_state::{Change, RowHead};
use journal_core::Framed;

/// How a change goes into the journal.
#[derive(Drop)]
pub(crate) enum Framing {
    /// As one body more.
    Append(Framed),
    /// As the bodies of the whole changed state, in place of all.
    Replace(Framed),
}

/// A change that is ready to be committed: it was prepared for the store as it stands, and everything that
/// the commit needs is there.
#[derive(Drop)]
pub struct Prepared {
    pub(crate) change: Change,
    /// The heads of the changed rows, where any row changes.
    pub(crate) heads: Option<List<RowHead>>,
    /// What the device keeps weighs so much then.
    pub(crate) weight: u64,
    pub(crate) framing: Framing,
}

impl Prepared {
    ghost use Rattle.std.specs.Prelude.{◌≡◌};

    /// The change.
    pub fn change(&self) -> &Change
        ensures { result.now ≡ self.now.change }
    {
        &self.change
    }
}
