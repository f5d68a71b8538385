use crate::word::Word;
use base_types::{List, Octets};
use suit_engine::Engine;

/// What a manifest's row is made of, but for the images of its components.
#[derive(Drop)]
pub(crate) struct Target {
    pub(crate) id: Octets,
    pub(crate) sequence: u64,
    pub(crate) components: List<Octets>,
    /// No component belongs to another manifest.
    pub(crate) free: bool,
}

/// A manifest whose envelope was opened, verified and found newer, with its run, which waits where it
/// needs a payload.
#[derive(Drop)]
pub struct Candidate {
    pub(crate) target: Target,
    pub(crate) engine: Engine,
}

/// What becomes of a manifest before anything of it is run.
#[derive(Drop)]
pub enum Entry {
    /// It may be run.
    Goes(Candidate),
    /// It is not taken, for one of the first five reasons.
    Fails(Word),
}
