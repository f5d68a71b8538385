ghost use Rattle.std.specs.Prelude.{◌≡◌, ◌+◌};
ghost use Rattle.device_state.specs.State as State;
ghost use Rattle.device_state.specs.Heads as Heads;
ghost use Rattle.device_state.specs.State.{capped};

use crate::heads::{PartHead, RowHead};
use crate::rows::{ComponentRow, ManifestRow};

/// What each element weighs beside its identifier and what it holds, in bytes.
const OWN_WEIGHT: u64 = 256;

/// 256 bytes and two lengths.
fn own_weight(id: usize, more: u64) -> u64
    ensures { result ≡ capped (256 + id + more) }
{
    OWN_WEIGHT.saturating_add(id as u64).saturating_add(more)
}

impl ComponentRow {
    fn weight(&self) -> u64
        ensures { result ≡ capped (State.component_weight self.now) }
    {
        own_weight(self.id.len(), self.bytes.len() as u64)
    }
}

impl ManifestRow {
    /// What the manifest weighs with its components, in bytes, and at most 2^64 - 1: 256 and its identifier, and
    /// for each component 256, its identifier and its image.
    pub fn weight(&self) -> u64
        ensures { result ≡ capped (State.row_weight self.now) }
    {
        let mut weight = own_weight(self.id.len(), 0);
        for component in self.components.as_slice() {
            weight = weight.saturating_add(component.weight());
        }
        weight
    }
}

impl PartHead {
    fn weight(&self) -> u64
        ensures { result ≡ capped (Heads.part_weight self.now) }
    {
        own_weight(self.id.len(), self.length)
    }
}

impl RowHead {
    /// What the manifest weighs, as `ManifestRow::weight` has it.
    pub fn weight(&self) -> u64
        ensures { result ≡ capped (Heads.head_weight self.now) }
    {
        let mut weight = own_weight(self.id.len(), 0);
        for component in self.components.as_slice() {
            weight = weight.saturating_add(component.weight());
        }
        weight
    }
}

/// What manifests weigh, in bytes, and at most 2^64 - 1.
pub fn rows_weight(rows: &[ManifestRow]) -> u64
    ensures { result ≡ capped (State.rows_weight rows.now) }
{
    let mut weight = 0u64;
    for row in rows {
        weight = weight.saturating_add(row.weight());
    }
    weight
}

/// The same of manifests without the bytes of their components.
pub fn heads_weight(heads: &[RowHead]) -> u64
    ensures { result ≡ capped (Heads.heads_weight heads.now) }
{
    let mut weight = 0u64;
    for head in heads {
        weight = weight.saturating_add(head.weight());
    }
    weight
}
