// Copies of what a change has.
ghost use Rattle.std.specs.Prelude.{◌≡◌, ◌+◌, ◌≤◌, IfOk, vec_len, vec_capacity};

use base_types::{List, OrMemory};
use device_state::{Change, ManifestRow};
use hss_verify::HssPublic;
use std::alloc::Global;
use trust_anchors::Anchors;

/// Copies of keys.
fn copied_keys(alloc: Global, keys: &List<HssPublic>) -> OrMemory<List<HssPublic>>
    ensures { IfOk result (λ it. it ≡ keys.now) }
{
    let mut copies = List::new(alloc);
    for key in keys.as_slice() {
        copies.push(*key)?;
    }
    Ok(copies)
}

/// A copy of anchors.
pub(crate) fn copied_anchors(alloc: Global, anchors: &Anchors) -> OrMemory<Anchors>
    ensures { IfOk result (λ it. it ≡ anchors.now) }
{
    let manager = copied_keys(alloc, &anchors.manager)?;
    let author = copied_keys(alloc, &anchors.author)?;
    Ok(Anchors { manager, author })
}

/// Copies of rows, with room for so many more.
pub(crate) fn copied_rows(
    alloc: Global,
    rows: &[ManifestRow],
    more: usize,
) -> OrMemory<Vec<ManifestRow>>
    ensures rows { IfOk result (λ it. it.items ≡ rows.now) }
    ensures room { IfOk result (λ it. vec_len it + more ≤ vec_capacity it) }
{
    let mut copies = Vec::new(alloc);
    for row in rows {
        copies.push(row.copy(alloc)?)?;
    }
    copies.reserve(more)?;
    Ok(copies)
}

/// A copy of a change.
pub(crate) fn copied_change(alloc: Global, change: &Change) -> OrMemory<Change>
    ensures { IfOk result (λ it. it ≡ change.now) }
{
    let rows = List::from_vec(copied_rows(alloc, change.rows.as_slice(), 0)?);
    let anchors = match &change.anchors {
        Some(anchors) => Some(copied_anchors(alloc, anchors)?),
        None => None,
    };
    Ok(Change {
        leaf: change.leaf,
        rows,
        anchors,
    })
}
