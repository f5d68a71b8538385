// A whole state as the bodies of a journal.
ghost use Rattle.std.specs.Prelude.{◌≡◌, ◌≤◌, ◌+◌, IfOk, IfSome, length, ◌∷◌, []};
ghost use Rattle.std.specs.List.{AllByRecursion};
ghost use Rattle.journal_core.specs.Frames.{frames};
ghost use Rattle.commit_records.specs.Changes.{ChangeIs, HaveDigests, change_room, anchors_room, rows_room};
ghost use Rattle.device_config.specs.declared.config.Config.{Config};
ghost use Rattle.device_state.specs.State.{changed, put_rows, with_anchors, rows_weight};
ghost use Rattle.device_state.specs.Valid.{AreFew, IsValid};
ghost use Rattle.device_state.specs.Law.{AreInOrder};
ghost use Rattle.device_image.specs.Held.{IsSafe, state_of, head_of};
ghost use Rattle.device_image.specs.Stands.{Leads};
ghost use Rattle.component_store.specs.Preparing.{MayFollow};
ghost use Rattle.component_store.specs.Replacing.{LeadFor, row_changes, AnchorsFor};

use crate::change::{copied_anchors, copied_rows};
use base_types::{List, Octets, OrMemory};
use commit_records::write_change;
use device_image::Held;
use device_state::{Change, ManifestRow, put};
use std::alloc::Global;
use trust_anchors::Anchors;

/// The rows that a change makes of others, copied.
pub(crate) fn changed_rows(
    alloc: Global,
    rows: &[ManifestRow],
    more: &[ManifestRow],
) -> OrMemory<Vec<ManifestRow>>
    requires { AreInOrder rows.now }
    ensures { IfOk result (λ it. it.items ≡ put_rows more.now rows.now) }
{
    let mut changed = copied_rows(alloc, rows, more.len())?;
    for row in more {
        put(&mut changed, row.copy(alloc)?.order());
    }
    Ok(changed)
}

/// The body of a row alone.
fn row_body(
    alloc: Global,
    leaf: u64,
    row: ManifestRow,
    anchors: Option<Anchors>,
) -> OrMemory<Octets>
    requires digests { HaveDigests row }
    requires anchors { IfSome anchors AreFew }
    ensures change { IfOk result (ChangeIs (record { leaf = leaf; rows = row ∷ []; anchors = anchors })) }
    ensures size { IfOk result (λ body. length body + 5 ≤ change_room (record { leaf = leaf; rows = row ∷ []; anchors = anchors })) }
{
    let mut rows = List::new(alloc);
    rows.push(row)?;
    write_change(
        alloc,
        &Change {
            leaf,
            rows,
            anchors,
        },
    )
}

/// The bodies of rows, one for each. The first has the anchors.
fn row_bodies(
    alloc: Global,
    leaf: u64,
    rows: Vec<ManifestRow>,
    anchors: Option<Anchors>,
) -> OrMemory<List<Octets>>
    requires digests { AllByRecursion HaveDigests rows.items }
    requires anchors { IfSome anchors AreFew }
    ensures lead { IfOk result (LeadFor (row_changes leaf anchors rows.items)) }
    ensures size { IfOk result (λ bodies. length (frames bodies) ≤ anchors_room anchors + rows_weight rows.items) }
{
    let mut bodies = List::new(alloc);
    let mut anchors = anchors;
    for row in rows {
        bodies.push(row_body(alloc, leaf, row, anchors.take())?)?;
    }
    Ok(bodies)
}

/// The body of a state without rows, in a list.
fn bare_body(alloc: Global, leaf: u64, anchors: Option<Anchors>) -> OrMemory<List<Octets>>
    requires { IfSome anchors AreFew }
    ensures lead { IfOk result (LeadFor (record { leaf = leaf; rows = []; anchors = anchors } ∷ [])) }
    ensures size { IfOk result (λ bodies. length (frames bodies) ≤ anchors_room anchors + 32) }
{
    let rows = List::new(alloc);
    let body = write_change(
        alloc,
        &Change {
            leaf,
            rows,
            anchors,
        },
    )?;
    let mut bodies = List::new(alloc);
    bodies.push(body)?;
    Ok(bodies)
}

/// The anchors behind a change.
fn anchors_behind<'a>(held: &'a Held, change: &'a Change) -> &'a Anchors
    ensures { result.now ≡ (with_anchors change.now.anchors held.now.config).anchors }
{
    match &change.anchors {
        Some(anchors) => anchors,
        None => &held.config.anchors,
    }
}

/// The anchors in the head of the image.
fn anchors_in_head(held: &Held) -> &Anchors
    ensures { result.now ≡ (head_of held.now).anchors }
{
    match &held.first_anchors {
        Some(anchors) => anchors,
        None => &held.config.anchors,
    }
}

/// The anchors behind a change, copied, where they differ from those of the head.
fn anchors_to_write(alloc: Global, held: &Held, change: &Change) -> OrMemory<Option<Anchors>>
    ensures { IfOk result (AnchorsFor (head_of held.now) (with_anchors change.now.anchors held.now.config)) }
{
    let behind = anchors_behind(held, change);
    if *behind == *anchors_in_head(held) {
        return Ok(None);
    }
    Ok(Some(copied_anchors(alloc, behind)?))
}

/// The bodies that lead from the head of the image to what a change makes of the state.
pub(crate) fn bodies_for(alloc: Global, held: &Held, change: &Change) -> OrMemory<List<Octets>>
    requires order { AreInOrder held.now.rows.items }
    requires valid { IsValid (changed change.now (state_of held.now)) }
    ensures lead { IfOk result (λ bodies. Leads (head_of held.now) bodies (changed change.now (state_of held.now))) }
    ensures size { IfOk result (λ bodies. length (frames bodies) ≤ held.now.config.quota + 2432) }
{
    let rows = changed_rows(alloc, held.rows.as_slice(), change.rows.as_slice())?;
    let anchors = anchors_to_write(alloc, held, change)?;
    if rows.is_empty() {
        bare_body(alloc, change.leaf, anchors)
    } else {
        row_bodies(alloc, change.leaf, rows, anchors)
    }
}
