// A change is written as bytes.
ghost use Rattle.std.specs.Prelude.{◌≡◌, ◌+◌, ◌≤◌, [], None, IfOk, IfSome, length};
ghost use Rattle.cbor_core.specs.Spelling.{Spells};
ghost use Rattle.commit_records.specs.Changes.{AnchorsOrNull, ChangeIs, IsProperChange, written_change, change_room};
ghost use Rattle.commit_records.specs.Rows.{null_or};
ghost use Rattle.device_state.specs.Valid.{AreFew};
ghost use Rattle.trust_anchors.specs.Anchors.{written_anchors};

use crate::rows::{Component, Row};
use base_types::{List, Octets, OrMemory};
use cbor_core::{Item, encode};
use cbor_fields::{Form, ListOf};
use device_state::Change;
use std::alloc::Global;
use trust_anchors::Anchors;

// Trust anchors as an item, or null for none.
fn write_anchors(alloc: Global, anchors: &Option<Anchors>) -> OrMemory<Item>
    requires { IfSome anchors.now AreFew }
    ensures value { IfOk result (λ x. x ≡ null_or written_anchors anchors.now) }
    ensures again { IfOk result (λ x. AnchorsOrNull x anchors.now) }
{
    match anchors {
        Some(anchors) => anchors.write(alloc),
        None => Ok(Item::Null),
    }
}

// A change as an item of version 2.
fn write_item(alloc: Global, change: &Change) -> OrMemory<Item>
    requires { IsProperChange change.now }
    ensures value { IfOk result (λ x. x ≡ written_change change.now) }
    ensures anchors { IfOk result (λ x. AnchorsOrNull (null_or written_anchors change.now.anchors) change.now.anchors) }
{
    let mut parts = List::new(alloc);
    parts.push(Item::Unsigned(2))?;
    parts.push(Item::Unsigned(change.leaf))?;
    parts.push(ListOf::<Row<Component>>::write(alloc, &change.rows)?)?;
    parts.push(write_anchors(alloc, &change.anchors)?)?;
    Ok(Item::Array(parts))
}

/// The change as bytes of version 2, which `read_change` reads back. Refused for want of memory alone.
pub fn write_change(alloc: Global, change: &Change) -> OrMemory<Octets>
    requires { IsProperChange change.now }
    // They spell the item of version 2.
    ensures spelled { IfOk result (λ bytes. Spells (written_change change.now) bytes) }
    // They are read as this change.
    ensures again { IfOk result (λ bytes. ChangeIs change.now bytes) }
    // A row takes less than it weighs, and anchors take less than 2,400 bytes.
    ensures size { IfOk result (λ bytes. length bytes + 5 ≤ change_room change.now) }
    // A leaf alone takes 13 bytes at most.
    ensures leaf_alone { change.now.rows ≡ [] → change.now.anchors ≡ None → IfOk result (λ bytes. length bytes ≤ 13) }
{
    let item = write_item(alloc, change)?;
    encode(alloc, &item)
}
