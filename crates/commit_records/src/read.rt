// A change is read from its bytes.
ghost use Rattle.std.specs.Prelude.{◌≡◌, ◌↔◌, Some, IfOk, IsTrue};
ghost use Rattle.cbor_core.specs.Views.{unsigned_of};
ghost use Rattle.commit_records.specs.Answers.{Answers, Has, HasAnchors, IsFound};
ghost use Rattle.commit_records.specs.Answers as Told;
ghost use Rattle.commit_records.specs.Changes.{AnchorsOrNull, ChangeIs, IsChangeItem, IsFirst, IsSecond};

use crate::fault::ChangeFault;
use crate::forms::is_null;
use crate::rows::{Component, PlainComponent, Row};
use base_types::List;
use cbor_core::{CborFault, Item, decode_whole};
use cbor_fields::{Form, FormFault, ListOf, Unsigned};
use device_state::{Change, ManifestRow};
use std::alloc::Global;
use trust_anchors::{AnchorFault, Anchors};

// The value of an item in a form.
fn read_form<V: Drop, F: Form<V>>(alloc: Global, item: &Item) -> Result<V, ChangeFault>
    ensures { Answers (Has F.view item.now) result }
{
    match F::read(alloc, item) {
        Ok(value) => Ok(value),
        Err(FormFault::Shape) => Err(ChangeFault::BadChange),
        Err(FormFault::NoMemory) => Err(ChangeFault::NoMemory),
    }
}

// Whether an item is this number.
fn is_number(item: &Item, number: u64) -> bool
    ensures { IsTrue result ↔ (unsigned_of item.now ≡ Some number) }
{
    item.as_unsigned() == Some(number)
}

// Why anchors are refused, as a fault of the change that they belong to.
fn fault_of(fault: AnchorFault) -> ChangeFault
    ensures { result ≡ Told.fault_of fault }
{
    match fault {
        AnchorFault::NoMemory => ChangeFault::NoMemory,
        _ => ChangeFault::BadChange,
    }
}

// Trust anchors.
fn read_anchors(alloc: Global, item: &Item) -> Result<Anchors, ChangeFault>
    ensures { Answers (HasAnchors item.now) result }
{
    match Anchors::read(alloc, item) {
        Ok(anchors) => Ok(anchors),
        Err(fault) => Err(fault_of(fault)),
    }
}

// Trust anchors, or null for none.
fn read_anchors_or_null(alloc: Global, item: &Item) -> Result<Option<Anchors>, ChangeFault>
    ensures { Answers (AnchorsOrNull item.now) result }
{
    if is_null(item) {
        return Ok(None);
    }
    match read_anchors(alloc, item) {
        Ok(anchors) => Ok(Some(anchors)),
        Err(fault) => Err(fault),
    }
}

// The parts of version 1.
fn read_first(
    alloc: Global,
    version: &Item,
    leaf: &Item,
    rows: &Item,
) -> Result<Change, ChangeFault>
    ensures { Answers (IsFirst version.now leaf.now rows.now) result }
{
    if !is_number(version, 1) {
        return Err(ChangeFault::BadChange);
    }
    let leaf = read_form::<u64, Unsigned>(alloc, leaf)?;
    let rows = read_form::<List<ManifestRow>, ListOf<Row<PlainComponent>>>(alloc, rows)?;
    Ok(Change {
        leaf,
        rows,
        anchors: None,
    })
}

// The parts of version 2.
fn read_second(
    alloc: Global,
    version: &Item,
    leaf: &Item,
    rows: &Item,
    anchors: &Item,
) -> Result<Change, ChangeFault>
    ensures { Answers (IsSecond version.now leaf.now rows.now anchors.now) result }
{
    if !is_number(version, 2) {
        return Err(ChangeFault::BadChange);
    }
    let leaf = read_form::<u64, Unsigned>(alloc, leaf)?;
    let rows = read_form::<List<ManifestRow>, ListOf<Row<Component>>>(alloc, rows)?;
    let anchors = read_anchors_or_null(alloc, anchors)?;
    Ok(Change {
        leaf,
        rows,
        anchors,
    })
}

// A change that is an item already.
fn read_item(alloc: Global, item: &Item) -> Result<Change, ChangeFault>
    ensures { Answers (IsChangeItem item.now) result }
{
    match item.as_array() {
        Some([version, leaf, rows]) => read_first(alloc, version, leaf, rows),
        Some([version, leaf, rows, anchors]) => read_second(alloc, version, leaf, rows, anchors),
        _ => Err(ChangeFault::BadChange),
    }
}

/// Reads the change that all the bytes spell (RFC 8949, section 4.2.1): `[1, leaf, rows]`, or `[2, leaf,
/// rows, anchors]`, with anchors that are null or read by `Anchors::read`. Identifiers are byte strings
/// of any content here: whether they are identifiers is judged on the state that changes make.
///
/// `BadChange` exactly where they spell no such thing. `NoMemory` may come for any bytes. Memory is
/// taken as values are read, and for no count that the bytes claim.
pub fn read_change(alloc: Global, bytes: &[u8]) -> Result<Change, ChangeFault>
    // What is found is what the bytes are.
    ensures found { IfOk result (λ change. ChangeIs change bytes.now) }
    // What the bytes are is found, unless memory runs out.
    ensures only { (change : Change) → ChangeIs change bytes.now → IsFound result change }
{
    match decode_whole(alloc, bytes) {
        Ok(item) => read_item(alloc, &item),
        Err(CborFault::NoMemory) => Err(ChangeFault::NoMemory),
        Err(CborFault::Bad(_)) => Err(ChangeFault::BadChange),
    }
}
