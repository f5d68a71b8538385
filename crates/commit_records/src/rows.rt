ghost use Rattle.std.specs.Prelude.{◌≡◌, IfOk};
ghost use Rattle.item_codec.specs.Answers.{Answers};
ghost use Rattle.item_codec.specs.Fields.{in_array};
ghost use Rattle.commit_records.specs.Rows.{plain_in, plain_of, plain_item, component_in, component_of, component_item, row_in, row_of, row_item};

use crate::forms::OrNull;
use base_types::{List, OrMemory};
use cbor_core::Item;
use cbor_fields::{ByteString, Form, FormFault, ListOf, Truth, Unsigned};
use device_state::{ComponentRow, ManifestRow};
use item_codec::read_part;
use std::alloc::Global;
use std::marker::PhantomData;
use suit_commands::DigestArray;

/// A component of version 1, `[component id, content]`: no digest is kept.
pub struct PlainComponent;

impl Form<ComponentRow> for PlainComponent {
    ghost view = { plain_of };

    ghost written = { plain_item };

    #[tactic(auto, using(item_codec::proofs::Public::Forms::form_reads))]
    fn read(alloc: Global, item: &Item) -> Result<ComponentRow, FormFault> {
        read_plain(alloc, item)
    }

    fn write(alloc: Global, value: &ComponentRow) -> OrMemory<Item> {
        let mut members = List::new(alloc);
        members.push(ByteString::write(alloc, &value.id)?)?;
        members.push(ByteString::write(alloc, &value.bytes)?)?;
        Ok(Item::Array(members))
    }
}

/// A component of version 2, `[component id, digest, content]`, the digest null or `[alg, bytes]`.
pub struct Component;

impl Form<ComponentRow> for Component {
    ghost view = { component_of };

    ghost written = { component_item };

    #[tactic(auto, using(item_codec::proofs::Public::Forms::form_reads))]
    fn read(alloc: Global, item: &Item) -> Result<ComponentRow, FormFault> {
        read_component(alloc, item)
    }

    fn write(alloc: Global, value: &ComponentRow) -> OrMemory<Item> {
        let mut members = List::new(alloc);
        members.push(ByteString::write(alloc, &value.id)?)?;
        members.push(OrNull::<DigestArray>::write(alloc, &value.digest)?)?;
        members.push(ByteString::write(alloc, &value.bytes)?)?;
        Ok(Item::Array(members))
    }
}

/// A manifest, `[id, sequence, present, [component, ..]]`, with components of the form `C`.
pub struct Row<C> {
    component: PhantomData<C>,
}

impl<C: Form<ComponentRow>> Form<ManifestRow> for Row<C> {
    ghost view = { row_of C.view };

    ghost written = { row_item C.written };

    #[tactic(auto, using(item_codec::proofs::Public::Forms::form_reads))]
    fn read(alloc: Global, item: &Item) -> Result<ManifestRow, FormFault> {
        read_row::<C>(alloc, item)
    }

    fn write(alloc: Global, value: &ManifestRow) -> OrMemory<Item> {
        let mut members = List::new(alloc);
        members.push(ByteString::write(alloc, &value.id)?)?;
        members.push(Unsigned::write(alloc, &value.sequence)?)?;
        members.push(Truth::write(alloc, &value.present)?)?;
        members.push(ListOf::<C>::write(alloc, &value.components)?)?;
        Ok(Item::Array(members))
    }
}

/// A component of version 1.
fn read_plain(alloc: Global, item: &Item) -> Result<ComponentRow, FormFault>
    ensures { Answers FormFault.NoMemory (in_array FormFault.Shape plain_in item.now) result }
{
    let Some([id, content]) = item.as_array() else {
        return Err(FormFault::Shape);
    };
    let id = read_part::<_, _, ByteString>(alloc, id, FormFault::Shape)?;
    let bytes = read_part::<_, _, ByteString>(alloc, content, FormFault::Shape)?;
    Ok(ComponentRow {
        id,
        bytes,
        digest: None,
    })
}

/// A component of version 2.
fn read_component(alloc: Global, item: &Item) -> Result<ComponentRow, FormFault>
    ensures { Answers FormFault.NoMemory (in_array FormFault.Shape component_in item.now) result }
{
    let Some([id, digest, content]) = item.as_array() else {
        return Err(FormFault::Shape);
    };
    let id = read_part::<_, _, ByteString>(alloc, id, FormFault::Shape)?;
    let digest = read_part::<_, _, OrNull<DigestArray>>(alloc, digest, FormFault::Shape)?;
    let bytes = read_part::<_, _, ByteString>(alloc, content, FormFault::Shape)?;
    Ok(ComponentRow { id, bytes, digest })
}

/// A manifest with components of the form `C`.
fn read_row<C: Form<ComponentRow>>(alloc: Global, item: &Item) -> Result<ManifestRow, FormFault>
    ensures { Answers FormFault.NoMemory (in_array FormFault.Shape (row_in C.view) item.now) result }
{
    let Some([id, sequence, present, components]) = item.as_array() else {
        return Err(FormFault::Shape);
    };
    let id = read_part::<_, _, ByteString>(alloc, id, FormFault::Shape)?;
    let sequence = read_part::<_, _, Unsigned>(alloc, sequence, FormFault::Shape)?;
    let present = read_part::<_, _, Truth>(alloc, present, FormFault::Shape)?;
    let components = read_part::<_, _, ListOf<C>>(alloc, components, FormFault::Shape)?;
    Ok(ManifestRow {
        id,
        sequence,
        present,
        components,
    })
}
