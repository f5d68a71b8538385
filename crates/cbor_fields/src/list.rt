ghost use Rattle.std.specs.Prelude.{◌≡◌, map, IfOk};
ghost use Rattle.cbor_core.specs.declared.item.Item.TheVariants as i;
ghost use Rattle.cbor_fields.specs.Reads.{ReadsForm};
ghost use Rattle.cbor_fields.specs.Views.{each_of, list_of};

use crate::fault::FormFault;
use crate::form::Form;
use base_types::{List, OrMemory};
use cbor_core::Item;
use std::alloc::Global;
use std::marker::PhantomData;

/// An array whose members all have the form `F`, as the list of their values.
pub struct ListOf<F> {
    form: PhantomData<F>,
}

impl<V: Drop, F: Form<V>> Form<List<V>> for ListOf<F> {
    ghost view = { list_of F.view };

    ghost written = { λ values. i.Array (map F.written values) };

    fn read(alloc: Global, item: &Item) -> Result<List<V>, FormFault> {
        match item.as_array() {
            Some(members) => read_each::<V, F>(alloc, members),
            None => Err(FormFault::Shape),
        }
    }

    fn write(alloc: Global, values: &List<V>) -> OrMemory<Item> {
        Ok(Item::Array(write_each::<V, F>(alloc, values.as_slice())?))
    }
}

/// The values of items, in their order. `Shape` exactly where one has another shape.
fn read_each<V: Drop, F: Form<V>>(alloc: Global, members: &[Item]) -> Result<List<V>, FormFault>
    ensures { ReadsForm (each_of F.view members.now) result }
{
    let mut values = List::new(alloc);
    for member in members {
        values.push(F::read(alloc, member)?)?;
    }
    Ok(values)
}

/// The items that values are written as, in their order. Refused for want of memory alone.
fn write_each<V: Drop, F: Form<V>>(alloc: Global, values: &[V]) -> OrMemory<List<Item>>
    ensures { IfOk result (λ xs. xs ≡ map F.written values.now) }
{
    let mut items = List::new(alloc);
    for value in values {
        items.push(F::write(alloc, value)?)?;
    }
    Ok(items)
}
