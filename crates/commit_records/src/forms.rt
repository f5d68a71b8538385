ghost use Rattle.std.specs.Prelude.{◌≡◌, IfOk, Some, None, option_map};
ghost use Rattle.cbor_core.specs.declared.item.Item.{out-Item};
ghost use Rattle.cbor_core.specs.Views.{is_null};
ghost use Rattle.commit_records.specs.Rows.{or_null, null_or};

use base_types::OrMemory;
use cbor_core::Item;
use cbor_fields::{Form, FormFault};
use std::alloc::Global;
use std::marker::PhantomData;

/// Null, or an item of the form `F`.
pub struct OrNull<F> {
    form: PhantomData<F>,
}

/// Whether an item is null (RFC 8949, section 3.3).
pub fn is_null(item: &Item) -> bool
    ensures { result ≡ is_null (out-Item item.now) }
{
    match item {
        Item::Null => true,
        _ => false,
    }
}

impl<V: Drop, F: Form<V>> Form<Option<V>> for OrNull<F> {
    ghost view = { or_null F.view };

    ghost written = { null_or F.written };

    fn read(alloc: Global, item: &Item) -> Result<Option<V>, FormFault> {
        if is_null(item) {
            return Ok(None);
        }
        match F::read(alloc, item) {
            Ok(value) => Ok(Some(value)),
            Err(fault) => Err(fault),
        }
    }

    fn write(alloc: Global, value: &Option<V>) -> OrMemory<Item> {
        match value {
            Some(value) => F::write(alloc, value),
            None => Ok(Item::Null),
        }
    }
}
