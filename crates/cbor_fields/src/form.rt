ghost use Rattle.std.specs.Prelude.{◌≡◌, Option, IfOk};
ghost use Rattle.cbor_core.specs.declared.item.Item.{Item};
ghost use Rattle.cbor_fields.specs.Reads.{ReadsForm};

use crate::fault::FormFault;
use base_types::OrMemory;
use cbor_core::Item;
use std::alloc::Global;

/// A shape that items may have, with the value of type `V` that such an item stands for.
pub trait Form<V> {
    ghost view: { Item → Option V };

    ghost written: { V → Item };

    /// The value of an item. `Shape` exactly where it has another shape.
    fn read(alloc: Global, item: &Item) -> Result<V, FormFault>
        ensures { ReadsForm (view item.now) result };

    /// The item that a value is written as. By `forms_determine` it is the one that has the value, if
    /// bytes spell one. Refused for want of memory alone.
    fn write(alloc: Global, value: &V) -> OrMemory<Item>
        ensures { IfOk result (λ x. x ≡ written value.now) };
}
