ghost use Rattle.std.specs.Option.{option_copied};
ghost use Rattle.cbor_core.specs.Views as Views;
ghost use Rattle.item_codec.specs.Answers.{Answers};
ghost use Rattle.item_codec.specs.Fields.{shaped, sized, optional_at, needed_at};

use crate::refusal::Refusal;
use base_types::Octets;
use cbor_core::{Item, Pair, field};
use cbor_fields::{ByteString, Form, FormFault};
use std::alloc::Global;

/// The value of an item in a form. `fault` exactly where it has another shape.
pub fn read_part<V: Drop, E: Refusal, F: Form<V>>(
    alloc: Global,
    item: &Item,
    fault: E,
) -> Result<V, E>
    ensures found { Answers E.no_memory (shaped fault F.view item.now) result }
{
    match F::read(alloc, item) {
        Ok(value) => Ok(value),
        Err(FormFault::Shape) => Err(fault),
        Err(FormFault::NoMemory) => Err(E::out_of_memory()),
    }
}

/// A byte string of so many bytes. `shape` exactly where the item is none, and `size` exactly where it
/// has another size.
pub fn read_sized<E: Refusal>(
    alloc: Global,
    item: &Item,
    least: usize,
    most: usize,
    shape: E,
    size: E,
) -> Result<Octets, E>
    ensures found { Answers E.no_memory (sized least most shape size item.now) result }
{
    match read_part::<Octets, E, ByteString>(alloc, item, shape) {
        Ok(bytes) => {
            if least <= bytes.len() && bytes.len() <= most {
                Ok(bytes)
            } else {
                Err(size)
            }
        }
        Err(fault) => Err(fault),
    }
}

/// The value of an item in a form, where an item is there. `fault` exactly where it is and has another
/// shape.
pub fn read_optional<V: Drop, E: Refusal, F: Form<V>>(
    alloc: Global,
    item: Option<&Item>,
    fault: E,
) -> Result<Option<V>, E>
    ensures found { Answers E.no_memory (optional_at (shaped fault F.view) (option_copied item.entry)) result }
{
    match item {
        Some(item) => match read_part::<V, E, F>(alloc, item, fault) {
            Ok(value) => Ok(Some(value)),
            Err(fault) => Err(fault),
        },
        None => Ok(None),
    }
}

/// The value of an item in a form, which must be there. `missing` exactly where it is not, and `fault`
/// exactly where it has another shape.
pub fn read_required<V: Drop, E: Refusal, F: Form<V>>(
    alloc: Global,
    item: Option<&Item>,
    missing: E,
    fault: E,
) -> Result<V, E>
    ensures found { Answers E.no_memory (needed_at (shaped fault F.view) missing (option_copied item.entry)) result }
{
    match item {
        Some(item) => read_part::<V, E, F>(alloc, item, fault),
        None => Err(missing),
    }
}

/// The field of a map under a label, where it is there. `fault` exactly where it is and has another
/// shape.
pub fn read_known<V: Drop, E: Refusal, F: Form<V>>(
    alloc: Global,
    pairs: &[Pair],
    label: u64,
    fault: E,
) -> Result<Option<V>, E>
    ensures found { Answers E.no_memory (optional_at (shaped fault F.view) (Views.field label pairs.now)) result }
{
    read_optional::<V, E, F>(alloc, field(pairs, label), fault)
}

/// A byte string of so many bytes under a label, where it is there. `shape` and `size` as `read_sized`
/// has them.
pub fn read_known_sized<E: Refusal>(
    alloc: Global,
    pairs: &[Pair],
    label: u64,
    least: usize,
    most: usize,
    shape: E,
    size: E,
) -> Result<Option<Octets>, E>
    ensures found { Answers E.no_memory (optional_at (sized least most shape size) (Views.field label pairs.now)) result }
{
    match field(pairs, label) {
        Some(item) => match read_sized(alloc, item, least, most, shape, size) {
            Ok(bytes) => Ok(Some(bytes)),
            Err(fault) => Err(fault),
        },
        None => Ok(None),
    }
}
