ghost use Rattle.cbor_core.specs.Views.{unsigned_of, bytes_of, text_of, truth_of};
ghost use Rattle.cbor_core.specs.declared.item.Item.TheVariants as i;

use crate::fault::FormFault;
use crate::form::Form;
use base_types::{Octets, OrMemory, Utf8};
use cbor_core::Item;
use std::alloc::Global;

/// An unsigned integer, as its number.
pub struct Unsigned;

impl Form<u64> for Unsigned {
    ghost view = { unsigned_of };

    ghost written = { λ n. i.Unsigned n };

    fn read(_alloc: Global, item: &Item) -> Result<u64, FormFault> {
        item.as_unsigned().ok_or(FormFault::Shape)
    }

    fn write(_alloc: Global, value: &u64) -> OrMemory<Item> {
        Ok(Item::Unsigned(*value))
    }
}

/// A byte string, as its bytes.
pub struct ByteString;

impl Form<Octets> for ByteString {
    ghost view = { bytes_of };

    ghost written = { λ bytes. i.Bytes bytes };

    fn read(alloc: Global, item: &Item) -> Result<Octets, FormFault> {
        match item.as_bytes() {
            Some(bytes) => Ok(Octets::from_slice(alloc, bytes)?),
            None => Err(FormFault::Shape),
        }
    }

    fn write(alloc: Global, value: &Octets) -> OrMemory<Item> {
        Ok(Item::Bytes(value.try_clone(alloc)?))
    }
}

/// A text string, as its text.
pub struct TextString;

impl Form<Utf8> for TextString {
    ghost view = { text_of };

    ghost written = { λ text. i.Text text };

    fn read(alloc: Global, item: &Item) -> Result<Utf8, FormFault> {
        match item.as_text() {
            Some(text) => Ok(Utf8::from_str(alloc, text)?),
            None => Err(FormFault::Shape),
        }
    }

    fn write(alloc: Global, value: &Utf8) -> OrMemory<Item> {
        Ok(Item::Text(value.try_clone(alloc)?))
    }
}

/// False or true.
pub struct Truth;

impl Form<bool> for Truth {
    ghost view = { truth_of };

    ghost written = { λ b. i.Truth b };

    fn read(_alloc: Global, item: &Item) -> Result<bool, FormFault> {
        item.as_truth().ok_or(FormFault::Shape)
    }

    fn write(_alloc: Global, value: &bool) -> OrMemory<Item> {
        Ok(Item::Truth(*value))
    }
}
