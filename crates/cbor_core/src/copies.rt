ghost use Rattle.std.specs.Prelude.{◌≡◌, IfOk};

use crate::item::{Item, Pair};
use base_types::{Boxed, List, OrMemory};
use std::alloc::Global;

impl Item {
    /// A copy, of each part too. Refused for want of memory alone.
    pub fn try_clone(&self, alloc: Global) -> OrMemory<Item>
        ensures { IfOk result (λ x. x ≡ self.now) }
    {
        copy_item(alloc, self)
    }
}

impl Pair {
    /// A copy of the key and the value. Refused for want of memory alone.
    pub fn try_clone(&self, alloc: Global) -> OrMemory<Pair>
        ensures { IfOk result (λ pair. pair ≡ self.now) }
    {
        copy_pair(alloc, self)
    }
}

#[cycle(copies)]
fn copy_item(alloc: Global, item: &Item) -> OrMemory<Item>
    ensures { IfOk result (λ x. x ≡ item.now) }
{
    match item {
        Item::Unsigned(n) => Ok(Item::Unsigned(*n)),
        Item::Negative(n) => Ok(Item::Negative(*n)),
        Item::Bytes(bytes) => Ok(Item::Bytes(bytes.try_clone(alloc)?)),
        Item::Text(text) => Ok(Item::Text(text.try_clone(alloc)?)),
        Item::Array(members) => Ok(Item::Array(copy_items(alloc, members.as_slice())?)),
        Item::Map(pairs) => Ok(Item::Map(copy_pairs(alloc, pairs.as_slice())?)),
        Item::Tag(n, content) => Ok(Item::Tag(*n, copy_boxed(alloc, content)?)),
        Item::Truth(b) => Ok(Item::Truth(*b)),
        Item::Null => Ok(Item::Null),
    }
}

#[cycle(copies)]
fn copy_boxed(alloc: Global, content: &Boxed<Item>) -> OrMemory<Boxed<Item>>
    ensures { IfOk result (λ x. x ≡ content.now) }
{
    Boxed::new(alloc, copy_item(alloc, content.get())?)
}

/// A copy of items, in their order. Refused for want of memory alone.
#[cycle(copies)]
pub fn copy_items(alloc: Global, items: &[Item]) -> OrMemory<List<Item>>
    ensures { IfOk result (λ xs. xs ≡ items.now) }
{
    let mut copies = List::new(alloc);
    for item in items {
        copies.push(copy_item(alloc, item)?)?;
    }
    Ok(copies)
}

/// A copy of pairs, in their order. Refused for want of memory alone.
#[cycle(copies)]
pub fn copy_pairs(alloc: Global, pairs: &[Pair]) -> OrMemory<List<Pair>>
    ensures { IfOk result (λ xs. xs ≡ pairs.now) }
{
    let mut copies = List::new(alloc);
    for pair in pairs {
        copies.push(copy_pair(alloc, pair)?)?;
    }
    Ok(copies)
}

#[cycle(copies)]
fn copy_pair(alloc: Global, pair: &Pair) -> OrMemory<Pair>
    ensures { IfOk result (λ x. x ≡ pair.now) }
{
    let key = copy_item(alloc, &pair.key)?;
    let value = copy_item(alloc, &pair.value)?;
    Ok(Pair { key, value })
}
