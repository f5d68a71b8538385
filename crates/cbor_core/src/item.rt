use base_types::{Boxed, List, Octets, Utf8};

/// A CBOR data item (RFC 8949, section 3.1), of those kinds that this codec knows.
#[derive(Debug, Drop, Eq, PartialEq)]
#[cycle(item)]
pub enum Item {
    /// The number itself.
    Unsigned(u64),
    /// The number -1-n.
    Negative(u64),
    /// A byte string.
    Bytes(Octets),
    /// A text string.
    Text(Utf8),
    /// Items in order.
    Array(List<Item>),
    /// Keys with their values. It is proper where the keys ascend strictly by their encodings.
    Map(List<Pair>),
    /// A tag number and the item that it is put on.
    Tag(u64, Boxed<Item>),
    /// False or true.
    Truth(bool),
    /// Null.
    Null,
}

/// A key of a map and its value.
#[derive(Debug, Drop, Eq, PartialEq)]
#[cycle(item)]
pub struct Pair {
    pub key: Item,
    pub value: Item,
}
