use base_types::List;
use cbor_core::Item;

/// One operation of a cipher suite: a COSE tag, and the algorithm for it.
#[derive(Debug, Drop, Eq, PartialEq)]
pub struct Operation {
    pub tag: u64,
    pub alg: Item,
}

/// A cipher suite, its operations in order.
pub type Suite = List<Operation>;

/// A SUIT COSE profile, its algorithms in order. One that is read has at least one.
pub type Profile = List<Item>;
