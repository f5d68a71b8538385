ghost use Rattle.std.specs.Prelude.{◌≡◌, IfOk};

use crate::memory::OrMemory;
use std::alloc::{AllocError, Global};
use std::marker::Model;

/// One value on the heap, which contracts see as that value and not as a pointer.
///
/// A type that holds itself, as an item inside a tag, stands in one.
#[derive(Debug, Drop)]
pub struct Boxed<T> {
    inner: Box<T>,
}

impl<T> Model for Boxed<T> {
    ghost Value = { T };

    ghost coded = { T.code };

    ghost view = { λ it. it.inner.value };
}

impl<T> Boxed<T> {
    /// The value.
    pub fn get(&self) -> &T
        ensures { result.now ≡ self.now }
    {
        &self.inner
    }

    /// Takes the value out; the heap's room is given back.
    pub fn into_inner(self) -> T
        ensures { result ≡ self }
    {
        let Boxed { inner } = self;
        Box::into_inner(inner)
    }
}

impl<T: Drop> Boxed<T> {
    /// Moves a value to the heap. Refused for want of memory alone, and the value is dropped then.
    pub fn new(alloc: Global, value: T) -> OrMemory<Boxed<T>>
        ensures { IfOk result (λ it. it ≡ value) }
    {
        Ok(Boxed {
            inner: Box::new(alloc, value)?,
        })
    }
}

impl<T: PartialEq> PartialEq for Boxed<T> {
    ghost eq = { λ a b. T.eq a b };

    ghost laws = { T.laws };

    fn eq(&self, other: &Boxed<T>) -> bool {
        *self.inner == *other.inner
    }
}

impl<T: Eq> Eq for Boxed<T> {
    ghost laws = { T.Eq.laws };
}

impl<T: Clone> Clone for Boxed<T> {
    ghost is_clone = { λ v w. T.is_clone v w };

    fn clone(&self) -> Result<Boxed<T>, AllocError> {
        Ok(Boxed {
            inner: self.inner.clone()?,
        })
    }
}
