ghost use Rattle.std.specs.Prelude.{◌≡◌, IfOk, Some, None};
ghost use Rattle.std.specs.Option.{option_copied};

use base_types::OrMemory;
use std::alloc::Global;
use std::marker::Model;
use std::rc::Rc;

/// A value with several owners, none of which changes it. Contracts see the value alone.
#[derive(Drop)]
pub(crate) struct Shared<T> {
    owned: Rc<T>,
}

impl<T> Model for Shared<T> {
    ghost Value = { T };

    ghost coded = { T.code };

    ghost view = { λ it. it.owned.value };
}

impl<T: Drop> Shared<T> {
    /// Moves a value to where it can be shared. Refused for want of memory alone.
    pub(crate) fn new(alloc: Global, value: T) -> OrMemory<Shared<T>>
        ensures { IfOk result (λ it. it ≡ value) }
    {
        Ok(Shared {
            owned: Rc::new(alloc, value)?,
        })
    }

    /// The value.
    pub(crate) fn get(&self) -> &T
        ensures { result.now ≡ self.now }
    {
        self.owned.as_ref()
    }

    /// One owner more of the same value, which is not copied. Refused where there are too many.
    pub(crate) fn share(&self) -> OrMemory<Shared<T>>
        ensures { IfOk result (λ it. it ≡ self.now) }
    {
        Ok(Shared {
            owned: self.owned.clone()?,
        })
    }
}

/// A value that is there or not, with several owners.
#[derive(Drop)]
pub(crate) struct Slot<T> {
    held: Option<Rc<T>>,
}

impl<T> Model for Slot<T> {
    ghost use Rattle.std.specs.Prelude.{Option, option_map};
    ghost use Rattle.std.specs.Coded.{coded_option};

    ghost Value = { Option T };

    ghost coded = { coded_option T.code };

    ghost view = { λ it. option_map (λ rc. rc.value) it.held };
}

impl<T: Drop> Slot<T> {
    /// No value, which takes no memory.
    pub(crate) fn empty() -> Slot<T>
        ensures { result ≡ None }
    {
        Slot { held: None }
    }

    /// A value of its own. Refused for want of memory alone.
    pub(crate) fn of(alloc: Global, value: T) -> OrMemory<Slot<T>>
        ensures { IfOk result (λ it. it ≡ Some value) }
    {
        Ok(Slot {
            held: Some(Rc::new(alloc, value)?),
        })
    }

    /// A value that others own too. Refused where there are too many.
    pub(crate) fn shared(value: &Shared<T>) -> OrMemory<Slot<T>>
        ensures { IfOk result (λ it. it ≡ Some value.now) }
    {
        Ok(Slot {
            held: Some(value.owned.clone()?),
        })
    }

    /// The value, where it is there.
    pub(crate) fn get(&self) -> Option<&T>
        ensures { option_copied result ≡ self.now }
    {
        match &self.held {
            Some(owned) => Some(owned.as_ref()),
            None => None,
        }
    }

    /// One owner more of the same value, which is not copied. Refused where there are too many.
    pub(crate) fn share(&self) -> OrMemory<Slot<T>>
        ensures { IfOk result (λ it. it ≡ self.now) }
    {
        match &self.held {
            Some(owned) => Ok(Slot {
                held: Some(owned.clone()?),
            }),
            None => Ok(Slot { held: None }),
        }
    }
}
