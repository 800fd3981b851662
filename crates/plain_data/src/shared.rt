//! Values that several owners hold.

ghost use Rattle.std.specs.Prelude.{◌≡◌, IfOk};
ghost use Rattle.std.specs.Arc.{arc_value};
ghost use Rattle.std.specs.Borrow.{sem};
ghost use Rattle.plain_data.specs.Lending.{LendsValue};

use crate::copies::{OutOfMemory, Plain};
use std::alloc::Global;
use std::marker::Model;
use std::ops::Deref;
use std::sync::Arc;

/// A value that several owners hold. To copy it is to add an owner, so a copy takes no memory.
/// Who writes to it parts from the other owners first. Contracts see the value.
#[derive(Debug)]
pub struct Shared<T> {
    held: Arc<T, Global>,
}

impl<T: Drop> Drop for Shared<T> {
    fn drop(self) {
        let Shared { held } = self;
        drop(held);
    }
}

impl<T> Model for Shared<T> {
    ghost use Rattle.std.specs.Arc.{arc_value};

    ghost Value = { T };

    ghost view = { λ s. arc_value s.held };
}

impl<T: Drop> Shared<T> {
    /// A value with one owner.
    pub fn new(alloc: Global, value: T) -> Result<Shared<T>, OutOfMemory>
        ensures { IfOk result (λ shared. shared ≡ value) }
    {
        Ok(Shared {
            held: Arc::new(alloc, value)?,
        })
    }
}

impl<T> Shared<T> {
    /// The value, to be read.
    pub fn get(&self) -> &T
        ensures { result.now ≡ self.now }
    {
        Deref::deref(&self.held)
    }
}

impl<T> Deref for Shared<T> {
    type Target = T;

    ghost use Rattle.std.specs.Prelude.{◌≡◌};

    ghost deref_gives = { λ s x. x ≡ s };

    fn deref(&self) -> &T
        ensures { result.now ≡ self.now }
    {
        self.get()
    }
}

impl<T: Plain> Shared<T> {
    /// Parts from the other owners, if there are any: they keep the value, and this has a copy.
    fn part(&mut self, alloc: Global) -> Result<(), OutOfMemory>
        ensures { self.new ≡ self.old }
    {
        if Arc::strong_count(&self.held) > 1 {
            let own = self.get().copy(alloc)?;
            self.held = Arc::new(alloc, own)?;
        }
        Ok(())
    }

    /// The value, to be written. The other owners keep the value that they have.
    pub fn value_mut(&mut self, alloc: Global) -> Result<&mut T, OutOfMemory>
        ensures* lends { sem 𝓛 (LendsValue T.row self.entry result) }
        ensures value { IfOk result (λ value. value.now ≡ self.old) }
    {
        self.part(alloc)?;
        match Arc::get_mut(&mut self.held) {
            Some(value) => Ok(value),
            None => Err(OutOfMemory),
        }
    }
}

impl<T: Plain> Plain for Shared<T> {
    fn copy(&self, _alloc: Global) -> Result<Shared<T>, OutOfMemory> {
        Ok(Shared {
            held: Arc::try_clone(&self.held)?,
        })
    }

    fn same(&self, other: &Shared<T>) -> bool {
        self.get().same(other.get())
    }
}
