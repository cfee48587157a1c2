//! Values of which copies share what they hold.

ghost use Rattle.std.specs.Prelude.{◌≡◌, IfOk};

use s57_types::Duplicate;
use std::alloc::{AllocError, Global};
use std::marker::Model;
use std::ops::Deref;
use std::sync::Arc;

/// A value of which a copy is a count.
#[derive(Drop)]
pub struct Shared<T: Drop> {
    value: Arc<T, Global>,
}

impl<T: Drop> Model for Shared<T> {
    ghost use Rattle.std.specs.Arc.{arc_value};

    ghost Value = { T };

    ghost view = { λ s. arc_value s.value };
}

impl<T: Drop> Shared<T> {
    /// The value, to be shared. An `Err` means out of memory.
    pub fn make(alloc: Global, value: T) -> Result<Shared<T>, AllocError>
        ensures { IfOk result (λ shared. shared ≡ value) }
    {
        Ok(Shared {
            value: Arc::new(alloc, value)?,
        })
    }
}

impl<T: Drop> Deref for Shared<T> {
    type Target = T;

    fn deref(&self) -> &T
        ensures { result.now ≡ self.now }
    {
        &self.value
    }
}

impl<T: Drop> Duplicate for Shared<T> {
    /// The same value, shared. An `Err` says that it can't be counted any more.
    fn copy(&self, _alloc: Global) -> Result<Shared<T>, AllocError> {
        Ok(Shared {
            value: Arc::try_clone(&self.value)?,
        })
    }
}
