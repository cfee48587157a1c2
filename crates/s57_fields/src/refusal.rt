//! Why a field was not read.

ghost use Rattle.std.specs.Prelude.{◌≡◌};
ghost use Rattle.s57_fields.specs.declared.refusal.FieldRefusal.TheVariants.{NoMemory};

use std::alloc::{AllocError, AllocFailed};

/// Why a field was not read.
#[derive(Debug, Drop)]
pub enum FieldRefusal {
    /// The bytes aren't the field's subfields or whole rows and its terminator, or a number is none that the field
    /// may have.
    BadField,
    /// A control byte of the format stands in a text.
    BadText,
    /// Out of memory.
    NoMemory,
}

impl From<AllocError> for FieldRefusal {
    ghost from_gives = { λ _ e. e ≡ NoMemory };

    fn from(_error: AllocError) -> FieldRefusal {
        FieldRefusal::NoMemory
    }
}

impl<T: Drop> From<AllocFailed<T>> for FieldRefusal {
    ghost from_gives = { λ _ e. e ≡ NoMemory };

    fn from(_error: AllocFailed<T>) -> FieldRefusal {
        FieldRefusal::NoMemory
    }
}
