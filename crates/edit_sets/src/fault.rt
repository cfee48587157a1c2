//! Why edits and guards are no edit set.

ghost use Rattle.std.specs.Prelude.{◌≡◌};

use s57_types::Unfit;
use std::alloc::AllocError;

/// What is wrong with the form of edits and guards. Places count from 1.
#[derive(Clone, Copy, Debug, PartialEq, Eq)]
pub enum FormFault {
    /// There is no edit.
    Empty,
    /// There are so many edits, over 4,096.
    TooMany(u32),
    /// The edit at this place has the name of an earlier one.
    Twice(u32),
    /// What the edit at this place leaves can't be written.
    Unfit(u32, Unfit),
    /// There are so many guards, over 4,096.
    TooManyGuards(u32),
}

/// Why no edit set was made.
#[derive(Clone, Copy, Debug, PartialEq, Eq)]
pub enum FormRefusal {
    Fault(FormFault),
    NoMemory,
}

impl From<AllocError> for FormRefusal {
    ghost use Rattle.edit_sets.specs.declared.fault.FormRefusal.TheVariants.{NoMemory};

    ghost from_gives = { λ _ refusal. refusal ≡ NoMemory };

    fn from(_error: AllocError) -> FormRefusal {
        FormRefusal::NoMemory
    }
}
