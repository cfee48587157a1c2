//! Why a cell isn't loaded.

ghost use Rattle.std.specs.Prelude.{◌≡◌};

use std::alloc::AllocError;

/// Why a cell isn't loaded.
#[derive(Clone, Copy, Debug, PartialEq, Eq)]
pub enum LoadRefusal {
    /// It has more findings than the limit.
    FindingsFull,
    /// Out of memory.
    NoMemory,
}

impl From<AllocError> for LoadRefusal {
    ghost use Rattle.cell_findings.specs.declared.refusal.LoadRefusal.TheVariants.{NoMemory};

    ghost from_gives = { λ _ refusal. refusal ≡ NoMemory };

    fn from(_error: AllocError) -> LoadRefusal {
        LoadRefusal::NoMemory
    }
}
