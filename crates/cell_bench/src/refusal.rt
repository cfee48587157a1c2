//! The most findings of a cell, and why edits aren't planned.

ghost use Rattle.std.specs.Prelude.{◌≡◌};

use history_spec::StateRefusal;
use std::alloc::AllocError;

/// The most findings of a cell.
pub const FINDING_LIMIT: usize = 262_144;

/// Why edits aren't planned.
#[derive(Clone, Copy, Debug, PartialEq, Eq)]
pub enum PlanRefusal {
    /// The cell doesn't take them.
    State(StateRefusal),
    /// Out of memory.
    NoMemory,
}

impl From<AllocError> for PlanRefusal {
    ghost use Rattle.cell_bench.specs.declared.refusal.PlanRefusal.TheVariants.{NoMemory};

    ghost from_gives = { λ _ refusal. refusal ≡ NoMemory };

    fn from(_error: AllocError) -> PlanRefusal {
        PlanRefusal::NoMemory
    }
}
