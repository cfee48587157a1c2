//! Sums of areas.

ghost use Rattle.std.specs.Prelude.{◌≡◌, ◌+ℤ◌, IfOk};

use std::alloc::AllocError;

/// A sum of areas. A step between two points is at most 2^63, so 128 bits hold the sum of 2^64 steps. A boundary has
/// fewer than 2^32 pointers, so a greater sum would need a line of 2^32 points, over 32 gigabytes in one record, and is
/// answered with out of memory.
pub(crate) fn plus(a: i128, b: i128) -> Result<i128, AllocError>
    ensures { IfOk result (λ sum. sum ≡ a +ℤ b) }
{
    a.checked_add(b).ok_or(AllocError)
}
