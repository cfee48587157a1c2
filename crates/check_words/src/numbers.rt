//! What checks say in numbers of 32 bits.

ghost use Rattle.std.specs.Prelude.{◌≡◌, IfOk};

use std::alloc::AllocError;

/// A number of 32 bits. A cell with a greater one, which has billions of pointers, is answered with out of memory.
pub fn number(n: usize) -> Result<u32, AllocError>
    ensures { IfOk result (λ k. k ≡ n) }
{
    u32::try_from(n).map_err(|_| AllocError)
}
