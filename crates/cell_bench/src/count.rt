//! Counts of 32 bits.

ghost use Rattle.std.specs.Prelude.{◌≡◌, ◌<◌, ◌^◌, IfOk};

use std::alloc::AllocError;

/// A count as a number of 32 bits. No memory holds more of anything that is counted here.
pub fn narrow(count: usize) -> Result<u32, AllocError>
    ensures same { IfOk result (λ number. number ≡ count) }
    ensures fits { count < 2 ^ 32 → result ≡ Ok count }
{
    if count > u32::MAX as usize {
        return Err(AllocError);
    }
    Ok(count as u32)
}
