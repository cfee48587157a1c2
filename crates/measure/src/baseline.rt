//! The speed of the machine.

use std::alloc::{AllocError, Global};

/// The sum of so many bytes, each of them its place modulo 251.
pub fn byte_sum(alloc: Global, size: u32) -> Result<u64, AllocError> {
    let mut bytes = Vec::new(alloc);
    for place in 0..size {
        bytes.push((place % 251) as u8)?;
    }
    let mut sum = 0u64;
    for byte in &bytes {
        sum = sum.wrapping_add(u64::from(*byte));
    }
    Ok(sum)
}
