//! Older versions of a value, which live on while newer ones are made.

use s57_types::Duplicate;
use std::alloc::{AllocError, Global};

/// So many copies of a value.
pub fn copies_of<T: Duplicate + Drop>(
    alloc: Global,
    value: &T,
    count: usize,
) -> Result<Vec<T>, AllocError> {
    let mut copies = Vec::new(alloc);
    for _ in 0..count {
        copies.push(value.copy(alloc)?)?;
    }
    Ok(copies)
}

/// Puts a version in the place of the oldest that is held, or lets it go where none is.
pub fn hold<T: Drop>(held: &mut [T], round: usize, last: T) {
    if !held.is_empty() {
        let oldest = round % held.len();
        held[oldest] = last;
    }
}
