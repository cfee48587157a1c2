//! Texts of records and heads.

use s57_types::Text;
use std::alloc::{AllocError, Global};

pub fn text(alloc: Global, bytes: &[u8]) -> Result<Text, AllocError> {
    Ok(Text::of_vec(bytes.to_vec(alloc)?))
}

/// A text of so many letters.
pub fn long_text(alloc: Global, length: usize) -> Result<Text, AllocError> {
    Ok(Text::of_vec(vec![in alloc; b'a'; length]?))
}
