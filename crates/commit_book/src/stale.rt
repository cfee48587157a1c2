//! The keys that newer commits made stale.

ghost use Rattle.std.specs.Prelude.{◌≡◌, IfOk, flat_map};
ghost use Rattle.commit_book.specs.Books.{touched_in};

use crate::accepted::Accepted;
use cell_spec::Key;
use std::alloc::{AllocError, Global};

/// The keys that newer commits touched.
///
/// An `Err` means out of memory.
pub(crate) fn stale_keys(alloc: Global, newer: &[Accepted]) -> Result<Vec<Key>, AllocError>
    ensures { IfOk result (λ keys. keys.items ≡ flat_map touched_in newer.now) }
{
    let mut keys = Vec::new(alloc);
    for commit in newer {
        keys.extend_from_slice(commit.touched.as_slice())?;
    }
    Ok(keys)
}
