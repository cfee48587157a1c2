//! How far apart keys are, as look-ups guess it.

use s57_types::RecName;

/// How far apart keys are, as a look-up guesses it: what a table answers doesn't rest on it, but its speed does.
pub trait Distance<K> {
    /// How many rows there are from one key to another, where each key between them has one. `None` where that isn't known.
    fn between(first: &K, key: &K) -> Option<u32>;
}

/// Distances that aren't known: a look-up guesses nothing.
pub(crate) struct Unknown;

impl<K> Distance<K> for Unknown {
    fn between(_first: &K, _key: &K) -> Option<u32> {
        None
    }
}

/// Names of a kind are as far apart as their numbers, which mostly rise by one.
pub struct ByNumber;

impl Distance<RecName> for ByNumber {
    fn between(first: &RecName, key: &RecName) -> Option<u32> {
        if first.kind != key.kind {
            return None;
        }
        key.id.checked_sub(first.id)
    }
}
