//! What crosses threads.

use crate::part::ChainPart;

// Takes any type of which values may be sent to another thread and shared among threads.
fn crosses<T: Send + Sync>() {}

/// A part may be sent to another thread and shared among threads.
pub fn parts_cross_threads<'a>() {
    crosses::<ChainPart<'a>>()
}
