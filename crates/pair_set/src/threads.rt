//! What crosses threads.

use crate::set::PairSet;

// Takes any type of which values may be sent to another thread and shared among threads.
fn crosses<T: Send + Sync>() {}

/// A set may be sent to another thread and shared among threads, where its parts may.
pub fn sets_cross_threads<A: Ord + Drop + Send + Sync, B: Ord + Drop + Send + Sync>() {
    crosses::<PairSet<A, B>>()
}
