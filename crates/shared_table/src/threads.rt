//! What crosses threads.

use crate::shared::Shared;
use crate::table::SharedTable;

// Takes any type of which values may be sent to another thread and shared among threads.
fn crosses<T: Send + Sync>() {}

/// A table may be sent to another thread and shared among threads, where its keys and values may.
pub fn tables_cross_threads<K: Ord + Drop + Send + Sync, V: Drop + Send + Sync>() {
    crosses::<SharedTable<K, V>>()
}

/// A shared value may be sent to another thread and shared among threads, where the value may.
pub fn values_cross_threads<T: Drop + Send + Sync>() {
    crosses::<Shared<T>>()
}
