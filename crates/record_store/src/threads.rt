//! What crosses threads.

use crate::store::{RecordStore, StorePlan};

// Takes any type of which values may be sent to another thread and shared among threads.
fn crosses<T: Send + Sync>() {}

/// A store and a plan may be sent to another thread and shared among threads.
pub fn stores_cross_threads() {
    crosses::<RecordStore>();
    crosses::<StorePlan>()
}
