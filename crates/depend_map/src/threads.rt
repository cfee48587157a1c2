//! What crosses threads.

use crate::change::ReadChange;
use crate::map::{DependMap, ReadPlan};

// Takes any type of which values may be sent to another thread and shared among threads.
fn crosses<T: Send + Sync>() {}

/// A map, a plan and a change may be sent to another thread and shared among threads.
pub fn maps_cross_threads() {
    crosses::<DependMap>();
    crosses::<ReadPlan>();
    crosses::<ReadChange>()
}
