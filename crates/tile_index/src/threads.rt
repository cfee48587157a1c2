//! What crosses threads.

use crate::change::TileChange;
use crate::index::{NotedPlan, TileIndex, TilePlan};

// Takes any type of which values may be sent to another thread and shared among threads.
fn crosses<T: Send + Sync>() {}

/// An index, a plan and a change may be sent to another thread and shared among threads.
pub fn indexes_cross_threads() {
    crosses::<TileIndex>();
    crosses::<TilePlan>();
    crosses::<NotedPlan>();
    crosses::<TileChange>()
}
