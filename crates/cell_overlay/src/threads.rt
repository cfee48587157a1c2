//! What crosses threads.

use crate::overlay::Overlay;
use chain_topo::Look;

// Takes any type of which values may be sent to another thread and shared among threads.
fn crosses<T: Send + Sync>() {}

/// An overlay may be sent to another thread and shared among threads, where the look below it may be shared.
pub fn overlays_cross_threads<'a, B: Look + Sync + 'a>() {
    crosses::<Overlay<'a, B>>()
}
