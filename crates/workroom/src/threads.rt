//! What crosses threads.

use crate::desk::Desk;
use crate::room::Workroom;

fn is_send<T: Send>() {}

fn is_sync<T: Sync>() {}

/// A workroom is sent to other threads and shared among them, and its desks are sent.
pub fn desks_cross_threads() {
    is_send::<Workroom>();
    is_sync::<Workroom>();
    is_send::<Desk>();
}
