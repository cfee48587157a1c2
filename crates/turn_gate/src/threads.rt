//! What crosses threads.
use crate::chronicle::Chronicle;
use crate::handle::GateSeat;
use crate::lock::Gate;

fn is_send<T: Send>() {}

fn is_sync<T: Sync>() {}

/// A lock is sent to other threads and shared among them, as soon as its value may be sent; and its handles are sent.
pub fn locks_cross_threads<V: Chronicle + Send + Drop>() {
    is_send::<Gate<V>>();
    is_sync::<Gate<V>>();
    is_send::<GateSeat<V>>();
}

/// Handles are shared among threads: what a thread sees of one that it was lent is its place, which has no bytes, and two numbers.
pub fn handles_are_shared<V: Chronicle + Send + Sync + Drop>()
where
    V::Entry: Sync,
    V::Origin: Sync,
{
    is_sync::<GateSeat<V>>();
}
