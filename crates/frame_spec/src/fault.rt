//! Why there is no record at a place.

/// The first fault of a record frame.
#[derive(Clone, Copy, Debug, PartialEq, Eq)]
pub enum FrameFault {
    /// Fewer bytes are left than the leader takes, or than a good leader says.
    Short,
    /// The leader isn't one.
    BadLeader,
    /// The directory isn't one.
    BadDirectory,
}
