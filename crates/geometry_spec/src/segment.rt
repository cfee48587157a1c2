//! Points in the plane, and what two closed segments have in common.

/// A point in integer coordinate units, latitude first: `(y, x)`. East is growing `x`, north is growing `y`.
pub type Point = (i32, i32);

/// How many points two closed segments have in common.
#[derive(Clone, Copy, Debug, PartialEq, Eq)]
pub enum MeetCase {
    /// No common point.
    Apart,
    /// Exactly one common point.
    At,
    /// At least two different common points.
    Along,
}
