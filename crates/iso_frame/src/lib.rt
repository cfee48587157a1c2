//! The records of an ISO/IEC 8211 file: where a record frame stands at a place, its length and its fields.
#![tactic(auto)]

mod frame;
mod leader;

pub use frame::{Frame, next_record};
pub use frame_spec::FrameFault;
pub use leader::told_length;
