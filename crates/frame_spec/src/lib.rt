//! What a record of an ISO/IEC 8211 file is, told by the places of its bytes.
#![tactic(auto)]

mod decision;
mod fault;
mod written;

pub use decision::{frame_is_decided, one_answer};
pub use fault::FrameFault;
pub use written::written_record_is_read;
