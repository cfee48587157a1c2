//! The records of an ISO/IEC 8211 file as bytes.
#![tactic(auto)]

mod field;
mod layout;
mod write;

pub use field::{LeaderKind, OutField, WriteRefusal};
pub use write::write_record;
