//! What the bytes of a cell file stand for, and the bytes that a cell is written with.
#![tactic(auto)]

mod fault;
mod law;
mod tag;
mod types;

pub use fault::RecordFault;
pub use law::{
    round_trip, writable_cell_is_read_back, written_cell_is_read, written_records_are_found,
};
pub use tag::{FieldTag, RecordType};
pub use types::cell_has_its_types;
