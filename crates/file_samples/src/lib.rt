//! The definitions of a cell file, evaluated on small files whose bytes are typed out.
#![tactic(auto)]

mod law;

pub use law::{
    cells_are_writable, faults_are_found, fields_are_read, files_are_written, frames_are_decided,
    limits_are_exact, square_is_read, square_is_written, unusual_files_are_read,
};
