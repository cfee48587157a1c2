//! The fields of a cell's records as values (S-57 Part 3, 7.3, 7.6 and 7.7).
#![tactic(auto)]

mod cut;
mod feature;
mod head;
mod record_number;
mod refusal;
mod rows;
mod spell;
mod text;
mod units;
mod vector;
mod write;

pub use cut::{field_body, take_u8, take_u16};
pub use feature::{
    read_attf, read_ffpt, read_foid, read_frid, read_fspt, read_natf, write_attf, write_ffpt,
    write_foid, write_frid, write_fspt, write_natf,
};
pub use head::{read_dsid, read_dspm, read_dssi, write_dsid, write_dspm, write_dssi};
pub use record_number::{read_0001, write_0001};
pub use refusal::FieldRefusal;
pub use s57_types::{Dsid, Dspm, Dssi, Frid, Vrid};
pub use vector::{
    read_attv, read_sg2d, read_sg3d, read_vrid, read_vrpt, write_attv, write_sg2d, write_sg3d,
    write_vrid, write_vrpt,
};
