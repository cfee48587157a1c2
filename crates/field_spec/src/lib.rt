//! What the bytes of a field say, by the forms of its subfields (S-57 Part 3, 7.2.2).
#![tactic(auto)]

mod fault;
mod law;

pub use fault::FieldFault;
pub use law::{
    field_is_decided, lists_of_values_are_decided, repeating_fields, repeating_rows_read_back,
    rows_read_back, values_are_decided,
};
