//! Which records and heads can be written (S-57 Part 3): their names, their texts and their written lengths.
#![tactic(auto)]

mod fit;
mod head;
mod head_record;
mod length;
mod name;
mod text;

pub use fit::fits;
pub use head::{has_plain_texts, head_fits, identification_record_length};
pub use head_record::{is_general_information_short, is_geographic_reference_short};
pub use length::is_short;
