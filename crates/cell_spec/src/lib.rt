//! What a chart cell answers to a key and what edits make of it, with the data that rules and edits speak of.
#![tactic(auto)]

mod edit;
mod finding;
mod key;
mod law;
mod sorted;

pub use edit::Edit;
pub use finding::{Finding, Findings, Row, Rows};
pub use key::{Key, Keys, Names, Ref, Refs, Subject, Subjects};
pub use law::{orders_are_by_parts, orders_are_exact, writable_cells_are_readable};
pub use sorted::{ascending_keys, ascending_names, distinct, has_key, keys_ascend};
