//! What read sets are made of: the keys that the findings about a record depend on.
#![tactic(auto)]

mod keys;

pub use keys::{push_end_keys, push_rising, push_vector_keys};
