//! The rules on a feature: its spatial pointers, their codes, its boundary, its partners, its group and the level of its texts. With these the
//! pointers of any record that name nothing.
#![tactic(auto)]

mod boundary;
mod codes;
mod ends;
mod feature;
mod found;
mod group;
mod naming;
mod partners;
mod places;

pub use feature::feature_findings;
pub use naming::{Naming, push_dangling};
