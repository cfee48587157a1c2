//! A tree of boxes around what has names, asked for the names whose boxes meet a box.
#![tactic(auto)]

mod leaf;
mod node;
mod order;
mod tree;

pub use leaf::Leaf;
pub use tree::BoxTree;
