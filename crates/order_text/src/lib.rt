//! Reading the order of sessions in which scripts are replayed.
#![tactic(auto)]

mod items;
mod law;
mod order;
mod sessions;

pub use law::order_lines_are_read;
pub use order::{Order, OrderRefusal, read_order};
