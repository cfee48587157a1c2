//! Sorted tables in pieces that copies share, and values that copies share.
#![tactic(auto)]

mod distance;
mod entry;
mod filled;
mod layer;
mod levels;
mod piece;
mod rows;
mod run;
mod shared;
mod table;
mod threads;
mod top;

pub use distance::{ByNumber, Distance};
pub use rows::SharedRows;
pub use shared::Shared;
pub use table::SharedTable;
pub use threads::{tables_cross_threads, values_cross_threads};
