//! The tiles under connected nodes and edges, and which of them may touch.
//!
//! A tile is a square of 65,536 coordinate units. Two nodes or edges may touch where they share a tile, or where one is oversized: the box of
//! one of its segments covers over 64 tiles.
#![tactic(auto)]

mod change;
mod cover;
mod index;
mod law;
mod mates;
mod range;
mod threads;
mod whole;

pub use change::TileChange;
pub use index::{NotedPlan, TileIndex, TilePlan};
pub use law::changes_set_their_names;
pub use threads::indexes_cross_threads;
