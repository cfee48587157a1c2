//! The closed loops that an area's boundary is made of, and the way that a loop turns.
#![tactic(auto)]

mod law;
mod partition;
mod ring;
mod turn;

pub use law::computed_cut_is_only;
pub use partition::cut;
pub use ring::{Block, Blocks, RingCut, block_length, split_loop};
pub use turn::{area_step, turn_of};
