//! A boundary cut into loops.

ghost use Rattle.std.specs.Prelude.{◌≡◌, drop, take};
ghost use Rattle.ring_build.specs.Partition.{length_of_block};

use s57_types::Items;

/// A loop of a boundary: the places of its first and its last piece, from 1.
#[derive(Clone, Copy, Debug, PartialEq, Eq)]
pub struct Block {
    pub from: u32,
    pub to: u32,
}

/// How many pieces a loop has.
pub fn block_length(block: Block) -> usize
    ensures { result ≡ length_of_block block }
{
    (block.to as usize + 1).saturating_sub(block.from as usize)
}

/// The first `n` pieces of a boundary, and the pieces after them.
pub fn split_loop<T>(pieces: &[T], n: usize) -> (&[T], &[T])
    ensures front { result.0.now ≡ take n pieces.now }
    ensures after { result.1.now ≡ drop n pieces.now }
{
    pieces.split_at(n.min(pieces.len()))
}

/// Loops one after the other.
pub type Blocks = Items<Block>;

/// How far a boundary is closed loops one after the other.
#[derive(Debug, Drop)]
pub enum RingCut {
    /// The whole boundary is these loops.
    Whole(Blocks),
    /// No loop begins at that place, from 1, and before it there are whole loops.
    OpenAt(u32),
}
