//! The partition of a boundary into loops.

ghost use Rattle.std.specs.Prelude.{◌≡◌, ◌<◌, ◌≤◌, IfOk, IfSome, length};
ghost use Rattle.rule_spec.specs.Loops.{loop_length as loop_length_of};
ghost use Rattle.ring_build.specs.Partition.{IsOnlyCut, cut_of};

use crate::law::computed_cut_is_only;
use crate::ring::{Block, Blocks, RingCut};
use s57_types::RecName;
use std::alloc::{AllocError, Global};

/// How many pieces the loop at the front has, if one is there.
fn loop_length(ends: &[(RecName, RecName)]) -> Option<usize>
    ensures value { result ≡ loop_length_of ends.now }
    ensures some { IfSome result (λ n. 0 < n) }
    ensures within { IfSome result (λ n. n ≤ length ends.now) }
{
    let [first, ..] = ends else { return None };
    let mut node = first.0;
    for (k, piece) in ends.iter().enumerate() {
        if node != piece.0 {
            return None;
        }
        if piece.1 == first.0 {
            return Some(k + 1);
        }
        node = piece.1;
    }
    None
}

/// Cuts a boundary, given as the start node and the end node of each piece, into closed loops: each end is the next
/// start, the last end is the first start, and no earlier end is (S-57 Appendix B.1, 3.8).
///
/// An `Err` means out of memory.
pub fn cut(alloc: Global, ends: &[(RecName, RecName)]) -> Result<RingCut, AllocError>
    requires { length ends.now < 4294967296 }
    ensures exact { IfOk result (λ found. IsOnlyCut ends.now found) }
    ensures computed { IfOk result (λ found. found ≡ cut_of ends.now) }
{
    computed_cut_is_only();
    let mut loops = Blocks::make(alloc);
    let mut rest = ends;
    let mut done: u32 = 0;
    while !rest.is_empty() {
        let Some(n) = loop_length(rest) else {
            return Ok(RingCut::OpenAt(done + 1));
        };
        let from = done + 1;
        done += n as u32;
        loops.push(Block { from, to: done })?;
        let (_, after) = rest.split_at(n);
        rest = after;
    }
    Ok(RingCut::Whole(loops))
}
