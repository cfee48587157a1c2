//! What two segments have in common, over a million pairs.

use geo_exact::{MeetCase, Point, meeting};
use std::alloc::{AllocError, Global};

/// How many pairs of segments there are.
const PAIRS: u32 = 1_000_000;

#[derive(Clone, Copy)]
struct Pair {
    p: Point,
    q: Point,
    r: Point,
    s: Point,
}

/// The number after this one in a pseudorandom sequence.
fn next_state(state: u64) -> u64 {
    let a = state ^ (state << 13);
    let b = a ^ (a >> 7);
    b ^ (b << 17)
}

/// A coordinate of the whole range, or one from 0 to 15.
fn coordinate(state: u64, is_small: bool) -> i32 {
    let bits = (state >> 32) as u32;
    if is_small {
        (bits % 16) as i32
    } else {
        (i64::from(bits) - 2_147_483_648) as i32
    }
}

fn point(state: u64, is_small: bool) -> (Point, u64) {
    let first = next_state(state);
    let second = next_state(first);
    (
        (coordinate(first, is_small), coordinate(second, is_small)),
        second,
    )
}

/// So many pairs: every other one over the whole range, the others in a small square, where all cases are frequent.
fn pairs(alloc: Global) -> Result<Vec<Pair>, AllocError> {
    let mut pairs = Vec::new(alloc);
    let mut state = 88_172_645_463_325_252;
    for place in 0..PAIRS {
        let is_small = place % 2 == 1;
        let (p, after_p) = point(state, is_small);
        let (q, after_q) = point(after_p, is_small);
        let (r, after_r) = point(after_q, is_small);
        let (s, after_s) = point(after_r, is_small);
        state = after_s;
        pairs.push(Pair { p, q, r, s })?;
    }
    Ok(pairs)
}

/// A number for each case.
fn weight(case: MeetCase) -> u64 {
    match case {
        MeetCase::Apart => 0,
        MeetCase::At => 1,
        MeetCase::Along => 1_000_003,
    }
}

/// The meetings of all pairs, so many times over, in one sum.
pub fn meetings(alloc: Global, rounds: u32) -> Result<u64, AllocError> {
    let pairs = pairs(alloc)?;
    let mut sum = 0u64;
    for _ in 0..rounds {
        for pair in &pairs {
            sum = sum.wrapping_add(weight(meeting(pair.p, pair.q, pair.r, pair.s)));
        }
    }
    Ok(sum)
}
