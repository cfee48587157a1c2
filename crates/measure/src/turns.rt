//! Turns under the ticket lock, by so many threads.
ghost use Rattle.std.specs.Prelude.{◌<◌};

use gate_turns::signatures_of;
use std::alloc::{AllocError, Global};
use std::sync::Wait;
use std::thread::Threads;

/// The turns that the threads take between them.
const TURNS: u32 = 320_000;

/// The sum of the handle numbers of all entries, of `threads` threads with as many turns each.
pub fn sum_of_numbers<R: Threads + Wait + Sync>(
    rt: &R,
    alloc: Global,
    threads: u32,
) -> Result<u64, AllocError> {
    let threads = threads.clamp(1, 64);
    let signed = signatures_of(rt, alloc, threads, TURNS / threads)?;
    if !signed.in_order {
        return Err(AllocError);
    }
    let mut sum = 0u64;
    for number in &signed.numbers {
        sum = sum.wrapping_add(u64::from(*number));
    }
    Ok(sum)
}
