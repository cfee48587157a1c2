//! Times one case of the workroom's work: `measure CASE SIZE`.
//!
//! What the case computed goes to standard output, the same on every machine; the time that it took goes to
//! standard error. The scripts in `benches/` compare the times with plain Rust.
#![tactic(auto)]

mod baseline;
mod case;
mod cells;
mod fields;
mod held;
mod indexes;
mod lookups;
mod segments;
mod squares;
mod store;
mod table;
mod turns;
mod versions;

use case::Case;
use std::alloc::{AllocError, Global};
use std::process::ExitCode;
use std::rt::{Clock, Env};
use std::sync::Wait;
use std::thread::Threads;
use std::time::Instant;
use std::{env, io};

/// The number that the case computed from `size` items.
fn outcome<R: Threads + Wait + Sync>(
    rt: &R,
    alloc: Global,
    case: Case,
    size: u32,
) -> Result<u64, AllocError> {
    match case {
        Case::Baseline => baseline::byte_sum(alloc, size),
        Case::Segments => segments::meetings(alloc, size),
        Case::Turns => turns::sum_of_numbers(rt, alloc, size),
        Case::Table(work) => table::outcome(alloc, work, size),
        Case::Versions(work) => versions::outcome(alloc, work, size),
        Case::Lookups(work) => lookups::outcome(alloc, work, size),
        Case::Store(work) => store::outcome(alloc, work, size),
        Case::Indexes(work) => indexes::outcome(alloc, work, size),
        Case::Fields(work) => fields::outcome(alloc, work, size),
        Case::Cells(work) => cells::outcome(alloc, work, size),
    }
}

/// Times one case and prints what it computed.
fn measure<R: Print + Eprint + Clock + Threads + Wait + Sync>(
    rt: &R,
    alloc: Global,
    name: &str,
    case: Case,
    size: u32,
) -> io::Result<()> {
    let start = Instant::now(rt)?;
    let outcome = outcome(rt, alloc, case, size)?;
    let nanoseconds = start.elapsed(rt)?.as_nanos();
    println!(rt; "{name} {size} {outcome}")?;
    eprintln!(rt; "{nanoseconds} ns")
}

/// The name of a case, the case and the size of the command line, if it has that form.
fn read_words(rt: &(impl Env + AllocGlobal)) -> io::Result<Option<(String, Case, u32)>> {
    let mut words = env::args(rt)?;
    let _program = words.next();
    let (Some(name), Some(size), None) = (words.next(), words.next(), words.next()) else {
        return Ok(None);
    };
    let (Some(case), Ok(size)) = (Case::of(name.as_str()), size.as_str().parse::<u32>()) else {
        return Ok(None);
    };
    Ok(Some((name, case, size)))
}

fn main(rt: HostRuntime) -> io::Result<ExitCode> {
    let Some((name, case, size)) = read_words(&rt)? else {
        eprintln!(rt; "usage: measure CASE SIZE")?;
        return Ok(ExitCode::from(2));
    };
    measure(&rt, rt.alloc(), name.as_str(), case, size)?;
    Ok(ExitCode::SUCCESS)
}
