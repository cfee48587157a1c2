//! Runs the program on cases, and prints which of them don't give what is expected: `cases INDEX`.
#![tactic(auto)]

mod case;
mod compare;
mod content;
mod devices;
mod index;
mod marks;
mod report;
mod stage;
mod stop;

use index::{Index, read_bases, run_files};
use report::Report;
use std::io::Write;
use std::process::ExitCode;
use std::rt::{Env, Files};
use std::sync::Wait;
use std::thread::Threads;
use std::{env, io};

/// The only word of the command line, if it has one.
fn read_word(rt: &(impl Env + AllocGlobal)) -> io::Result<Option<String>> {
    let mut words = env::args(rt)?;
    let _program = words.next();
    let (Some(word), None) = (words.next(), words.next()) else {
        return Ok(None);
    };
    Ok(Some(word))
}

/// Runs the cases of an index. Those that are known to differ come last, behind the counts, and don't count.
fn run_index<R: Files + AllocGlobal + Threads + Wait + Sync>(
    rt: &R,
    index: &Index,
    report: &mut Report,
) -> io::Result<bool> {
    let bases = read_bases(rt, index, report)?;
    run_files(rt, index, "cases", &bases, report)?;
    let is_clean = report.is_clean();
    report.push_counts(rt.alloc())?;
    run_files(rt, index, "wrong", &bases, report)?;
    Ok(is_clean)
}

fn main(rt: HostRuntime) -> io::Result<ExitCode> {
    let Some(name) = read_word(&rt)? else {
        eprintln!(rt; "usage: cases INDEX")?;
        return Ok(ExitCode::from(2));
    };
    let index = Index::read(&rt, name.as_str())?;
    let mut report = Report::new(rt.alloc());
    let is_clean = run_index(&rt, &index, &mut report)?;
    rt.stdout().write_all(report.text().as_bytes())?;
    Ok(ExitCode::from(if is_clean { 0 } else { 1 }))
}
