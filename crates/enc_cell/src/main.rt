//! `enc_cell`: a workroom for one electronic navigational chart base cell.
#![tactic(auto)]

use enc_outside::NoMeet;
use enc_top::{Status, print_status, run};
use keep_run::run_keep;
use std::alloc::Global;
use std::env;
use std::fs::File;
use std::io::{ErrorKind, Write};
use std::process::ExitCode;
use std::rt::{Env, Files};
use std::sync::Wait;
use std::thread::Threads;
use whole_files::{DiskShelf, FileDisk, StdSink};

/// The words after the program's name. A word that isn't UTF-8 is in no form.
fn read_words(rt: &(impl Env + AllocGlobal)) -> Result<Vec<String>, Status> {
    let mut words = Vec::new(rt.alloc());
    let args = match env::args(rt) {
        Ok(args) => args,
        Err(error) if error.kind() == ErrorKind::OutOfMemory => return Err(Status::NoMemory),
        Err(_) => return Err(Status::Usage),
    };
    for word in args.skip(1) {
        if words.push(word).is_err() {
            return Err(Status::NoMemory);
        }
    }
    Ok(words)
}

/// Runs the command line on the real file store and standard output. The journal that `keep` names is a file of its own, which is none of the
/// others.
fn run_words<R: Threads + Wait + Sync + Files<File = File> + Print + AllocGlobal>(
    rt: &R,
    words: &[String],
) -> Status {
    let mut shelf = DiskShelf::new(rt);
    let mut out = StdSink::new(rt);
    match words {
        [first, _, _, name, ..] if first.as_str() == "keep" => {
            let mut disk = FileDisk::new(rt, name.as_str());
            run_keep(rt, rt.alloc(), words, &mut shelf, &mut out, &mut disk)
        }
        _ => run(rt, rt.alloc(), words, &mut shelf, &mut out, &NoMeet),
    }
}

/// The line of a status, or nothing where memory ran out.
fn status_line(alloc: Global, status: &Status) -> Vec<u8> {
    let mut line = Vec::new(alloc);
    let _ = print_status(alloc, status, &mut line);
    line
}

fn main(rt: HostRuntime) -> ExitCode {
    let status = match read_words(&rt) {
        Ok(words) => run_words(&rt, &words),
        Err(status) => status,
    };
    let line = status_line(rt.alloc(), &status);
    let _ = rt.stderr().write_all(&line);
    ExitCode::from(status.number())
}

#[cfg(test)]
mod tests;
