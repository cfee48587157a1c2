//! `enc_draw`: a picture of an electronic navigational chart cell and its findings.
#![tactic(auto)]

use draw_top::{Ending, draw, push_ending};
use std::alloc::Global;
use std::env;
use std::fs::File;
use std::io::{ErrorKind, Write};
use std::process::ExitCode;
use std::rt::{Env, Files};
use whole_files::{DiskShelf, StdSink};

/// The words after the program's name. A word that isn't UTF-8 names no file.
fn read_words(rt: &(impl Env + AllocGlobal)) -> Result<Vec<String>, Ending> {
    let mut words = Vec::new(rt.alloc());
    let args = match env::args(rt) {
        Ok(args) => args,
        Err(error) if error.kind() == ErrorKind::OutOfMemory => return Err(Ending::NoMemory),
        Err(_) => return Err(Ending::Usage),
    };
    for word in args.skip(1) {
        if words.push(word).is_err() {
            return Err(Ending::NoMemory);
        }
    }
    Ok(words)
}

/// Draws on the real file store and standard output.
fn draw_words<R: Files<File = File> + Print + AllocGlobal>(rt: &R, words: &[String]) -> Ending {
    let mut shelf = DiskShelf::new(rt);
    let mut out = StdSink::new(rt);
    draw(rt.alloc(), words, &mut shelf, &mut out)
}

/// The line of an ending, or nothing where memory ran out.
fn ending_line(alloc: Global, ending: Ending, words: &[String]) -> Vec<u8> {
    let mut line = Vec::new(alloc);
    if let [name] = words {
        let _ = push_ending(&mut line, ending, name.as_str());
    } else {
        let _ = push_ending(&mut line, ending, "");
    }
    line
}

fn main(rt: HostRuntime) -> ExitCode {
    let (words, ending) = match read_words(&rt) {
        Ok(words) => {
            let ending = draw_words(&rt, &words);
            (words, ending)
        }
        Err(ending) => (Vec::new(rt.alloc()), ending),
    };
    let line = ending_line(rt.alloc(), ending, &words);
    let _ = rt.stderr().write_all(&line);
    ExitCode::from(ending.number())
}

#[cfg(test)]
mod tests;
