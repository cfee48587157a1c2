//! The index: which contents and which files of cases there are.

use crate::case::{is_remark, read_cases};
use crate::content::{Bases, take_line};
use crate::report::Report;
use crate::stop::Stop;
use std::alloc::{AllocError, Global};
use std::rt::Files;
use std::str::Lines;
use std::sync::Wait;
use std::thread::Threads;
use std::{fs, io};

/// An index: its text, and the folder in which the files that it names lie, with a slash behind it, or nothing.
#[derive(Drop)]
pub struct Index {
    folder: String,
    text: String,
}

impl Index {
    /// The index in a file.
    pub fn read<R: Files + AllocGlobal>(rt: &R, name: &str) -> io::Result<Index> {
        let text = fs::read_to_string(rt, name)?;
        let folder = match name.rsplit_once('/') {
            Some((folder, _)) => format!(in rt.alloc(); "{folder}/")?,
            None => String::new(rt.alloc()),
        };
        Ok(Index { folder, text })
    }

    fn lines(&self) -> Lines<'_> {
        self.text.as_str().lines()
    }

    /// The text of a file that it names.
    fn text_of<R: Files + AllocGlobal>(&self, rt: &R, file: &str) -> io::Result<String> {
        let folder = self.folder.as_str();
        let path = format!(in rt.alloc(); "{folder}{file}")?;
        fs::read_to_string(rt, path.as_str())
    }
}

/// Reads the contents that the index names, by lines `base NAME FILE`.
pub fn read_bases<R: Files + AllocGlobal>(
    rt: &R,
    index: &Index,
    report: &mut Report,
) -> io::Result<Bases> {
    let mut bases = Bases::new(rt.alloc());
    for line in index.lines() {
        if let Some((name, file)) = line
            .strip_prefix("base ")
            .and_then(|rest| rest.split_once(' '))
        {
            let text = index.text_of(rt, file)?;
            let content = read_content(rt.alloc(), &bases, file, text.as_str(), report)?;
            bases.add(rt.alloc(), name, content)?;
        }
    }
    Ok(bases)
}

/// The content of a file of lines, as far as these have a meaning.
fn read_content(
    alloc: Global,
    bases: &Bases,
    file: &str,
    text: &str,
    report: &mut Report,
) -> Result<Vec<u8>, AllocError> {
    let mut content = Vec::new(alloc);
    for line in text.lines() {
        let line = line.trim_start();
        if is_remark(line) {
            continue;
        }
        match take_line(alloc, bases, &mut content, line) {
            Ok(()) => {}
            Err(Stop::NoMemory) => return Err(AllocError),
            Err(Stop::Differs(words)) => {
                report.push_line(format!(in alloc; "{file}: {words}")?.as_str())?;
            }
        }
    }
    Ok(content)
}

/// Runs the cases of the files that the index names by lines of this word: `cases FILE` or `wrong FILE`.
pub fn run_files<R: Files + AllocGlobal + Threads + Wait + Sync>(
    rt: &R,
    index: &Index,
    word: &str,
    bases: &Bases,
    report: &mut Report,
) -> io::Result<()> {
    for line in index.lines() {
        if let Some((first, file)) = line.split_once(' ')
            && first == word
        {
            let text = index.text_of(rt, file)?;
            run_cases(rt, bases, file, text.as_str(), report)?;
        }
    }
    Ok(())
}

/// Runs the cases of a file.
fn run_cases<R: AllocGlobal + Threads + Wait + Sync>(
    rt: &R,
    bases: &Bases,
    file: &str,
    text: &str,
    report: &mut Report,
) -> Result<(), AllocError> {
    let cases = read_cases(rt.alloc(), text)?;
    for case in &cases {
        report.run_case(rt, bases, file, case)?;
    }
    Ok(())
}
