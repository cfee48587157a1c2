//! What is printed: a line for each case that differs, and how many were run.

use crate::case::Case;
use crate::content::Bases;
use crate::marks::with_columns;
use crate::stage::Stage;
use crate::stop::Stop;
use std::alloc::{AllocError, Global};
use std::sync::Wait;
use std::thread::Threads;

/// The lines and the counts.
#[derive(Drop)]
pub struct Report {
    text: String,
    cases: u32,
    runs: u32,
    differing: u32,
}

impl Report {
    /// No case was run.
    pub fn new(alloc: Global) -> Report {
        Report {
            text: String::new(alloc),
            cases: 0,
            runs: 0,
            differing: 0,
        }
    }

    /// The text of the report.
    pub fn text(&self) -> &str {
        self.text.as_str()
    }

    /// Whether no case differed.
    pub fn is_clean(&self) -> bool {
        self.differing == 0
    }

    /// Appends the counts.
    pub fn push_counts(&mut self, alloc: Global) -> Result<(), AllocError> {
        let (cases, runs, differing) = (self.cases, self.runs, self.differing);
        let line = format!(in alloc; "cases {cases} runs {runs} differ {differing}\n")?;
        self.text.push_str(line.as_str())
    }

    /// Counts something that differs, and appends its line.
    pub fn push_line(&mut self, line: &str) -> Result<(), AllocError> {
        self.differing = self.differing.saturating_add(1);
        self.text.push_str(line)?;
        self.text.push_str("\n")
    }

    /// Runs a case of a file for each of its rows, up to the first at which it differs.
    pub fn run_case<R: AllocGlobal + Threads + Wait + Sync>(
        &mut self,
        rt: &R,
        bases: &Bases,
        file: &str,
        case: &Case,
    ) -> Result<(), AllocError> {
        self.cases = self.cases.saturating_add(1);
        if case.rows.is_empty() {
            self.run_row(rt, bases, file, case, &[])?;
            return Ok(());
        }
        for row in &case.rows {
            if !self.run_row(rt, bases, file, case, row)? {
                break;
            }
        }
        Ok(())
    }

    /// Runs a case for one row, and appends what differs. The answer says whether nothing did.
    fn run_row<R: AllocGlobal + Threads + Wait + Sync>(
        &mut self,
        rt: &R,
        bases: &Bases,
        file: &str,
        case: &Case,
        row: &[String],
    ) -> Result<bool, AllocError> {
        self.runs = self.runs.saturating_add(1);
        let alloc = rt.alloc();
        let mut stage = Stage::new(alloc, bases);
        let words = match run_lines(rt, &mut stage, case, row) {
            Ok(()) => return Ok(true),
            Err(Stop::NoMemory) => return Err(AllocError),
            Err(Stop::Differs(words)) => words,
        };
        let (number, name) = (stage.number(), case.name);
        let line = match row {
            [] => format!(in alloc; "{file} line {number}, {name}: {words}")?,
            [first, ..] => format!(in alloc; "{file} line {number}, {name} ({first}): {words}")?,
        };
        self.push_line(line.as_str())?;
        Ok(false)
    }
}

/// Takes the lines of a case, with the columns of a row in their place.
fn run_lines<R: AllocGlobal + Threads + Wait + Sync>(
    rt: &R,
    stage: &mut Stage,
    case: &Case,
    row: &[String],
) -> Result<(), Stop> {
    for line in &case.lines {
        let text = with_columns(rt.alloc(), line.text, row)?;
        stage.take(rt, line.number, text.as_str())?;
    }
    stage.settle()
}
