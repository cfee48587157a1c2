//! Cases, as a file has them.

use std::alloc::{AllocError, Global};

/// A line of a file, with its number from 1.
#[derive(Clone, Copy, Debug)]
pub struct Line<'a> {
    pub number: usize,
    pub text: &'a str,
}

/// A case: its name, the rows for each of which it is run, by their columns, and its lines.
#[derive(Drop)]
pub struct Case<'a> {
    pub name: &'a str,
    pub rows: Vec<Vec<String>>,
    pub lines: Vec<Line<'a>>,
}

impl<'a> Case<'a> {
    fn named(alloc: Global, name: &'a str) -> Case<'a> {
        Case {
            name,
            rows: Vec::new(alloc),
            lines: Vec::new(alloc),
        }
    }

    /// Takes in a line: `row COLUMN => COLUMN ..`, `each A to B => COLUMN ..` or one of those that are run.
    fn add(&mut self, alloc: Global, line: Line<'a>) -> Result<(), AllocError> {
        if let Some(columns) = line.text.strip_prefix("row ") {
            return self.add_row(alloc, columns);
        }
        if let Some(rest) = line.text.strip_prefix("each ") {
            return self.add_numbers(alloc, rest);
        }
        self.lines.push(line)?;
        Ok(())
    }

    fn add_row(&mut self, alloc: Global, columns: &str) -> Result<(), AllocError> {
        let mut row = Vec::new(alloc);
        for column in columns.split(" => ") {
            row.push(String::from_str(alloc, column)?)?;
        }
        self.rows.push(row)?;
        Ok(())
    }

    /// A row for each number of `A to B => COLUMN ..`, which is its first column.
    fn add_numbers(&mut self, alloc: Global, text: &str) -> Result<(), AllocError> {
        let (range, others) = text.split_once(" => ").unwrap_or((text, ""));
        let (from, to) = numbers_of(range).unwrap_or((1, 0));
        for number in from..to.saturating_add(1) {
            let columns = format!(in alloc; "{number} => {others}")?;
            self.add_row(alloc, columns.as_str())?;
        }
        Ok(())
    }
}

/// The two numbers of `A to B`.
fn numbers_of(text: &str) -> Option<(u32, u32)> {
    let (from, to) = text.split_once(" to ")?;
    Some((from.parse::<u32>().ok()?, to.parse::<u32>().ok()?))
}

/// Whether a line says nothing: an empty one, and one that begins with `#`.
pub fn is_remark(line: &str) -> bool {
    line.is_empty() || line.starts_with('#')
}

/// The cases of a file. What stands before the first one is a case of no name.
pub fn read_cases<'a>(alloc: Global, text: &'a str) -> Result<Vec<Case<'a>>, AllocError> {
    let mut cases = Vec::new(alloc);
    for (before, text) in text.lines().enumerate() {
        let line = Line {
            number: before.saturating_add(1),
            text: text.trim_start(),
        };
        if !is_remark(line.text) {
            add_line(alloc, &mut cases, line)?;
        }
    }
    Ok(cases)
}

/// Begins a case, or takes a line into the last one.
fn add_line<'a>(
    alloc: Global,
    cases: &mut Vec<Case<'a>>,
    line: Line<'a>,
) -> Result<(), AllocError> {
    if let Some(name) = line.text.strip_prefix("case ") {
        cases.push(Case::named(alloc, name))?;
        return Ok(());
    }
    if cases.is_empty() {
        cases.push(Case::named(alloc, ""))?;
    }
    match cases.last_mut() {
        Some(case) => case.add(alloc, line),
        None => Ok(()),
    }
}
