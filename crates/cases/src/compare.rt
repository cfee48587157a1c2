//! Whether texts and files are as expected, and where they aren't.

use crate::stop::Stop;
use std::alloc::Global;

/// Where two byte strings begin to differ.
fn first_difference(found: &[u8], expected: &[u8]) -> usize {
    let differing = found
        .iter()
        .zip(expected)
        .position(|(one, other)| *one != *other);
    differing.unwrap_or(found.len().min(expected.len()))
}

/// How many lines end before a place.
fn lines_before(text: &[u8], place: usize) -> usize {
    let front = text.get(..place).unwrap_or(text);
    front.iter().filter(|byte| **byte == b'\n').count()
}

/// The line behind so many lines.
fn line_behind(text: &[u8], lines: usize) -> &[u8] {
    text.split(|byte| *byte == b'\n').nth(lines).unwrap_or(b"")
}

/// A text is the expected one, or the answer tells the first line that differs.
pub fn expect_text(alloc: Global, found: &[u8], expected: &[u8]) -> Result<(), Stop> {
    if found == expected {
        return Ok(());
    }
    let lines = lines_before(expected, first_difference(found, expected));
    let number = lines.saturating_add(1);
    let found = String::from_utf8_lossy(alloc, line_behind(found, lines))?;
    let expected = String::from_utf8_lossy(alloc, line_behind(expected, lines))?;
    Err(Stop::Differs(format!(in alloc;
        "output line {number} is \"{found}\", expected \"{expected}\""
    )?))
}

/// A text begins as expected.
pub fn expect_beginning(alloc: Global, found: &[u8], expected: &[u8]) -> Result<(), Stop> {
    let beginning = found.get(..expected.len()).unwrap_or(found);
    expect_text(alloc, beginning, expected)
}

/// A text ends as expected. Lines are counted from where the expected ones are to begin.
pub fn expect_end(alloc: Global, found: &[u8], expected: &[u8]) -> Result<(), Stop> {
    let before = found.len().saturating_sub(expected.len());
    expect_text(alloc, found.get(before..).unwrap_or(found), expected)
}

/// A file holds the expected bytes, or the answer tells the first place at which it doesn't.
pub fn expect_file(
    alloc: Global,
    name: &str,
    found: Option<&[u8]>,
    expected: &[u8],
) -> Result<(), Stop> {
    let Some(found) = found else {
        return Err(Stop::at_line(alloc, "no file", name));
    };
    if found == expected {
        return Ok(());
    }
    let place = first_difference(found, expected);
    let (length, other) = (found.len(), expected.len());
    Err(Stop::Differs(format!(in alloc;
        "{name} differs at byte {place}; it has {length} bytes, expected {other}"
    )?))
}
