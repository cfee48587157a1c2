//! Marks in braces, in whose place a row's columns and the numbers of repeated lines come.

use std::alloc::{AllocError, Global};

/// The column that a mark names, from 1.
fn column_of<'a>(mark: &str, columns: &'a [String]) -> Option<&'a str> {
    let number = mark.parse::<usize>().ok()?;
    let column = columns.get(number.checked_sub(1)?)?;
    Some(column.as_str())
}

/// Appends a piece of a line that stands behind a brace.
fn push_piece(text: &mut String, piece: &str, columns: &[String]) -> Result<(), AllocError> {
    if let Some((mark, rest)) = piece.split_once('}')
        && let Some(column) = column_of(mark, columns)
    {
        text.push_str(column)?;
        return text.push_str(rest);
    }
    text.push_str("{")?;
    text.push_str(piece)
}

/// A line with the columns of a row in place of `{1}`, `{2}` and so on. Other braces stay.
pub fn with_columns(alloc: Global, line: &str, columns: &[String]) -> Result<String, AllocError> {
    let Some((first, marked)) = line.split_once('{') else {
        return String::from_str(alloc, line);
    };
    let mut text = String::from_str(alloc, first)?;
    for piece in marked.split('{') {
        push_piece(&mut text, piece, columns)?;
    }
    Ok(text)
}

/// What a number's mark stands for: `n` the number, `n*K` so many times it, `le` its four bytes, the least first.
pub fn push_number(
    alloc: Global,
    out: &mut Vec<u8>,
    mark: &str,
    number: u32,
) -> Result<(), AllocError> {
    if mark == "le" {
        return out.extend_from_slice(&number.to_le_bytes());
    }
    let factor = match mark.strip_prefix("n*") {
        Some(factor) => factor.parse::<u32>().unwrap_or(0),
        None => 1,
    };
    let product = number.saturating_mul(factor);
    let digits = format!(in alloc; "{product}")?;
    out.extend_from_slice(digits.as_bytes())
}
