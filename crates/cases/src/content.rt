//! What a file holds, made line by line.

use crate::marks::push_number;
use crate::stop::Stop;
use std::alloc::{AllocError, Global};
use std::collections::BTreeMap;

/// Contents that lines cite, by their names.
#[derive(Drop)]
pub struct Bases {
    contents: BTreeMap<String, Vec<u8>>,
}

impl Bases {
    /// No contents.
    pub fn new(alloc: Global) -> Bases {
        Bases {
            contents: BTreeMap::new(alloc),
        }
    }

    /// Takes in a content under a name.
    pub fn add(&mut self, alloc: Global, name: &str, content: Vec<u8>) -> Result<(), AllocError> {
        let name = String::from_str(alloc, name)?;
        self.contents.insert(name, content)?;
        Ok(())
    }

    /// The content of a name, or its bytes from a place up to another where the line says them.
    fn part(&self, name: &str, range: &str) -> Option<&[u8]> {
        let content = self.contents.get(name)?;
        if range.is_empty() {
            return Some(content.as_slice());
        }
        let (from, to) = range.split_once(' ')?;
        let content = content.get(..to.parse::<usize>().ok()?)?;
        content.get(from.parse::<usize>().ok()?..)
    }
}

/// How a text stands for bytes.
#[derive(Clone, Copy, Debug, PartialEq, Eq)]
enum Spelling {
    /// As it is, with a line feed behind it.
    Line,
    /// As it is, but for `\xHH`, which is one byte.
    Bytes,
}

impl Spelling {
    /// The spelling that a word says.
    fn of(word: &str) -> Option<Spelling> {
        match word {
            "|" => Some(Spelling::Line),
            "bytes" => Some(Spelling::Bytes),
            _ => None,
        }
    }
}

/// Appends what a line of a content says, or changes what stands there by it.
pub fn take_line(
    alloc: Global,
    bases: &Bases,
    content: &mut Vec<u8>,
    line: &str,
) -> Result<(), Stop> {
    let (word, rest) = line.split_once(' ').unwrap_or((line, ""));
    if let Some(spelling) = Spelling::of(word) {
        return push_text(alloc, content, spelling, rest);
    }
    let taken = match word {
        "from" => return push_repeated(alloc, content, rest),
        "fill" => fill(content, rest)?,
        "byte" => change_byte(content, rest),
        "cut" => cut(content, rest),
        _ => push_base(bases, content, word, rest)?,
    };
    match taken {
        Some(()) => Ok(()),
        None => Err(Stop::at_line(alloc, "no such line of a content", line)),
    }
}

/// Appends a text without marks, and the end of its line.
fn push_text(
    alloc: Global,
    content: &mut Vec<u8>,
    spelling: Spelling,
    text: &str,
) -> Result<(), Stop> {
    push_spelled(alloc, content, spelling, text)?;
    end_line(content, spelling)?;
    Ok(())
}

fn end_line(content: &mut Vec<u8>, spelling: Spelling) -> Result<(), AllocError> {
    match spelling {
        Spelling::Line => content.extend_from_slice(b"\n"),
        Spelling::Bytes => Ok(()),
    }
}

/// Appends a part of a text.
fn push_spelled(
    alloc: Global,
    content: &mut Vec<u8>,
    spelling: Spelling,
    text: &str,
) -> Result<(), Stop> {
    match spelling {
        Spelling::Line => content.extend_from_slice(text.as_bytes())?,
        Spelling::Bytes => push_bytes(alloc, content, text)?,
    }
    Ok(())
}

/// Appends a text in which `\xHH` is one byte.
fn push_bytes(alloc: Global, content: &mut Vec<u8>, text: &str) -> Result<(), Stop> {
    let Some((first, escaped)) = text.split_once("\\x") else {
        content.extend_from_slice(text.as_bytes())?;
        return Ok(());
    };
    content.extend_from_slice(first.as_bytes())?;
    for piece in escaped.split("\\x") {
        push_escaped(alloc, content, piece)?;
    }
    Ok(())
}

/// Appends a byte by its two digits, and the text behind them.
fn push_escaped(alloc: Global, content: &mut Vec<u8>, piece: &str) -> Result<(), Stop> {
    if let [high, low, rest @ ..] = piece.as_bytes()
        && let Some(high) = digit(*high)
        && let Some(low) = digit(*low)
    {
        content.extend_from_slice(&[high << 4 | low])?;
        content.extend_from_slice(rest)?;
        return Ok(());
    }
    Err(Stop::at_line(alloc, "no byte", piece))
}

/// What a hexadecimal digit counts.
fn digit(letter: u8) -> Option<u8> {
    match letter {
        b'0'..=b'9' => Some(letter - b'0'),
        b'a'..=b'f' => Some(letter - b'a' + 10),
        b'A'..=b'F' => Some(letter - b'A' + 10),
        _ => None,
    }
}

/// The byte of two digits.
fn byte_of(digits: &str) -> Option<u8> {
    match digits.as_bytes() {
        [high, low] => Some(digit(*high)? << 4 | digit(*low)?),
        _ => None,
    }
}

/// Appends a text again and again: `A to B` and then a line, whose marks stand for the numbers from A to B.
fn push_repeated(alloc: Global, content: &mut Vec<u8>, rest: &str) -> Result<(), Stop> {
    let Some((range, spelling, text)) = repeated(rest) else {
        return Err(Stop::at_line(alloc, "nothing to repeat", rest));
    };
    for number in range.0..range.1.saturating_add(1) {
        push_numbered(alloc, content, spelling, text, number)?;
    }
    Ok(())
}

/// The numbers, the spelling and the text of a line that is repeated.
fn repeated(rest: &str) -> Option<((u32, u32), Spelling, &str)> {
    let (from, rest) = rest.split_once(" to ")?;
    let (to, line) = rest.split_once(' ')?;
    let (word, text) = line.split_once(' ')?;
    let range = (from.parse::<u32>().ok()?, to.parse::<u32>().ok()?);
    Some((range, Spelling::of(word)?, text))
}

/// Appends a text with a number in place of its marks.
fn push_numbered(
    alloc: Global,
    content: &mut Vec<u8>,
    spelling: Spelling,
    text: &str,
    number: u32,
) -> Result<(), Stop> {
    let Some((first, marked)) = text.split_once('{') else {
        return push_text(alloc, content, spelling, text);
    };
    push_spelled(alloc, content, spelling, first)?;
    for piece in marked.split('{') {
        let (mark, rest) = piece.split_once('}').unwrap_or((piece, ""));
        push_number(alloc, content, mark, number)?;
        push_spelled(alloc, content, spelling, rest)?;
    }
    end_line(content, spelling)?;
    Ok(())
}

/// Appends a byte so often: `COUNT HH`.
fn fill(content: &mut Vec<u8>, rest: &str) -> Result<Option<()>, AllocError> {
    let Some((count, byte)) = rest.split_once(' ') else {
        return Ok(None);
    };
    let (Ok(count), Some(byte)) = (count.parse::<usize>(), byte_of(byte)) else {
        return Ok(None);
    };
    let length = content.len().saturating_add(count);
    content.resize(length, byte)?;
    Ok(Some(()))
}

/// Changes a byte: `PLACE HH`, from 0.
fn change_byte(content: &mut Vec<u8>, rest: &str) -> Option<()> {
    let (place, byte) = rest.split_once(' ')?;
    let byte = byte_of(byte)?;
    let changed = content.get_mut(place.parse::<usize>().ok()?)?;
    *changed = byte;
    Some(())
}

/// Leaves so many of the first bytes.
fn cut(content: &mut Vec<u8>, rest: &str) -> Option<()> {
    let length = rest.parse::<usize>().ok()?;
    if length > content.len() {
        return None;
    }
    content.truncate(length);
    Some(())
}

/// Appends a content that the line cites, or a part of it.
fn push_base(
    bases: &Bases,
    content: &mut Vec<u8>,
    name: &str,
    range: &str,
) -> Result<Option<()>, AllocError> {
    let Some(part) = bases.part(name, range) else {
        return Ok(None);
    };
    content.extend_from_slice(part)?;
    Ok(Some(()))
}
