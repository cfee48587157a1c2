//! Calls of the program on files in memory.

use enc_outside::{Meet, MemShelf, MemSink, NoMeet};
use enc_top::{print_status, run};
use std::alloc::Global;
use std::sync::Wait;
use std::test::Fail;
use std::thread::Threads;

/// Parts one after the other.
pub fn joined(alloc: Global, parts: &[&[u8]]) -> Result<Vec<u8>, Fail> {
    let mut bytes = Vec::new(alloc);
    for part in parts {
        bytes.extend_from_slice(part)?;
    }
    Ok(bytes)
}

/// Words from a text with spaces between them.
pub fn words(alloc: Global, text: &str) -> Result<Vec<String>, Fail> {
    let mut words = Vec::new(alloc);
    for word in text.split_whitespace() {
        words.push(String::from_str(alloc, word)?)?;
    }
    Ok(words)
}

/// What a call prints: what it puts, and then the line of its status.
pub fn printed<R: Threads + Wait + Sync, M: Meet + Sync>(
    rt: &R,
    alloc: Global,
    shelf: &mut MemShelf,
    call: &str,
    meet: &M,
) -> Result<Vec<u8>, Fail> {
    let mut out = MemSink::make(alloc);
    let words = words(alloc, call)?;
    let status = run(rt, alloc, &words, shelf, &mut out, meet);
    let mut text = Vec::from_slice(alloc, out.bytes())?;
    print_status(alloc, &status, &mut text)?;
    Ok(text)
}

/// What `check` prints of a cell file.
pub fn checked<R: Threads + Wait + Sync>(
    rt: &R,
    alloc: Global,
    cell: &[u8],
) -> Result<Vec<u8>, Fail> {
    let mut shelf = MemShelf::make(alloc);
    shelf.place("CELL", cell)?;
    printed(rt, alloc, &mut shelf, "check CELL", &NoMeet)
}

/// The file that a run of one script in an order leaves.
pub fn exported<R: Threads + Wait + Sync>(
    rt: &R,
    alloc: Global,
    cell: &[u8],
    order: &[u8],
    script: &[u8],
) -> Result<Vec<u8>, Fail> {
    let mut shelf = MemShelf::make(alloc);
    shelf.place("CELL", cell)?;
    shelf.place("ORDER", order)?;
    shelf.place("S", script)?;
    let mut out = MemSink::make(alloc);
    let words = words(alloc, "replay CELL OUT ORDER S")?;
    run(rt, alloc, &words, &mut shelf, &mut out, &NoMeet);
    let file = shelf.file("OUT").ok_or("no file was made")?;
    Ok(Vec::from_slice(alloc, file)?)
}
