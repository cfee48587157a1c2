//! Cell files, whose records are decoded by several threads.

ghost use Rattle.std.specs.Prelude.{◌≡◌, ◌<◌, ◌≤◌, All, IfOk, IfSome, Ok, OnOk, false, length};
ghost use Rattle.file_spec.specs.{CellRecords.{empty_cell}, DecodedCell.{decoded_cell, with_following}, FileRecords.{records_after}};
ghost use Rattle.cell_read.specs.{Gives.{GivesCell}, NamesSeen.{IsKnown}, Windows.{AreAdded, AreKeptFrom, AreListed, AreWindows, records_in}};
ghost use Rattle.cell_read.specs.declared.threads.Window.{Window as SpecWindow};

use crate::file::{read_cell, start_at};
use crate::reading::{Reading, add_record, empty_reading};
use crate::records::read_record;
use crate::refusal::{ReadRefusal, RecordRefusal};
use file_spec::RecordFault;
use iso_frame::{next_record, told_length};
use rayon::prelude::*;
use record_fit::is_short;
use s57_types::{Cell, Head, Rec};
use std::alloc::{AllocError, Global};
use std::thread::Threads;

/// How many records a thread decodes at a time. A file with fewer starts no thread. A list of so many lies just below the size from which
/// the system maps and clears memory of its own for each list.
const WINDOW: usize = 896;

/// A part of a file: the place of its first record, and the one behind its last.
#[derive(Clone, Copy)]
struct Window {
    from: usize,
    to: usize,
}

/// The place behind the record at a place, by the length that its leader tells.
fn place_behind(bytes: &[u8], at: usize) -> Option<usize>
    ensures { IfSome result (λ next. (at < next) × (next ≤ length bytes.now)) }
{
    let next = at.checked_add(told_length(bytes, at)?)?;
    if next <= at || next > bytes.len() {
        return None;
    }
    Some(next)
}

/// Where a window ends: behind as many records as a thread decodes at a time, or else with the file. That they are records is seen when they
/// are decoded.
fn window_end(bytes: &[u8], from: usize) -> usize
    requires { from < length bytes.now }
    ensures { (from < result) × (result ≤ length bytes.now) }
{
    let mut at = from;
    for _ in 0..WINDOW {
        let Some(next) = place_behind(bytes, at) else {
            return bytes.len();
        };
        at = next;
    }
    at
}

/// The windows from a place to the end of the file.
fn windows_from(alloc: Global, bytes: &[u8], start: usize) -> Result<Vec<Window>, AllocError>
    requires { start ≤ length bytes.now }
    ensures { IfOk result (λ windows. AreWindows start (length bytes.now) windows.items) }
{
    let mut windows = Vec::new(alloc);
    let mut from = start;
    while from < bytes.len() {
        let to = window_end(bytes, from);
        windows.push(Window { from, to })?;
        from = to;
    }
    Ok(windows)
}

/// The records of a window, each by itself; national attributes are at the level NALL. An `Err` says that some record has a fault or is too long
/// when it is written again, that they don't end where the window does, or that memory ran out.
fn read_window(
    alloc: Global,
    nall: u8,
    bytes: &[u8],
    window: Window,
) -> Result<Vec<Rec>, RecordRefusal>
    requires { window.to ≤ length bytes.now }
    ensures { IfOk result (λ recs. AreKeptFrom nall bytes.now window.from window.to recs.items) }
{
    let mut recs = Vec::with_capacity(alloc, WINDOW)?;
    let mut at = window.from;
    while at < window.to {
        let frame = next_record(bytes, at, false)?;
        let rec = read_record(alloc, nall, &frame)?;
        if !is_short(&rec, nall) {
            return Err(RecordRefusal::Fault(RecordFault::TooLong));
        }
        if recs.push(rec).is_err() {
            return Err(RecordRefusal::NoMemory);
        }
        at += frame.length();
    }
    if at != window.to {
        return Err(RecordRefusal::Fault(RecordFault::BadLeader));
    }
    Ok(recs)
}

/// The records of windows one after the other, which threads share.
fn read_windows<R: Threads + Sync>(
    rt: &R,
    alloc: Global,
    nall: u8,
    bytes: &[u8],
    windows: &[Window],
) -> Result<Vec<Vec<Rec>>, RecordRefusal>
    requires { All (λ (w : SpecWindow). w.to ≤ length bytes.now) windows.now }
    ensures { IfOk result (λ read. (from to : _) → AreWindows from to windows.now → AreKeptFrom nall bytes.now from to (records_in read.items)) }
{
    let read = windows
        .par_iter()
        .with_min_len(1)
        .map(
            |window: &Window| -> Result<Vec<Rec>, RecordRefusal>
                requires { window.now.to ≤ length bytes.now }
                ensures { IfOk result (λ recs. AreKeptFrom nall bytes.entry.now window.now.from window.now.to recs.items) }
            { read_window(alloc, nall, bytes, *window) },
        )
        .collect::<Result<Vec<Vec<Rec>>, RecordRefusal>>(rt, alloc)?;
    read
}

/// Adds the records of a window behind the others. The thread that decoded them judged their lengths.
fn add_window(reading: &mut Reading, window: Vec<Rec>) -> Result<(), RecordRefusal>
    requires listed { AreListed reading.old.cell.head.nall window.items }
    requires known { IsKnown reading.old }
    ensures known { OnOk result (IsKnown reading.new) }
    ensures added { OnOk result (AreAdded reading.old.cell window.items reading.new.cell) }
{
    for rec in window {
        add_record(reading, rec, true)?;
    }
    Ok(())
}

/// The cell of a head and of the records of windows.
fn joined(alloc: Global, head: Head, windows: Vec<Vec<Rec>>) -> Result<Cell, RecordRefusal>
    requires { AreListed head.nall (records_in windows.items) }
    ensures { IfOk result (λ cell. AreAdded (empty_cell head) (records_in windows.items) cell) }
{
    let mut reading = empty_reading(alloc, head);
    for window in windows {
        add_window(&mut reading, window)?;
    }
    Ok(reading.cell)
}

/// The cell of the vector and feature records from a place on. An `Err` says that some record has a fault, or that memory ran out.
fn read_following<R: Threads + Sync>(
    rt: &R,
    alloc: Global,
    bytes: &[u8],
    start: usize,
    head: Head,
) -> Result<Cell, RecordRefusal>
    requires { start ≤ length bytes.now }
    ensures { IfOk result (λ cell. with_following 4 (empty_cell head) (records_after bytes.now start false) ≡ Ok cell) }
{
    let nall = head.nall;
    let windows = windows_from(alloc, bytes, start)?;
    let read = read_windows(rt, alloc, nall, bytes, &windows)?;
    joined(alloc, head, read)
}

/// The cell of a file, as `read_cell` gives it, where threads share the decoding.
///
/// Where some record has a fault, one thread reads the file once more, and finds the first one. An `Err` is as that of `read_cell`.
pub fn read_cell_in_threads<R: Threads + Sync>(
    rt: &R,
    alloc: Global,
    bytes: &[u8],
) -> Result<Cell, ReadRefusal>
    requires { length bytes.now ≤ 16777216 }
    ensures { GivesCell result (decoded_cell bytes.now) }
{
    let (head, start) = start_at(alloc, bytes)?;
    match read_following(rt, alloc, bytes, start, head) {
        Ok(cell) => Ok(cell),
        Err(_) => read_cell(alloc, bytes),
    }
}
