//! Cell files.

ghost use Rattle.std.specs.Prelude.{◌≡◌, ◌+◌, ◌<◌, ◌≤◌, ℕ, true, false, length, OnOk, IfOk, IfErr};
ghost use Rattle.file_spec.specs.CellRecords.{empty_cell};
ghost use Rattle.file_spec.specs.DecodedCell.{decoded_cell, general_information, geographic_reference, with_following};
ghost use Rattle.file_spec.specs.FileRecords.{records_after};
ghost use Rattle.cell_read.specs.FileParts.{data_records, records_behind_general};
ghost use Rattle.cell_read.specs.Gives.{GivesCell, GivesNext, GivesStart, IsFaultAt};
ghost use Rattle.cell_read.specs.NamesSeen.{IsKnown};

use crate::heads::{head_with, read_general_information, read_geographic_reference};
use crate::reading::{Reading, add_record, empty_reading};
use crate::records::read_record;
use crate::refusal::{ReadRefusal, RecordRefusal};
use iso_frame::next_record;
use record_fit::is_short;
use s57_types::{Cell, Dsid, Dspm, Dssi, Head};
use std::alloc::Global;

/// Adds the vector or feature record at a place, and answers its length.
fn read_next(
    alloc: Global,
    bytes: &[u8],
    at: usize,
    reading: &mut Reading,
) -> Result<usize, RecordRefusal>
    requires before_end { at < length bytes.now }
    requires known { IsKnown reading.old }
    ensures known { OnOk result (IsKnown reading.new) }
    ensures within { IfOk result (λ n. (0 < n) × (at + n ≤ length bytes.now)) }
    ensures step { (number : ℕ) → IfOk result (λ n. with_following number reading.old.cell (records_after bytes.now at false) ≡
        with_following (number + 1) reading.new.cell (records_after bytes.now (at + n) false)) }
    ensures fault { (number : ℕ) → IfErr result (λ e. IsFaultAt number at e (with_following number reading.old.cell (records_after bytes.now at false))) }
{
    let frame = next_record(bytes, at, false)?;
    let rec = read_record(alloc, reading.cell.head.nall, &frame)?;
    let short = is_short(&rec, reading.cell.head.nall);
    add_record(reading, rec, short)?;
    Ok(frame.length())
}

/// The vector and feature records from a place on, which are those from number 4 on, as a cell with a head.
fn read_following(
    alloc: Global,
    bytes: &[u8],
    start: usize,
    head: Head,
) -> Result<Cell, ReadRefusal>
    requires within { start ≤ length bytes.now }
    requires small { length bytes.now ≤ 16777216 }
    ensures { GivesCell result (with_following 4 (empty_cell head) (records_after bytes.now start false)) }
{
    let mut reading = empty_reading(alloc, head);
    let mut at = start;
    let mut number: u32 = 4;
    while at < bytes.len() {
        match read_next(alloc, bytes, at, &mut reading) {
            Ok(length) => at += length,
            Err(refusal) => return Err(refusal.at(number, at as u32)),
        }
        number += 1;
    }
    Ok(reading.cell)
}

/// The data set general information record at a place, and the place behind it.
fn general_information_at(
    alloc: Global,
    bytes: &[u8],
    at: usize,
) -> Result<((Dsid, Dssi), usize), RecordRefusal>
    requires { at ≤ length bytes.now }
    ensures next { (number : ℕ) → GivesNext bytes.now false number at general_information result }
    ensures within { IfOk result (λ x. x.1 ≤ length bytes.now) }
{
    let frame = next_record(bytes, at, false)?;
    let general = read_general_information(alloc, &frame)?;
    Ok((general, at + frame.length()))
}

/// The data set geographic reference record at a place, and the place behind it.
fn geographic_reference_at(
    alloc: Global,
    bytes: &[u8],
    at: usize,
) -> Result<(Dspm, usize), RecordRefusal>
    requires { at ≤ length bytes.now }
    ensures next { (number : ℕ) → GivesNext bytes.now false number at geographic_reference result }
    ensures within { IfOk result (λ x. x.1 ≤ length bytes.now) }
{
    let frame = next_record(bytes, at, false)?;
    let dspm = read_geographic_reference(alloc, &frame)?;
    Ok((dspm, at + frame.length()))
}

/// The head of a cell, whose first data record says so much, and the place behind the second one, which begins at a place.
fn behind_general_at(
    alloc: Global,
    bytes: &[u8],
    at: usize,
    dsid: Dsid,
    dssi: Dssi,
) -> Result<(Head, usize), ReadRefusal>
    requires within { at ≤ length bytes.now }
    requires small { length bytes.now ≤ 16777216 }
    ensures { GivesStart bytes.now result (records_behind_general (length bytes.now) dsid dssi (records_after bytes.now at false)) }
{
    match geographic_reference_at(alloc, bytes, at) {
        Ok((dspm, next)) => Ok((head_with(dsid, dssi, dspm), next)),
        Err(refusal) => Err(refusal.at(3, at as u32)),
    }
}

/// The head of the cell of the data records, which begin at a place, and the place behind the two head records.
fn data_records_at(alloc: Global, bytes: &[u8], at: usize) -> Result<(Head, usize), ReadRefusal>
    requires within { at ≤ length bytes.now }
    requires small { length bytes.now ≤ 16777216 }
    ensures { GivesStart bytes.now result (data_records (length bytes.now) (records_after bytes.now at false)) }
{
    match general_information_at(alloc, bytes, at) {
        Ok(((dsid, dssi), next)) => behind_general_at(alloc, bytes, next, dsid, dssi),
        Err(refusal) => Err(refusal.at(2, at as u32)),
    }
}

/// The head of a file's cell and the place behind the head records, or the first fault up to there.
pub fn start_at(alloc: Global, bytes: &[u8]) -> Result<(Head, usize), ReadRefusal>
    requires { length bytes.now ≤ 16777216 }
    ensures { GivesStart bytes.now result (decoded_cell bytes.now) }
{
    match next_record(bytes, 0, true) {
        Ok(descriptive) => data_records_at(alloc, bytes, descriptive.length()),
        Err(fault) => Err(RecordRefusal::from(fault).at(1, 0)),
    }
}

/// The cell that a file of at most 16,777,216 bytes stands for, or the file's first fault: a data descriptive record,
/// whose fields aren't looked at, the two head records, and vector and feature records in any order (S-57 Part 3, 7).
///
/// An `Err` is that fault, or out of memory.
pub fn read_cell(alloc: Global, bytes: &[u8]) -> Result<Cell, ReadRefusal>
    requires { length bytes.now ≤ 16777216 }
    ensures { GivesCell result (decoded_cell bytes.now) }
{
    let (head, start) = start_at(alloc, bytes)?;
    read_following(alloc, bytes, start, head)
}
