//! Update files.

ghost use Rattle.std.specs.Prelude.{◌≡◌, ◌+◌, ◌<◌, ◌≤◌, ◌++◌, [], length, false, IfOk, IfErr, MatchResult, Ok, option_to_list};
ghost use Rattle.cell_spec.specs.Writable.{IsWritable};
ghost use Rattle.file_spec.specs.FileRecords.{records_after};
ghost use Rattle.update_spec.specs.UpdateHead.{update_identification};
ghost use Rattle.update_spec.specs.UpdatedCell.{edits_of_update, edits_with};
ghost use Rattle.update_apply.specs.FileParts.{edits_behind, edits_of_data};
ghost use Rattle.update_apply.specs.Gives.{GivesFile, GivesNext, IsUpdate, IsUpdateRefusal, RefusesAt};

use crate::case::Case;
use crate::earlier::Earlier;
use crate::head::update_identification;
use crate::record::record_update;
use crate::refusal::{StepRefusal, UpdateRefusal};
use cell_spec::{Edit, writable_cells_are_readable};
use chain_topo::ListLook;
use edit_sets::{EditSet, FormRefusal};
use iso_frame::next_record;
use s57_types::{Cell, Head, HeadEdit};
use std::alloc::{AllocError, Global};

/// An update file, with the cell that it is read against.
#[derive(Drop)]
struct Update<'a, 'b, 'c> {
    alloc: Global,
    cell: &'b Cell,
    /// A look into the cell.
    look: &'a ListLook<'b>,
    bytes: &'c [u8],
}

/// Earlier edits with that of a record, if it stands for one.
fn with_edit(earlier: Earlier, edit: Option<Edit>) -> Result<Earlier, AllocError>
    ensures { IfOk result (λ more. more ≡ earlier ++ option_to_list edit) }
{
    match edit {
        Some(edit) => earlier.with(edit),
        None => Ok(earlier),
    }
}

/// Earlier edits with that of the record of a number, which begins at a place, and the record's length.
fn read_next(
    update: &Update<'_, '_, '_>,
    level: u8,
    number: u32,
    at: usize,
    earlier: Earlier,
) -> Result<(Earlier, usize), StepRefusal>
    requires look { update.now.look.now ≡ update.now.cell.now }
    requires before_end { at < length update.now.bytes.now }
    ensures within { IfOk result (λ x. (0 < x.1) × (at + x.1 ≤ length update.now.bytes.now)) }
    ensures step { IfOk result (λ x. edits_with update.now.look.now level number earlier (records_after update.now.bytes.now at false) ≡
        edits_with update.now.look.now level (number + 1) x.0 (records_after update.now.bytes.now (at + x.1) false)) }
    ensures fault { IfErr result (λ e. RefusesAt number at e
        (edits_with update.now.look.now level number earlier (records_after update.now.bytes.now at false))) }
{
    let frame = next_record(update.bytes, at, false)?;
    let case = Case {
        alloc: update.alloc,
        look: update.look,
        nall: update.cell.head.nall,
        level,
        frame: &frame,
    };
    let edit = record_update(&case, number, &earlier)?;
    let more = with_edit(earlier, edit)?;
    Ok((more, frame.length()))
}

/// The edits of the records from a place on, which are those from number 3 on.
fn read_following(
    update: &Update<'_, '_, '_>,
    level: u8,
    start: usize,
) -> Result<Earlier, UpdateRefusal>
    requires look { update.now.look.now ≡ update.now.cell.now }
    requires within { start ≤ length update.now.bytes.now }
    requires small { length update.now.bytes.now ≤ 16777216 }
    ensures { GivesFile result (edits_with update.now.look.now level 3 [] (records_after update.now.bytes.now start false)) }
{
    let mut earlier = Earlier::none(update.alloc);
    let mut at = start;
    let mut number: u32 = 3;
    while at < update.bytes.len() {
        match read_next(update, level, number, at, earlier) {
            Ok((more, length)) => {
                earlier = more;
                at += length;
            }
            Err(refusal) => return Err(refusal.at(number, at as u32)),
        }
        number += 1;
    }
    Ok(earlier)
}

/// The identification of an update at a place, and the place behind it.
fn identification_at(
    alloc: Global,
    head: &Head,
    bytes: &[u8],
    at: usize,
) -> Result<((HeadEdit, u8), usize), StepRefusal>
    requires { at ≤ length bytes.now }
    ensures next { GivesNext bytes.now false 2 at (update_identification head.now) result }
    ensures within { IfOk result (λ x. x.1 ≤ length bytes.now) }
{
    let frame = next_record(bytes, at, false)?;
    let general = update_identification(alloc, head, &frame)?;
    Ok((general, at + frame.length()))
}

/// The edits of the records behind the identification, which begin at a place, and that of the head.
fn read_behind(
    update: &Update<'_, '_, '_>,
    edit: HeadEdit,
    level: u8,
    at: usize,
) -> Result<Earlier, UpdateRefusal>
    requires look { update.now.look.now ≡ update.now.cell.now }
    requires within { at ≤ length update.now.bytes.now }
    requires small { length update.now.bytes.now ≤ 16777216 }
    ensures { GivesFile result (edits_behind update.now.cell.now (edit, level) (records_after update.now.bytes.now at false)) }
{
    let earlier = read_following(update, level, at)?;
    Ok(earlier.with(Edit::Head(edit))?)
}

/// The edits of the data records, which begin at a place.
fn read_data(update: &Update<'_, '_, '_>, at: usize) -> Result<Earlier, UpdateRefusal>
    requires look { update.now.look.now ≡ update.now.cell.now }
    requires within { at ≤ length update.now.bytes.now }
    requires small { length update.now.bytes.now ≤ 16777216 }
    ensures { GivesFile result (edits_of_data update.now.cell.now (length update.now.bytes.now) (records_after update.now.bytes.now at false)) }
{
    match identification_at(update.alloc, &update.cell.head, update.bytes, at) {
        Ok(((edit, level), next)) => read_behind(update, edit, level, next),
        Err(refusal) => Err(refusal.at(2, at as u32)),
    }
}

/// The edits of an update file of at most 16,777,216 bytes, or its first fault.
fn read_edits(update: &Update<'_, '_, '_>) -> Result<Earlier, UpdateRefusal>
    requires look { update.now.look.now ≡ update.now.cell.now }
    requires small { length update.now.bytes.now ≤ 16777216 }
    ensures { GivesFile result (edits_of_update update.now.cell.now update.now.bytes.now) }
{
    match next_record(update.bytes, 0, true) {
        Ok(descriptive) => read_data(update, descriptive.length()),
        Err(fault) => Err(StepRefusal::from(fault).at(1, 0)),
    }
}

/// The set of the edits that an update of a cell stands for.
fn set_of(
    alloc: Global,
    cell: &Cell,
    bytes: &[u8],
    edits: &[Edit],
) -> Result<EditSet, UpdateRefusal>
    requires writable { IsWritable cell.now }
    requires edits { edits_of_update cell.now bytes.now ≡ Ok edits.now }
    ensures { MatchResult result (IsUpdate cell.now bytes.now) (IsUpdateRefusal cell.now bytes.now) }
{
    writable_cells_are_readable();
    match EditSet::make(alloc, edits, &[], cell.head.nall) {
        Ok(set) => Ok(set),
        Err(FormRefusal::NoMemory) => Err(UpdateRefusal::NoMemory),
        Err(FormRefusal::Fault(_)) => unreachable!(),
    }
}

/// The edits that an update file of at most 16,777,216 bytes stands for, one for each vector and feature record and one of the head, or
/// the file's first fault: a data descriptive record, whose fields aren't looked at, the data set identification of an update, at most one
/// data set geographic reference, which has no effect, and vector and feature records in any order (S-57 Part 3, 7 and 8.4). The cell that
/// they make is the one that the records make one after the other.
///
/// An `Err` is that fault, or out of memory.
pub fn update_edits(alloc: Global, cell: &Cell, bytes: &[u8]) -> Result<EditSet, UpdateRefusal>
    requires writable { IsWritable cell.now }
    requires small { length bytes.now ≤ 16777216 }
    ensures { MatchResult result (IsUpdate cell.now bytes.now) (IsUpdateRefusal cell.now bytes.now) }
{
    writable_cells_are_readable();
    let look = ListLook::make(alloc, cell)?;
    let update = Update {
        alloc,
        cell,
        look: &look,
        bytes,
    };
    let edits = read_edits(&update)?;
    set_of(alloc, cell, bytes, edits.as_slice())
}
