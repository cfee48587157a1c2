//! The first data record of an update, and the edit of the head.

ghost use Rattle.std.specs.Prelude.{◌≡◌, ◌<◌, ◌≤◌, ◌^◌, false, true, length, MatchOption, IfOk, IfSome};
ghost use Rattle.std.specs.List.{list_all};
ghost use Rattle.frame_spec.specs.FrameDecision.{is_digit};
ghost use Rattle.frame_spec.specs.RecordFrame.{decimal_value};
ghost use Rattle.update_spec.specs.UpdateHead.{greater_level, head_update, identification_fault, is_identification, is_next_update, told_by_values};
ghost use Rattle.update_spec.specs.UpdateHead.{update_identification, update_number};
ghost use Rattle.update_apply.specs.Gives.{GivesUpdate};

use crate::given::required;
use crate::record::check_fields;
use crate::refusal::StepRefusal;
use cell_read::record_type;
use file_spec::{FieldTag, RecordFault, RecordType};
use iso_frame::Frame;
use s57_types::{Dsid, Dssi, Duplicate, Head, HeadEdit, Level};
use std::alloc::{AllocError, Global};
use update_spec::UpdateFault;

/// The exchange purpose EXPP of an update.
const REVISION: u8 = 2;

/// The number that digits write, if they are digits.
fn decimal(digits: &[u8]) -> Option<usize>
    requires { length digits.now ≤ 9 }
    ensures value { MatchOption result (list_all is_digit digits.now ≡ false) (λ n. (list_all is_digit digits.now ≡ true) × (n ≡ decimal_value digits.now)) }
    ensures bound { IfSome result (λ n. n < 10 ^ 9) }
{
    let mut number: usize = 0;
    for digit in digits {
        if *digit < b'0' || *digit > b'9' {
            return None;
        }
        number = number * 10 + usize::from(*digit - b'0');
    }
    Some(number)
}

/// The number of an update number UPDN, which has from 1 to 9 decimal digits.
fn update_number(text: &[u8]) -> Option<usize>
    ensures number { result ≡ update_number text.now }
    ensures bound { IfSome result (λ n. n < 10 ^ 9) }
{
    if text.is_empty() || text.len() > 9 {
        return None;
    }
    decimal(text)
}

/// Whether an update number is the next one.
fn is_next_update(before: &[u8], after: &[u8]) -> bool
    ensures { result ≡ is_next_update before.now after.now }
{
    match (update_number(before), update_number(after)) {
        (Some(before), Some(after)) => after == before + 1,
        _ => false,
    }
}

/// Why a data set isn't the next update of the edition of a cell with a head, if it isn't.
fn identification_fault(head: &Head, dsid: &Dsid) -> Option<UpdateFault>
    ensures { result ≡ identification_fault head.now dsid.now }
{
    if dsid.expp != REVISION {
        return Some(UpdateFault::Record(RecordFault::NotBase));
    }
    if dsid.edtn.as_slice() != head.edtn.as_slice() {
        return Some(UpdateFault::WrongEdition);
    }
    if !is_next_update(head.updn.as_slice(), dsid.updn.as_slice()) {
        return Some(UpdateFault::WrongUpdate);
    }
    None
}

/// Refuses a record that isn't the data set general information.
fn check_identification(frame: &Frame<'_>) -> Result<(), RecordFault>
    ensures { result ≡ is_identification frame.now.fields }
{
    match record_type(frame)? {
        RecordType::GeneralInformation => Ok(()),
        RecordType::GeographicReference | RecordType::Vector | RecordType::Feature => {
            Err(RecordFault::HeadOrder)
        }
    }
}

/// The greater of two lexical levels AALL.
fn greater_level(a: u8, b: u8) -> Level
    ensures { result ≡ greater_level a b }
{
    if a > 0 || b > 0 {
        Level::One
    } else {
        Level::Zero
    }
}

/// The edit of the head: it takes over the update number and the issue date, and the greater level.
///
/// An `Err` means out of memory.
fn head_update(alloc: Global, head: &Head, dsid: &Dsid, dssi: Dssi) -> Result<HeadEdit, AllocError>
    ensures { IfOk result (λ edit. edit ≡ head_update head.now dsid.now dssi) }
{
    Ok(HeadEdit {
        edtn: head.edtn.copy(alloc)?,
        updn: dsid.updn.copy(alloc)?,
        uadt: head.uadt,
        isdt: dsid.isdt,
        aall: greater_level(head.aall, dssi.aall),
        comt: head.dsid_comt.copy(alloc)?,
    })
}

/// What the data set identification and structure information of an update say to a cell with a head.
#[tactic(auto, using(crate::proofs::Steps::stops, crate::proofs::Steps::goes))]
fn told_by_fields(
    alloc: Global,
    head: &Head,
    dsid: &Dsid,
    dssi: Dssi,
) -> Result<(HeadEdit, u8), StepRefusal>
    ensures { GivesUpdate result (told_by_values head.now dsid.now dssi) }
{
    if let Some(fault) = identification_fault(head, dsid) {
        return Err(StepRefusal::Fault(fault));
    }
    let edit = head_update(alloc, head, dsid, dssi)?;
    Ok((edit, dssi.nall))
}

/// What the first data record of an update says to a cell with a head: the edit of the head, and the level NALL of the update.
#[tactic(auto, using(crate::proofs::Steps::stops, crate::proofs::Steps::goes), unfolding(update_spec::specs::UpdateHead::update_identification))]
pub fn update_identification(
    alloc: Global,
    head: &Head,
    frame: &Frame<'_>,
) -> Result<(HeadEdit, u8), StepRefusal>
    ensures { GivesUpdate result (update_identification head.now frame.now.fields) }
{
    if let Err(fault) = check_identification(frame) {
        return Err(StepRefusal::Fault(UpdateFault::Record(fault)));
    }
    check_fields(alloc, 0, RecordType::GeneralInformation, frame)?;
    let dssi: Dssi = required(alloc, frame, FieldTag::Dssi)?;
    let dsid: Dsid = required(alloc, frame, FieldTag::Dsid)?;
    told_by_fields(alloc, head, &dsid, dssi)
}
