//! The records of an update behind the first data record.

ghost use Rattle.std.specs.Prelude.{◌≡◌, ◌&&◌};
ghost use Rattle.std.specs.List.{list_any};
ghost use Rattle.file_spec.specs.FieldTags.{is_tagged};
ghost use Rattle.file_spec.specs.declared.tag.FieldTag.TheVariants as tags;
ghost use Rattle.update_spec.specs.UpdateFields.{checked_fields};
ghost use Rattle.update_spec.specs.UpdateRecords.{are_mixed, feature_update, identifiers, is_next, no_update, record_update, vector_update};
ghost use Rattle.update_apply.specs.Gives.{GivesUpdate};

use crate::case::Case;
use crate::earlier::Earlier;
use crate::feature::{feature_edit, feature_name};
use crate::fields::fields_fault;
use crate::given::required;
use crate::refusal::StepRefusal;
use crate::rows::instruction_of;
use crate::tags::has_field;
use crate::vector::vector_edit;
use cell_read::record_type;
use cell_spec::Edit;
use file_spec::{FieldTag, RecordFault, RecordType};
use iso_frame::Frame;
use s57_types::{Frid, Lnam, RecName, Vrid};
use std::alloc::Global;
use update_spec::{Identifiers, UpdateFault};

/// How many vector and feature records an update may have. A set of edits has one more, of the head.
const UPDATE_LIMIT: usize = 4095;

/// The number of the second data record.
const SECOND_DATA_RECORD: u32 = 3;

/// The fault of a record of a name behind those of earlier edits, if it has one: the name isn't new, or there is no room.
fn next_fault(earlier: &Earlier, name: RecName) -> Option<UpdateFault>
    ensures { result ≡ is_next earlier.now name }
{
    if earlier.has(name) {
        return Some(UpdateFault::Record(RecordFault::TwiceName));
    }
    if earlier.len() >= UPDATE_LIMIT {
        return Some(UpdateFault::TooManyEdits);
    }
    None
}

/// The fields of a record have no fault; national attributes are at the level NALL.
pub fn check_fields(
    alloc: Global,
    nall: u8,
    kind: RecordType,
    frame: &Frame<'_>,
) -> Result<(), StepRefusal>
    ensures { GivesUpdate result (checked_fields nall kind frame.now.fields) }
{
    match fields_fault(alloc, nall, kind, frame)? {
        Some(fault) => Err(StepRefusal::Fault(UpdateFault::Record(fault))),
        None => Ok(()),
    }
}

/// The edit of a vector record.
#[tactic(auto, using(crate::proofs::Steps::stops, crate::proofs::Steps::goes), unfolding(update_spec::specs::UpdateRecords::vector_update))]
fn vector_update(case: &Case<'_>, earlier: &Earlier) -> Result<Edit, StepRefusal>
    requires { case.now.nall ≡ case.now.look.now.head.nall }
    ensures { GivesUpdate result (vector_update case.now.look.now earlier.now case.now.frame.now.fields) }
{
    check_fields(case.alloc, 0, RecordType::Vector, case.frame)?;
    let vrid: Vrid = required(case.alloc, case.frame, FieldTag::Vrid)?;
    let Some(instruction) = instruction_of(vrid.ruin) else {
        return Err(StepRefusal::Fault(UpdateFault::Record(RecordFault::NotBase)));
    };
    if let Some(fault) = next_fault(earlier, vrid.name) {
        return Err(StepRefusal::Fault(fault));
    }
    vector_edit(case, instruction, vrid)
}

/// Whether exactly one of two lexical levels is that of two-byte texts.
fn are_mixed(a: u8, b: u8) -> bool
    ensures { result ≡ are_mixed a b }
{
    if a == 2 { b != 2 } else { b == 2 }
}

/// Whether a record has national attributes at another level than the cell's.
fn is_mixed(frame: &Frame<'_>, level: u8, nall: u8) -> bool
    ensures { result ≡ (list_any (is_tagged tags.Natf) frame.now.fields && are_mixed level nall) }
{
    has_field(frame, b"NATF") && are_mixed(level, nall)
}

/// The identifiers of a feature record.
fn identifiers(alloc: Global, frame: &Frame<'_>) -> Result<Identifiers, StepRefusal>
    ensures { GivesUpdate result (identifiers frame.now.fields) }
{
    let frid: Frid = required(alloc, frame, FieldTag::Frid)?;
    let foid: Lnam = required(alloc, frame, FieldTag::Foid)?;
    Ok(Identifiers { frid, foid })
}

/// The edit of a feature record; national attributes are at the update's level.
#[tactic(auto, using(crate::proofs::Steps::stops, crate::proofs::Steps::goes), unfolding(update_spec::specs::UpdateRecords::feature_update))]
fn feature_update(case: &Case<'_>, earlier: &Earlier) -> Result<Edit, StepRefusal>
    requires { case.now.nall ≡ case.now.look.now.head.nall }
    ensures { GivesUpdate result (feature_update case.now.look.now case.now.level earlier.now case.now.frame.now.fields) }
{
    check_fields(case.alloc, case.level, RecordType::Feature, case.frame)?;
    let ids = identifiers(case.alloc, case.frame)?;
    let Some(instruction) = instruction_of(ids.frid.ruin) else {
        return Err(StepRefusal::Fault(UpdateFault::Record(RecordFault::NotBase)));
    };
    if let Some(fault) = next_fault(earlier, feature_name(ids.frid)) {
        return Err(StepRefusal::Fault(fault));
    }
    if is_mixed(case.frame, case.level, case.nall) {
        return Err(StepRefusal::Fault(UpdateFault::LevelMix));
    }
    feature_edit(case, instruction, ids)
}

/// A data set geographic reference record, which has no effect and may be the second data record alone.
#[tactic(auto, unfolding(update_spec::specs::UpdateRecords::no_update))]
fn no_update(alloc: Global, number: u32, frame: &Frame<'_>) -> Result<Option<Edit>, StepRefusal>
    ensures { GivesUpdate result (no_update number frame.now.fields) }
{
    if number != SECOND_DATA_RECORD {
        return Err(StepRefusal::Fault(UpdateFault::Record(RecordFault::HeadOrder)));
    }
    check_fields(alloc, 0, RecordType::GeographicReference, frame)?;
    Ok(None)
}

/// The edit that the record of a number stands for, behind those of earlier edits, or its first fault.
#[tactic(auto, using(crate::proofs::Steps::stops, crate::proofs::Steps::goes), unfolding(update_spec::specs::UpdateRecords::record_update))]
pub fn record_update(
    case: &Case<'_>,
    number: u32,
    earlier: &Earlier,
) -> Result<Option<Edit>, StepRefusal>
    requires { case.now.nall ≡ case.now.look.now.head.nall }
    ensures { GivesUpdate result (record_update case.now.look.now case.now.level number earlier.now case.now.frame.now.fields) }
{
    match record_type(case.frame)? {
        RecordType::GeneralInformation => {
            Err(StepRefusal::Fault(UpdateFault::Record(RecordFault::HeadOrder)))
        }
        RecordType::GeographicReference => no_update(case.alloc, number, case.frame),
        RecordType::Vector => Ok(Some(vector_update(case, earlier)?)),
        RecordType::Feature => Ok(Some(feature_update(case, earlier)?)),
    }
}
