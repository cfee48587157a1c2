//! The first fault of the fields of a record.

ghost use Rattle.std.specs.Prelude.{◌≡◌, ◌≤◌, ◌<◌, ◌+◌, ℕ, List, [], length, drop, take, IfOk, Result};
ghost use Rattle.std.specs.Option.{option_or};
ghost use Rattle.std.specs.Result.{result_err};
ghost use Rattle.field_spec.specs.Contents.{deep_content, plane_content};
ghost use Rattle.field_spec.specs.declared.fault.FieldFault.{FieldFault as SpecFault};
ghost use Rattle.file_spec.specs.RecordFaults.{of_field};
ghost use Rattle.file_spec.specs.RecordReading.{content_fault, field_fault};
ghost use Rattle.s57_fields.specs.Gives.{Gives};
ghost use Rattle.update_spec.specs.UpdateFields.{control_fault, update_fields_fault};
ghost use Rattle.update_apply.specs.RowSizes.{size_fault};

use crate::control::read_control;
use crate::tags::{control_in, control_text};
use cell_read::{stands_before, stands_twice, tag_in};
use field_spec::FieldFault;
use file_spec::{FieldTag, RecordFault, RecordType};
use iso_frame::Frame;
use s57_fields::{
    FieldRefusal, field_body, read_attf, read_attv, read_dsid, read_dspm, read_dssi, read_ffpt,
    read_foid, read_frid, read_fspt, read_natf, read_vrid, read_vrpt,
};
use std::alloc::{AllocError, Global};
use update_spec::ControlTag;

/// How many bytes a row of 2-D coordinates takes, and a sounding.
const PLANE_SIZE: usize = 8;

const DEEP_SIZE: usize = 12;

/// What a reader of a field finds wrong with its bytes, if anything.
fn fault_of<T: Drop>(read: Result<T, FieldRefusal>) -> Result<Option<FieldFault>, AllocError>
    ensures { (content : Result T SpecFault) → Gives read content → IfOk result (λ fault. fault ≡ result_err content) }
{
    match read {
        Ok(_) => Ok(None),
        Err(FieldRefusal::BadField) => Ok(Some(FieldFault::BadField)),
        Err(FieldRefusal::BadText) => Ok(Some(FieldFault::BadText)),
        Err(FieldRefusal::NoMemory) => Err(AllocError),
    }
}

/// The fault of the bytes of a field whose rows take so many bytes each, whatever these are, if it has one.
fn size_fault(size: usize, bytes: &[u8]) -> Option<FieldFault>
    requires { 0 < size }
    ensures { result ≡ size_fault size bytes.now }
{
    let Some(body) = field_body(bytes) else {
        return Some(FieldFault::BadField);
    };
    if body.len() % size == 0 {
        None
    } else {
        Some(FieldFault::BadField)
    }
}

/// The fault of the bytes of 2-D coordinates, if they have one. Any numbers are coordinates, so none is read.
#[tactic(auto, using(crate::proofs::SizedRows::plane_fault))]
fn plane_fault(bytes: &[u8]) -> Option<FieldFault>
    ensures { result ≡ result_err (plane_content bytes.now) }
{
    size_fault(PLANE_SIZE, bytes)
}

/// The fault of the bytes of soundings, if they have one. Any numbers are soundings, so none is read.
#[tactic(auto, using(crate::proofs::SizedRows::deep_fault))]
fn deep_fault(bytes: &[u8]) -> Option<FieldFault>
    ensures { result ≡ result_err (deep_content bytes.now) }
{
    size_fault(DEEP_SIZE, bytes)
}

/// The fault of the bytes of a field, if they have one; national attributes are at the level NALL.
fn content_fault(
    alloc: Global,
    nall: u8,
    tag: FieldTag,
    bytes: &[u8],
) -> Result<Option<FieldFault>, AllocError>
    ensures { IfOk result (λ fault. fault ≡ content_fault nall tag bytes.now) }
{
    match tag {
        FieldTag::RecordNumber => Ok(None),
        FieldTag::Dsid => fault_of(read_dsid(alloc, bytes)),
        FieldTag::Dssi => fault_of(read_dssi(alloc, bytes)),
        FieldTag::Dspm => fault_of(read_dspm(alloc, bytes)),
        FieldTag::Frid => fault_of(read_frid(alloc, bytes)),
        FieldTag::Foid => fault_of(read_foid(alloc, bytes)),
        FieldTag::Attf => fault_of(read_attf(alloc, bytes)),
        FieldTag::Natf => fault_of(read_natf(alloc, nall, bytes)),
        FieldTag::Ffpt => fault_of(read_ffpt(alloc, bytes)),
        FieldTag::Fspt => fault_of(read_fspt(alloc, bytes)),
        FieldTag::Vrid => fault_of(read_vrid(alloc, bytes)),
        FieldTag::Attv => fault_of(read_attv(alloc, bytes)),
        FieldTag::Vrpt => fault_of(read_vrpt(alloc, bytes)),
        FieldTag::Sg2d => Ok(plane_fault(bytes)),
        FieldTag::Sg3d => Ok(deep_fault(bytes)),
    }
}

/// What the fault of a field makes of its record.
fn of_field(fault: FieldFault) -> RecordFault
    ensures { result ≡ of_field fault }
{
    match fault {
        FieldFault::BadField => RecordFault::BadField,
        FieldFault::BadText => RecordFault::BadText,
    }
}

/// The fault of a field that may stand in a cell's record, behind so many fields.
fn common_fault(
    alloc: Global,
    nall: u8,
    kind: RecordType,
    frame: &Frame<'_>,
    k: usize,
    name: &[u8; 4],
    bytes: &[u8],
) -> Result<Option<RecordFault>, AllocError>
    requires { k ≤ length frame.now.fields }
    ensures { IfOk result (λ fault. fault ≡ field_fault nall kind (take k frame.now.fields) (record { tag = name.now; bytes = bytes.now })) }
{
    let Some(tag) = tag_in(kind, name) else {
        return Ok(Some(RecordFault::ForeignTag));
    };
    if stands_twice(frame, tag, k) {
        return Ok(Some(RecordFault::RepeatedField));
    }
    match content_fault(alloc, nall, tag, bytes)? {
        Some(fault) => Ok(Some(of_field(fault))),
        None => Ok(None),
    }
}

/// The fault of a control field behind so many fields.
fn control_fault(frame: &Frame<'_>, k: usize, tag: ControlTag, bytes: &[u8]) -> Option<RecordFault>
    requires { k ≤ length frame.now.fields }
    ensures { (name : List ℕ) → result ≡ control_fault tag (take k frame.now.fields) (record { tag = name; bytes = bytes.now }) }
{
    if stands_before(frame, &control_text(tag), k) {
        return Some(RecordFault::RepeatedField);
    }
    match read_control(bytes) {
        Some(_) => None,
        None => Some(RecordFault::BadField),
    }
}

/// The fault of the field at a place behind the fields before it.
fn field_fault(
    alloc: Global,
    nall: u8,
    kind: RecordType,
    frame: &Frame<'_>,
    k: usize,
) -> Result<Option<RecordFault>, AllocError>
    requires { k < length frame.now.fields }
    ensures { IfOk result (λ fault. update_fields_fault nall kind (take k frame.now.fields) (drop k frame.now.fields) ≡
        option_or fault (update_fields_fault nall kind (take (k + 1) frame.now.fields) (drop (k + 1) frame.now.fields))) }
{
    let (name, bytes) = frame.field(k);
    match control_in(kind, &name) {
        Some(tag) => Ok(control_fault(frame, k, tag, bytes)),
        None => common_fault(alloc, nall, kind, frame, k, &name, bytes),
    }
}

/// The fault of the first field that has one; national attributes are at the level NALL.
///
/// An `Err` means out of memory.
pub fn fields_fault(
    alloc: Global,
    nall: u8,
    kind: RecordType,
    frame: &Frame<'_>,
) -> Result<Option<RecordFault>, AllocError>
    ensures { IfOk result (λ fault. fault ≡ update_fields_fault nall kind [] frame.now.fields) }
{
    let count = frame.count();
    for k in 0..count {
        if let Some(fault) = field_fault(alloc, nall, kind, frame, k)? {
            return Ok(Some(fault));
        }
    }
    Ok(None)
}
