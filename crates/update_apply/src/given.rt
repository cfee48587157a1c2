//! What the fields of a record give.

ghost use Rattle.std.specs.Prelude.{◌≡◌, ◌++◌, ◌+◌, ◌<◌, List, ℕ, [], Result, IfOk, OnOk, length, take};
ghost use Rattle.std.specs.Result.{result_unwrap_or};
ghost use Rattle.cell_read.specs.Kept.{IsKept};
ghost use Rattle.field_spec.specs.declared.fault.FieldFault.{FieldFault};
ghost use Rattle.file_spec.specs.RecordReading.{required, rows_of};
ghost use Rattle.s57_fields.specs.Gives.{Gives};
ghost use Rattle.update_spec.specs.UpdateFaults.{of_record};
ghost use Rattle.update_apply.specs.{Gives.{GivesUpdate}, Kept.{row_limit}};

use crate::refusal::StepRefusal;
use crate::tags::first_field;
use cell_read::tag_text;
use file_spec::{FieldTag, RecordFault};
use iso_frame::Frame;
use s57_fields::{
    FieldRefusal, read_dsid, read_dssi, read_ffpt, read_foid, read_frid, read_fspt, read_natf,
    read_sg2d, read_sg3d, read_vrid, read_vrpt,
};
use s57_types::{Attr, Dsid, Dssi, End, Frid, Items, Lnam, Partner, Spot, Vrid};
use std::alloc::{AllocError, Global};
use update_spec::UpdateFault;

/// How many rows of a tag are enough: no control field counts so many, and a record that has them is too long.
const ROW_LIMIT: usize = 65_536;

/// What a field of one row holds.
pub trait Single: Drop + Sized {
    /// What the bytes of the field say.
    ghost content: { List ℕ → Result Self FieldFault };

    /// Reads the field.
    fn read(alloc: Global, bytes: &[u8]) -> Result<Self, FieldRefusal>
        ensures { Gives result (content bytes.now) };
}

impl Single for Dsid {
    ghost use Rattle.field_spec.specs.Contents.{dsid_content};

    ghost content = { dsid_content };

    fn read(alloc: Global, bytes: &[u8]) -> Result<Dsid, FieldRefusal> {
        read_dsid(alloc, bytes)
    }
}

impl Single for Dssi {
    ghost use Rattle.field_spec.specs.Contents.{dssi_content};

    ghost content = { dssi_content };

    fn read(alloc: Global, bytes: &[u8]) -> Result<Dssi, FieldRefusal> {
        read_dssi(alloc, bytes)
    }
}

impl Single for Vrid {
    ghost use Rattle.field_spec.specs.Contents.{vrid_content};

    ghost content = { vrid_content };

    fn read(alloc: Global, bytes: &[u8]) -> Result<Vrid, FieldRefusal> {
        read_vrid(alloc, bytes)
    }
}

impl Single for Frid {
    ghost use Rattle.field_spec.specs.Contents.{frid_content};

    ghost content = { frid_content };

    fn read(alloc: Global, bytes: &[u8]) -> Result<Frid, FieldRefusal> {
        read_frid(alloc, bytes)
    }
}

impl Single for Lnam {
    ghost use Rattle.field_spec.specs.Contents.{foid_content};

    ghost content = { foid_content };

    fn read(alloc: Global, bytes: &[u8]) -> Result<Lnam, FieldRefusal> {
        read_foid(alloc, bytes)
    }
}

/// The value of a field that must be there.
pub fn required<T: Single>(
    alloc: Global,
    frame: &Frame<'_>,
    tag: FieldTag,
) -> Result<T, StepRefusal>
    ensures { GivesUpdate result (of_record (required tag T.content frame.now.fields)) }
{
    let Some(bytes) = first_field(frame, &tag_text(tag)) else {
        return Err(StepRefusal::Fault(UpdateFault::Record(RecordFault::MissingField)));
    };
    match T::read(alloc, bytes) {
        Ok(value) => Ok(value),
        Err(FieldRefusal::NoMemory) => Err(StepRefusal::NoMemory),
        Err(FieldRefusal::BadField | FieldRefusal::BadText) => {
            Err(StepRefusal::Fault(UpdateFault::Record(RecordFault::MissingField)))
        }
    }
}

/// A row of a field whose row repeats, at a lexical level of its texts.
pub trait Given: Drop + Sized {
    /// What the bytes of the field say.
    ghost content: { ℕ → List ℕ → Result (List Self) FieldFault };

    /// Reads the field.
    fn read(alloc: Global, level: u8, bytes: &[u8]) -> Result<Items<Self>, FieldRefusal>
        ensures { Gives result (content level bytes.now) };
}

impl Given for Attr {
    ghost use Rattle.field_spec.specs.Contents.{attribute_content};

    ghost content = { attribute_content };

    fn read(alloc: Global, level: u8, bytes: &[u8]) -> Result<Items<Attr>, FieldRefusal> {
        read_natf(alloc, level, bytes)
    }
}

impl Given for End {
    ghost use Rattle.field_spec.specs.Contents.{end_content};

    ghost content = { λ level. end_content };

    fn read(alloc: Global, _level: u8, bytes: &[u8]) -> Result<Items<End>, FieldRefusal> {
        read_vrpt(alloc, bytes)
    }
}

impl Given for (i32, i32) {
    ghost use Rattle.field_spec.specs.Contents.{plane_content};

    ghost content = { λ level. plane_content };

    fn read(alloc: Global, _level: u8, bytes: &[u8]) -> Result<Items<(i32, i32)>, FieldRefusal> {
        read_sg2d(alloc, bytes)
    }
}

impl Given for (i32, i32, i32) {
    ghost use Rattle.field_spec.specs.Contents.{deep_content};

    ghost content = { λ level. deep_content };

    fn read(
        alloc: Global,
        _level: u8,
        bytes: &[u8],
    ) -> Result<Items<(i32, i32, i32)>, FieldRefusal> {
        read_sg3d(alloc, bytes)
    }
}

impl Given for Partner {
    ghost use Rattle.field_spec.specs.Contents.{partner_content};

    ghost content = { λ level. partner_content };

    fn read(alloc: Global, _level: u8, bytes: &[u8]) -> Result<Items<Partner>, FieldRefusal> {
        read_ffpt(alloc, bytes)
    }
}

impl Given for Spot {
    ghost use Rattle.field_spec.specs.Contents.{place_content};

    ghost content = { λ level. place_content };

    fn read(alloc: Global, _level: u8, bytes: &[u8]) -> Result<Items<Spot>, FieldRefusal> {
        read_fspt(alloc, bytes)
    }
}

/// Appends the rows of a field. A field that has a fault has none.
fn append_field<T: Given>(
    alloc: Global,
    level: u8,
    bytes: &[u8],
    rows: &mut Vec<T>,
) -> Result<(), AllocError>
    ensures { OnOk result (rows.new.items ≡ rows.old.items ++ result_unwrap_or (T.content level bytes.now) []) }
{
    match T::read(alloc, level, bytes) {
        Ok(more) => rows.append(&mut more.into_vec()),
        Err(FieldRefusal::NoMemory) => Err(AllocError),
        Err(FieldRefusal::BadField | FieldRefusal::BadText) => Ok(()),
    }
}

/// Appends the rows of the field at a place, if it has a tag, behind those of the fields before it.
fn append_tagged<T: Given>(
    alloc: Global,
    frame: &Frame<'_>,
    tag: FieldTag,
    level: u8,
    k: usize,
    rows: &mut Vec<T>,
) -> Result<(), AllocError>
    requires below { k < length frame.now.fields }
    requires rows { rows.old.items ≡ rows_of tag (T.content level) (take k frame.now.fields) }
    ensures { OnOk result (rows.new.items ≡ rows_of tag (T.content level) (take (k + 1) frame.now.fields)) }
{
    if frame.tag(k) != tag_text(tag) {
        return Ok(());
    }
    let (_, bytes) = frame.field(k);
    append_field(alloc, level, bytes, rows)
}

/// The rows of all fields of a tag, one after the other.
///
/// An `Err` means out of memory.
pub fn rows_of<T: Given>(
    alloc: Global,
    frame: &Frame<'_>,
    tag: FieldTag,
    level: u8,
) -> Result<Items<T>, AllocError>
    ensures { IfOk result (λ rows. rows ≡ rows_of tag (T.content level) frame.now.fields) }
{
    let mut rows = Vec::new(alloc);
    let count = frame.count();
    for k in 0..count {
        append_tagged(alloc, frame, tag, level, k, &mut rows)?;
    }
    Ok(Items::of_vec(rows))
}

/// The rows of the fields of a tag, one after the other: all, or those up to the field with which they are enough.
///
/// A directory of one record may name the same bytes thousands of times, so all its rows may take gigabytes. An `Err` means out of memory.
pub fn kept_rows_of<T: Given>(
    alloc: Global,
    frame: &Frame<'_>,
    tag: FieldTag,
) -> Result<Items<T>, AllocError>
    ensures { IfOk result (λ rows. IsKept row_limit rows (rows_of tag (T.content 0) frame.now.fields)) }
{
    let mut rows = Vec::new(alloc);
    let count = frame.count();
    for k in 0..count {
        if rows.len() >= ROW_LIMIT {
            return Ok(Items::of_vec(rows));
        }
        append_tagged(alloc, frame, tag, 0, k, &mut rows)?;
    }
    Ok(Items::of_vec(rows))
}
