//! The fields of a record, one after the other.

ghost use Rattle.std.specs.Prelude.{◌≡◌, ◌<◌, ◌+◌, length, take, [], None, OnOk, IfOk, IfErr};
ghost use Rattle.file_spec.specs.RecordReading.{fields_fault};
ghost use Rattle.cell_read.specs.Gives.{IsFault};
ghost use Rattle.cell_read.specs.Kept.{AreKept};
ghost use Rattle.cell_read.specs.ValuesOf.{values_of, fault_from};

use crate::refusal::RecordRefusal;
use crate::tags::{stands_twice, tag_in};
use crate::values::{FieldValues, no_values, read_content};
use file_spec::{RecordFault, RecordType};
use iso_frame::Frame;
use std::alloc::Global;

/// Reads the field at a place behind the fields before it.
fn read_field(
    alloc: Global,
    nall: u8,
    kind: RecordType,
    frame: &Frame<'_>,
    k: usize,
    values: &mut FieldValues,
) -> Result<(), RecordRefusal>
    requires below { k < length frame.now.fields }
    requires values { AreKept values.old (values_of nall (take k frame.now.fields)) }
    ensures values { OnOk result (AreKept values.new (values_of nall (take (k + 1) frame.now.fields))) }
    ensures good { OnOk result (fault_from nall kind frame.now.fields k ≡ fault_from nall kind frame.now.fields (k + 1)) }
    ensures fault { IfErr result (λ e. IsFault e (fault_from nall kind frame.now.fields k)) }
{
    let (name, bytes) = frame.field(k);
    let Some(tag) = tag_in(kind, &name) else {
        return Err(RecordRefusal::Fault(RecordFault::ForeignTag));
    };
    if stands_twice(frame, tag, k) {
        return Err(RecordRefusal::Fault(RecordFault::RepeatedField));
    }
    read_content(alloc, nall, tag, bytes, values)
}

/// The values of the fields of a record of a type, as far as they are kept, or the fault of the first field that has one.
pub fn read_fields(
    alloc: Global,
    nall: u8,
    kind: RecordType,
    frame: &Frame<'_>,
) -> Result<FieldValues, RecordRefusal>
    ensures values { IfOk result (λ values. AreKept values (values_of nall frame.now.fields)) }
    ensures good { OnOk result (fields_fault nall kind [] frame.now.fields ≡ None) }
    ensures fault { IfErr result (λ e. IsFault e (fields_fault nall kind [] frame.now.fields)) }
{
    let mut values = no_values(alloc);
    let count = frame.count();
    for k in 0..count {
        read_field(alloc, nall, kind, frame, k, &mut values)?;
    }
    Ok(values)
}
