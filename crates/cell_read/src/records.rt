//! Vector and feature records (S-57 Part 3, 7.6 and 7.7).

ghost use Rattle.std.specs.Prelude.{◌≡◌, ℕ};
ghost use Rattle.file_spec.specs.DecodedCell.{vector_record, feature_record};
ghost use Rattle.cell_read.specs.KeptRecords.{GivesKept};
ghost use Rattle.cell_read.specs.RecordsFrom.{vector_from, feature_from, record_said};

use crate::fields::read_fields;
use crate::refusal::RecordRefusal;
use crate::tags::record_type;
use crate::values::FieldValues;
use file_spec::{RecordFault, RecordType};
use iso_frame::Frame;
use s57_types::{Feature, Kind, Rec, RecName, Vector};
use std::alloc::Global;

/// The update instruction RUIN of a record that is inserted.
const INSERTED: u8 = 1;

fn vector_from(values: FieldValues) -> Result<Rec, RecordFault>
    ensures { result ≡ vector_from values }
{
    let Some(vrid) = values.vrid else {
        return Err(RecordFault::MissingField);
    };
    if vrid.ruin != INSERTED {
        return Err(RecordFault::NotBase);
    }
    Ok(Rec::V(Vector {
        name: vrid.name,
        rver: vrid.rver,
        attrs: values.attv,
        ends: values.ends,
        plane: values.plane,
        deep: values.deep,
    }))
}

fn feature_from(values: FieldValues) -> Result<Rec, RecordFault>
    ensures { result ≡ feature_from values }
{
    let (Some(frid), Some(foid)) = (values.frid, values.foid) else {
        return Err(RecordFault::MissingField);
    };
    if frid.ruin != INSERTED {
        return Err(RecordFault::NotBase);
    }
    let name = RecName {
        kind: Kind::Fe,
        id: frid.rcid,
    };
    Ok(Rec::F(Feature {
        name,
        prim: frid.prim,
        grup: frid.grup,
        objl: frid.objl,
        rver: frid.rver,
        foid,
        attf: values.attf,
        natf: values.natf,
        partners: values.partners,
        places: values.places,
    }))
}

/// What is kept of a vector record, or its first fault.
fn read_vector(alloc: Global, frame: &Frame<'_>) -> Result<Rec, RecordRefusal>
    ensures { (nall : ℕ) → GivesKept nall result (vector_record frame.now.fields) }
{
    let values = read_fields(alloc, 0, RecordType::Vector, frame)?;
    Ok(vector_from(values)?)
}

/// What is kept of a feature record, or its first fault; national attributes are at the level NALL.
fn read_feature(alloc: Global, nall: u8, frame: &Frame<'_>) -> Result<Rec, RecordRefusal>
    ensures { GivesKept nall result (feature_record nall frame.now.fields) }
{
    let values = read_fields(alloc, nall, RecordType::Feature, frame)?;
    Ok(feature_from(values)?)
}

/// A vector or feature record by itself, or its first fault. No head record may stand in its place. Of a record that is too
/// long, which is told once its name is looked for, only a part is kept.
pub fn read_record(alloc: Global, nall: u8, frame: &Frame<'_>) -> Result<Rec, RecordRefusal>
    ensures { GivesKept nall result (record_said nall frame.now.fields) }
{
    match record_type(frame)? {
        RecordType::GeneralInformation | RecordType::GeographicReference => {
            Err(RecordRefusal::Fault(RecordFault::HeadOrder))
        }
        RecordType::Vector => read_vector(alloc, frame),
        RecordType::Feature => read_feature(alloc, nall, frame),
    }
}
