//! The fields of a vector record (S-57 Part 3, 7.7).

ghost use Rattle.std.specs.Prelude.{◌≡◌, ◌++◌, IfOk, OnOk, codes};
ghost use Rattle.s57_types.specs.FieldRows.{attribute_row, deep_row, end_row, plane_row, vrid_row};
ghost use Rattle.s57_types.specs.RecordFields.{rows_field, vector_fields};
ghost use Rattle.s57_types.specs.RecordFields.{field_of as row_field};
ghost use Rattle.file_spec.specs.ReadBack.{vrid_of};
ghost use Rattle.frame_write.specs.OutFields.{field_of, fields_of};

use crate::number::number_field;
use crate::spare::empty_bytes;
use frame_write::OutField;
use s57_fields::{Vrid, write_attv, write_sg2d, write_sg3d, write_vrid, write_vrpt};
use s57_types::{Attrs, Deep, Ends, Plane, Vector};
use std::alloc::{AllocError, Global};

/// The update instruction RUIN of a new record: insert.
pub const INSERT: u8 = 1;

/// How many fields a vector record has at most.
const MOST_FIELDS: usize = 6;

/// The field VRID.
fn identifier_field(
    alloc: Global,
    vector: &Vector,
    spare: &mut Vec<Vec<u8>>,
) -> Result<OutField, AllocError>
    ensures { IfOk result (λ field. field_of field ≡ row_field (codes "VRID") (vrid_row (vrid_of vector.now))) }
{
    let vrid = Vrid {
        name: vector.name,
        rver: vector.rver,
        ruin: INSERT,
    };
    let mut bytes = empty_bytes(alloc, spare);
    write_vrid(alloc, &vrid, &mut bytes)?;
    Ok(OutField {
        tag: *b"VRID",
        bytes,
    })
}

/// Appends the field ATTV, if there are attributes.
fn push_attv(
    alloc: Global,
    attrs: &Attrs,
    spare: &mut Vec<Vec<u8>>,
    fields: &mut Vec<OutField>,
) -> Result<(), AllocError>
    ensures { OnOk result (fields_of fields.new.items ≡ fields_of fields.old.items ++ rows_field 0 (codes "ATTV") (attribute_row 0) attrs.now) }
{
    if attrs.is_empty() {
        return Ok(());
    }
    let mut bytes = empty_bytes(alloc, spare);
    write_attv(alloc, attrs, &mut bytes)?;
    fields.push(OutField {
        tag: *b"ATTV",
        bytes,
    })?;
    Ok(())
}

/// Appends the field VRPT, if there are pointers.
fn push_vrpt(
    alloc: Global,
    ends: &Ends,
    spare: &mut Vec<Vec<u8>>,
    fields: &mut Vec<OutField>,
) -> Result<(), AllocError>
    ensures { OnOk result (fields_of fields.new.items ≡ fields_of fields.old.items ++ rows_field 0 (codes "VRPT") end_row ends.now) }
{
    if ends.is_empty() {
        return Ok(());
    }
    let mut bytes = empty_bytes(alloc, spare);
    write_vrpt(alloc, ends, &mut bytes)?;
    fields.push(OutField {
        tag: *b"VRPT",
        bytes,
    })?;
    Ok(())
}

/// Appends the field SG2D, if there are coordinates.
fn push_sg2d(
    alloc: Global,
    plane: &Plane,
    spare: &mut Vec<Vec<u8>>,
    fields: &mut Vec<OutField>,
) -> Result<(), AllocError>
    ensures { OnOk result (fields_of fields.new.items ≡ fields_of fields.old.items ++ rows_field 0 (codes "SG2D") plane_row plane.now) }
{
    if plane.is_empty() {
        return Ok(());
    }
    let mut bytes = empty_bytes(alloc, spare);
    write_sg2d(alloc, plane, &mut bytes)?;
    fields.push(OutField {
        tag: *b"SG2D",
        bytes,
    })?;
    Ok(())
}

/// Appends the field SG3D, if there are soundings.
fn push_sg3d(
    alloc: Global,
    deep: &Deep,
    spare: &mut Vec<Vec<u8>>,
    fields: &mut Vec<OutField>,
) -> Result<(), AllocError>
    ensures { OnOk result (fields_of fields.new.items ≡ fields_of fields.old.items ++ rows_field 0 (codes "SG3D") deep_row deep.now) }
{
    if deep.is_empty() {
        return Ok(());
    }
    let mut bytes = empty_bytes(alloc, spare);
    write_sg3d(alloc, deep, &mut bytes)?;
    fields.push(OutField {
        tag: *b"SG3D",
        bytes,
    })?;
    Ok(())
}

/// The fields of a vector record. A field of rows that has none is left out.
pub fn vector_fields(
    alloc: Global,
    number: u16,
    vector: &Vector,
    spare: &mut Vec<Vec<u8>>,
) -> Result<Vec<OutField>, AllocError>
    ensures { IfOk result (λ fields. fields_of fields.items ≡ vector_fields number vector.now) }
{
    let mut fields = Vec::with_capacity(alloc, MOST_FIELDS)?;
    fields.push(number_field(alloc, number, spare)?)?;
    fields.push(identifier_field(alloc, vector, spare)?)?;
    push_attv(alloc, &vector.attrs, spare, &mut fields)?;
    push_vrpt(alloc, &vector.ends, spare, &mut fields)?;
    push_sg2d(alloc, &vector.plane, spare, &mut fields)?;
    push_sg3d(alloc, &vector.deep, spare, &mut fields)?;
    Ok(fields)
}
