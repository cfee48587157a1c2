//! The fields of a feature record (S-57 Part 3, 7.6).

ghost use Rattle.std.specs.Prelude.{◌≡◌, ◌++◌, IfOk, OnOk, codes};
ghost use Rattle.s57_types.specs.FieldRows.{attribute_row, foid_row, frid_row, partner_row, place_row};
ghost use Rattle.s57_types.specs.RecordFields.{feature_fields, rows_field};
ghost use Rattle.s57_types.specs.RecordFields.{field_of as row_field};
ghost use Rattle.file_spec.specs.ReadBack.{frid_of};
ghost use Rattle.frame_write.specs.OutFields.{field_of, fields_of};

use crate::number::number_field;
use crate::spare::empty_bytes;
use crate::vector::INSERT;
use frame_write::OutField;
use s57_fields::{Frid, write_attf, write_ffpt, write_foid, write_frid, write_fspt, write_natf};
use s57_types::{Attrs, Feature, Lnam, Partners, Places};
use std::alloc::{AllocError, Global};

/// How many fields a feature record has at most.
const MOST_FIELDS: usize = 7;

/// The field FRID.
fn identifier_field(
    alloc: Global,
    feature: &Feature,
    spare: &mut Vec<Vec<u8>>,
) -> Result<OutField, AllocError>
    ensures { IfOk result (λ field. field_of field ≡ row_field (codes "FRID") (frid_row (frid_of feature.now))) }
{
    let frid = Frid {
        rcid: feature.name.id,
        prim: feature.prim,
        grup: feature.grup,
        objl: feature.objl,
        rver: feature.rver,
        ruin: INSERT,
    };
    let mut bytes = empty_bytes(alloc, spare);
    write_frid(alloc, &frid, &mut bytes)?;
    Ok(OutField {
        tag: *b"FRID",
        bytes,
    })
}

/// The field FOID.
fn object_field(
    alloc: Global,
    foid: &Lnam,
    spare: &mut Vec<Vec<u8>>,
) -> Result<OutField, AllocError>
    ensures { IfOk result (λ field. field_of field ≡ row_field (codes "FOID") (foid_row foid.now)) }
{
    let mut bytes = empty_bytes(alloc, spare);
    write_foid(alloc, foid, &mut bytes)?;
    Ok(OutField {
        tag: *b"FOID",
        bytes,
    })
}

/// Appends the field ATTF, if there are attributes.
fn push_attf(
    alloc: Global,
    attrs: &Attrs,
    spare: &mut Vec<Vec<u8>>,
    fields: &mut Vec<OutField>,
) -> Result<(), AllocError>
    ensures { OnOk result (fields_of fields.new.items ≡ fields_of fields.old.items ++ rows_field 0 (codes "ATTF") (attribute_row 0) attrs.now) }
{
    if attrs.is_empty() {
        return Ok(());
    }
    let mut bytes = empty_bytes(alloc, spare);
    write_attf(alloc, attrs, &mut bytes)?;
    fields.push(OutField {
        tag: *b"ATTF",
        bytes,
    })?;
    Ok(())
}

/// Appends the field NATF at the lexical level NALL, if there are national attributes.
fn push_natf(
    alloc: Global,
    nall: u8,
    attrs: &Attrs,
    spare: &mut Vec<Vec<u8>>,
    fields: &mut Vec<OutField>,
) -> Result<(), AllocError>
    ensures { OnOk result (fields_of fields.new.items ≡ fields_of fields.old.items ++ rows_field nall (codes "NATF") (attribute_row nall) attrs.now) }
{
    if attrs.is_empty() {
        return Ok(());
    }
    let mut bytes = empty_bytes(alloc, spare);
    write_natf(alloc, nall, attrs, &mut bytes)?;
    fields.push(OutField {
        tag: *b"NATF",
        bytes,
    })?;
    Ok(())
}

/// Appends the field FFPT, if there are pointers to features.
fn push_ffpt(
    alloc: Global,
    partners: &Partners,
    spare: &mut Vec<Vec<u8>>,
    fields: &mut Vec<OutField>,
) -> Result<(), AllocError>
    ensures { OnOk result (fields_of fields.new.items ≡ fields_of fields.old.items ++ rows_field 0 (codes "FFPT") partner_row partners.now) }
{
    if partners.is_empty() {
        return Ok(());
    }
    let mut bytes = empty_bytes(alloc, spare);
    write_ffpt(alloc, partners, &mut bytes)?;
    fields.push(OutField {
        tag: *b"FFPT",
        bytes,
    })?;
    Ok(())
}

/// Appends the field FSPT, if there are pointers to vector records.
fn push_fspt(
    alloc: Global,
    places: &Places,
    spare: &mut Vec<Vec<u8>>,
    fields: &mut Vec<OutField>,
) -> Result<(), AllocError>
    ensures { OnOk result (fields_of fields.new.items ≡ fields_of fields.old.items ++ rows_field 0 (codes "FSPT") place_row places.now) }
{
    if places.is_empty() {
        return Ok(());
    }
    let mut bytes = empty_bytes(alloc, spare);
    write_fspt(alloc, places, &mut bytes)?;
    fields.push(OutField {
        tag: *b"FSPT",
        bytes,
    })?;
    Ok(())
}

/// The fields of a feature record. A field of rows that has none is left out.
pub fn feature_fields(
    alloc: Global,
    nall: u8,
    number: u16,
    feature: &Feature,
    spare: &mut Vec<Vec<u8>>,
) -> Result<Vec<OutField>, AllocError>
    ensures { IfOk result (λ fields. fields_of fields.items ≡ feature_fields nall number feature.now) }
{
    let mut fields = Vec::with_capacity(alloc, MOST_FIELDS)?;
    fields.push(number_field(alloc, number, spare)?)?;
    fields.push(identifier_field(alloc, feature, spare)?)?;
    fields.push(object_field(alloc, &feature.foid, spare)?)?;
    push_attf(alloc, &feature.attf, spare, &mut fields)?;
    push_natf(alloc, nall, &feature.natf, spare, &mut fields)?;
    push_ffpt(alloc, &feature.partners, spare, &mut fields)?;
    push_fspt(alloc, &feature.places, spare, &mut fields)?;
    Ok(fields)
}
