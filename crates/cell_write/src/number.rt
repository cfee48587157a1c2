//! The record identifier field 0001.

ghost use Rattle.std.specs.Prelude.{◌≡◌, IfOk};
ghost use Rattle.s57_types.specs.RecordFields.{number_field};
ghost use Rattle.frame_write.specs.OutFields.{field_of};

use crate::spare::empty_bytes;
use frame_write::OutField;
use s57_fields::write_0001;
use std::alloc::{AllocError, Global};

/// The field 0001 of a record number.
pub fn number_field(
    alloc: Global,
    number: u16,
    spare: &mut Vec<Vec<u8>>,
) -> Result<OutField, AllocError>
    ensures { IfOk result (λ field. field_of field ≡ number_field number) }
{
    let mut bytes = empty_bytes(alloc, spare);
    write_0001(alloc, &number, &mut bytes)?;
    Ok(OutField {
        tag: *b"0001",
        bytes,
    })
}
