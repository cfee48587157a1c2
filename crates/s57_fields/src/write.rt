//! Fields as bytes.

ghost use Rattle.std.specs.Prelude.{◌≡◌, ◌++◌, OnOk, OnErr};
ghost use Rattle.s57_types.specs.RecordFields.{terminator_of};
ghost use Rattle.field_spec.specs.FieldBytes.{field_bytes, rows_bytes};
ghost use Rattle.s57_fields.specs.Appending.{KeepsFront};
ghost use Rattle.s57_fields.specs.Spelling.{row_of};

use crate::cut::FIELD_TERMINATOR;
use crate::rows::FieldRow;
use crate::spell::{Value, put_row};
use crate::text::WIDE_LEVEL;
use s57_types::Items;
use std::alloc::{AllocError, Global};

// How many bytes a terminator takes at most.
const TERMINATOR_LIMIT: usize = 2;

// How many bytes a subfield mostly takes at most.
const VALUE_BYTES: usize = 4;

/// Appends a field of one row. A refusal leaves the bytes as they were.
pub fn write_row(alloc: Global, row: &[Value<'_>], out: &mut Vec<u8>) -> Result<(), AllocError>
    ensures ok { OnOk result (out.new.items ≡ out.old.items ++ field_bytes (row_of row.now)) }
    ensures err { OnErr result (out.new.items ≡ out.old.items) }
{
    let size = row.len().saturating_mul(VALUE_BYTES);
    let mut field = Vec::with_capacity(alloc, size.saturating_add(TERMINATOR_LIMIT))?;
    put_row(row, &mut field)?;
    field.push(FIELD_TERMINATOR)?;
    append_field(field, out)
}

/// Appends a field's bytes. Where they are the first, they aren't copied. A refusal leaves the bytes as they were.
fn append_field(field: Vec<u8>, out: &mut Vec<u8>) -> Result<(), AllocError>
    ensures ok { OnOk result (out.new.items ≡ out.old.items ++ field.items) }
    ensures err { OnErr result (out.new.items ≡ out.old.items) }
{
    if out.is_empty() {
        *out = field;
        return Ok(());
    }
    out.extend_from_slice(field.as_slice())
}

/// Appends the terminator of a field at a lexical level.
fn put_terminator(level: u8, out: &mut Vec<u8>) -> Result<(), AllocError>
    ensures ok { OnOk result (out.new.items ≡ out.old.items ++ terminator_of level) }
    ensures err { OnErr result (out.new.items ≡ out.old.items) }
{
    if level == WIDE_LEVEL {
        return out.extend_from_slice(&[FIELD_TERMINATOR, 0]);
    }
    out.extend_from_slice(&[FIELD_TERMINATOR])
}

/// Appends the rows of a field one after the other, then its terminator.
fn put_rows<R: FieldRow>(level: u8, rows: &[R], out: &mut Vec<u8>) -> Result<(), AllocError>
    ensures ok { OnOk result (out.new.items ≡ out.old.items ++ rows_bytes level (R.layout level).subfields rows.now) }
    ensures err { OnErr result (KeepsFront out.old.items out.new.items) }
{
    for row in rows {
        row.put(level, out)?;
    }
    put_terminator(level, out)
}

/// Appends a field whose row repeats. With no row it is the terminator alone. A refusal leaves the bytes as they were.
pub fn write_rows<R: FieldRow>(
    level: u8,
    rows: &Items<R>,
    out: &mut Vec<u8>,
) -> Result<(), AllocError>
    ensures ok { OnOk result (out.new.items ≡ out.old.items ++ rows_bytes level (R.layout level).subfields rows.now) }
    ensures err { OnErr result (out.new.items ≡ out.old.items) }
{
    let before = out.len();
    let size = rows.len().saturating_mul(R::least_size());
    out.reserve(size.saturating_add(TERMINATOR_LIMIT))?;
    if put_rows(level, rows.as_slice(), out).is_err() {
        out.truncate(before);
        return Err(AllocError);
    }
    Ok(())
}
