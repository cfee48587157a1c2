//! The field 0001, which each data record begins with (S-57 Part 3, 7.2.1).

ghost use Rattle.std.specs.Prelude.{◌≡◌, ◌++◌, MatchOption, OnOk, OnErr, Ok, Err};
ghost use Rattle.s57_types.specs.FieldRows.{number_row};
ghost use Rattle.field_spec.specs.declared.fault.FieldFault.TheVariants.{BadField};
ghost use Rattle.field_spec.specs.Contents.{number_content};
ghost use Rattle.field_spec.specs.FieldBytes.{field_bytes};
ghost use Rattle.s57_fields.specs.Gives.{Gives};

use crate::cut::{FIELD_TERMINATOR, field_body, take_u16};
use crate::refusal::FieldRefusal;
use crate::spell::short_bytes;
use std::alloc::{AllocError, Global};

/// The record number, or None where the field is bad.
#[tactic(auto, unfolding(field_spec::specs::Contents::number_content))]
fn number_of(bytes: &[u8]) -> Option<u16>
    ensures { MatchOption result (number_content bytes.now ≡ Err BadField) (λ number. number_content bytes.now ≡ Ok number) }
{
    let (number, rest) = take_u16(field_body(bytes)?)?;
    if !rest.is_empty() {
        return None;
    }
    Some(number)
}

/// The record number, the field 0001. It takes no memory.
///
/// An `Err` says that the bytes aren't the field.
pub fn read_0001(_alloc: Global, bytes: &[u8]) -> Result<u16, FieldRefusal>
    ensures { Gives result (number_content bytes.now) }
{
    number_of(bytes).ok_or(FieldRefusal::BadField)
}

/// Appends the record number, the field 0001.
///
/// An `Err` means out of memory, and leaves the bytes as they were.
pub fn write_0001(_alloc: Global, value: &u16, out: &mut Vec<u8>) -> Result<(), AllocError>
    ensures ok { OnOk result (out.new.items ≡ out.old.items ++ field_bytes (number_row value.now)) }
    ensures err { OnErr result (out.new.items ≡ out.old.items) }
{
    let [low, high] = short_bytes(*value);
    out.extend_from_slice(&[low, high, FIELD_TERMINATOR])
}
