//! The fields of a feature record (S-57 Part 3, 7.6).

ghost use Rattle.std.specs.Prelude.{◌≡◌, ◌<◌, ◌++◌, MatchOption, IfSome, OnOk, OnErr, Ok, Err, [], ◌∷◌, length};
ghost use Rattle.std.specs.Option.{option_map};
ghost use Rattle.s57_types.specs.Subfield.{unsigned_of, text_of};
ghost use Rattle.s57_types.specs.FieldRows.{attribute_forms, partner_forms, foid_forms, foid_row, frid_row, attribute_row, partner_row, place_row, level_text};
ghost use Rattle.field_spec.specs.declared.fault.FieldFault.TheVariants.{BadField};
ghost use Rattle.field_spec.specs.Cutting.{cut_row};
ghost use Rattle.field_spec.specs.Contents.{frid_content, foid_content, attribute_content, partner_content, place_content};
ghost use Rattle.field_spec.specs.FieldBytes.{field_bytes, rows_bytes};
ghost use Rattle.s57_fields.specs.Gives.{Gives};

use crate::cut::{FIELD_TERMINATOR, field_body, take_text, take_u8, take_u16, take_u32};
use crate::refusal::FieldRefusal;
use crate::rows::{FieldRow, NumberRow, Taken, read_many_rows, read_rows};
use crate::spell::{Value, byte_bytes, long_bytes, put_row, short_bytes};
use crate::text::{WIDE_LEVEL, is_plain_level_text, is_plain_text, owned_text, take_level_text};
use crate::vector::{pointer_bytes, vector_kind};
use crate::write::write_rows;
use s57_types::{Attr, Attrs, Frid, Kind, Lnam, Partner, Partners, Places, RecName, Spot};
use std::alloc::{AllocError, Global};

/// The record name RCNM of a feature record (S-57 Part 3, 2.2).
const FEATURE_RCNM: u8 = 100;

/// The identifier of a feature record, or None where the field is bad.
#[tactic(auto, unfolding(field_spec::specs::Contents::frid_content))]
fn frid_of(bytes: &[u8]) -> Option<Frid>
    ensures { MatchOption result (frid_content bytes.now ≡ Err BadField) (λ frid. frid_content bytes.now ≡ Ok frid) }
{
    let (rcnm, rest) = take_u8(field_body(bytes)?)?;
    let (rcid, rest) = take_u32(rest)?;
    let (prim, rest) = take_u8(rest)?;
    let (grup, rest) = take_u8(rest)?;
    let (objl, rest) = take_u16(rest)?;
    let (rver, rest) = take_u16(rest)?;
    let (ruin, rest) = take_u8(rest)?;
    if !rest.is_empty() || rcnm != FEATURE_RCNM {
        return None;
    }
    Some(Frid {
        rcid,
        prim,
        grup,
        objl,
        rver,
        ruin,
    })
}

/// The identifier of a feature record, the field FRID. It takes no memory.
///
/// An `Err` says that the bytes aren't the field.
pub fn read_frid(_alloc: Global, bytes: &[u8]) -> Result<Frid, FieldRefusal>
    ensures { Gives result (frid_content bytes.now) }
{
    frid_of(bytes).ok_or(FieldRefusal::BadField)
}

/// Appends the identifier of a feature record, the field FRID.
///
/// An `Err` means out of memory, and leaves the bytes as they were.
pub fn write_frid(_alloc: Global, value: &Frid, out: &mut Vec<u8>) -> Result<(), AllocError>
    ensures ok { OnOk result (out.new.items ≡ out.old.items ++ field_bytes (frid_row value.now)) }
    ensures err { OnErr result (out.new.items ≡ out.old.items) }
{
    let [i0, i1, i2, i3] = long_bytes(value.rcid);
    let [o0, o1] = short_bytes(value.objl);
    let [r0, r1] = short_bytes(value.rver);
    let [prim] = byte_bytes(value.prim);
    let [grup] = byte_bytes(value.grup);
    let [ruin] = byte_bytes(value.ruin);
    out.extend_from_slice(&[
        FEATURE_RCNM,
        i0,
        i1,
        i2,
        i3,
        prim,
        grup,
        o0,
        o1,
        r0,
        r1,
        ruin,
        FIELD_TERMINATOR,
    ])
}

/// A long name LNAM: AGEN, FIDN and FIDS, and the bytes after it.
fn take_lnam(bytes: &[u8]) -> Option<(Lnam, &[u8])>
    ensures cut { option_map (λ x. (foid_row x.0, x.1.now)) result ≡ cut_row foid_forms bytes.now }
    ensures shorter { IfSome result (λ x. length x.1.now < length bytes.now) }
{
    let (agen, rest) = take_u16(bytes)?;
    let (fidn, rest) = take_u32(rest)?;
    let (fids, rest) = take_u16(rest)?;
    Some((Lnam { agen, fidn, fids }, rest))
}

/// The feature object identifier, or None where the field is bad.
#[tactic(auto, unfolding(field_spec::specs::Contents::foid_content))]
fn foid_of(bytes: &[u8]) -> Option<Lnam>
    ensures { MatchOption result (foid_content bytes.now ≡ Err BadField) (λ lnam. foid_content bytes.now ≡ Ok lnam) }
{
    let (lnam, rest) = take_lnam(field_body(bytes)?)?;
    if !rest.is_empty() {
        return None;
    }
    Some(lnam)
}

/// The identifier of a feature object, the field FOID. It takes no memory.
///
/// An `Err` says that the bytes aren't the field.
pub fn read_foid(_alloc: Global, bytes: &[u8]) -> Result<Lnam, FieldRefusal>
    ensures { Gives result (foid_content bytes.now) }
{
    foid_of(bytes).ok_or(FieldRefusal::BadField)
}

/// Appends the identifier of a feature object, the field FOID.
///
/// An `Err` means out of memory, and leaves the bytes as they were.
pub fn write_foid(_alloc: Global, value: &Lnam, out: &mut Vec<u8>) -> Result<(), AllocError>
    ensures ok { OnOk result (out.new.items ≡ out.old.items ++ field_bytes (foid_row value.now)) }
    ensures err { OnErr result (out.new.items ≡ out.old.items) }
{
    let [a0, a1] = short_bytes(value.agen);
    let [n0, n1, n2, n3] = long_bytes(value.fidn);
    let [s0, s1] = short_bytes(value.fids);
    out.extend_from_slice(&[a0, a1, n0, n1, n2, n3, s0, s1, FIELD_TERMINATOR])
}

/// An attribute as it was cut: its code ATTL and its value ATVL at a lexical level.
fn cut_attribute(level: u8, bytes: &[u8]) -> Option<(u16, &[u8], &[u8])>
    ensures cut { option_map (λ x. (unsigned_of 2 x.0 ∷ level_text level x.1.now ∷ [], x.2.now)) result ≡ cut_row (attribute_forms level) bytes.now }
    ensures shorter { IfSome result (λ x. length x.2.now < length bytes.now) }
{
    let (code, rest) = take_u16(bytes)?;
    let (value, rest) = take_level_text(level, rest)?;
    Some((code, value, rest))
}

impl FieldRow for Attr {
    ghost use Rattle.s57_fields.specs.RowLayouts.{attribute_layout};

    ghost layout = { attribute_layout };

    fn take_front(alloc: Global, level: u8, bytes: &[u8]) -> Taken<'_, Attr> {
        let Some((code, text, rest)) = cut_attribute(level, bytes) else {
            return Ok(None);
        };
        let is_plain = is_plain_level_text(level, text);
        let value = owned_text(alloc, text)?;
        Ok(Some((Attr { code, value }, is_plain, rest)))
    }

    fn least_size() -> usize {
        2
    }

    fn put(&self, level: u8, out: &mut Vec<u8>) -> Result<(), AllocError> {
        let text = self.value.as_slice();
        let value = if level == WIDE_LEVEL {
            Value::WideText(text)
        } else {
            Value::Text(text)
        };
        put_row(&[Value::Short(self.code), value], out)
    }
}

/// The attributes of a feature record, the field ATTF.
///
/// An `Err` says that the bytes aren't the field, or that a text has a control byte, or means out of memory.
#[tactic(auto, unfolding(field_spec::specs::Contents::attribute_content))]
pub fn read_attf(alloc: Global, bytes: &[u8]) -> Result<Attrs, FieldRefusal>
    ensures { Gives result (attribute_content 0 bytes.now) }
{
    read_rows(alloc, 0, bytes)
}

/// Appends the attributes of a feature record, the field ATTF.
///
/// An `Err` means out of memory, and leaves the bytes as they were.
pub fn write_attf(_alloc: Global, value: &Attrs, out: &mut Vec<u8>) -> Result<(), AllocError>
    ensures ok { OnOk result (out.new.items ≡ out.old.items ++ rows_bytes 0 (attribute_row 0) value.now) }
    ensures err { OnErr result (out.new.items ≡ out.old.items) }
{
    write_rows(0, value, out)
}

/// The national attributes of a feature record, the field NATF, at the lexical level NALL.
///
/// An `Err` says that the bytes aren't the field, or that a text has a control byte, or means out of memory.
#[tactic(auto, unfolding(field_spec::specs::Contents::attribute_content))]
pub fn read_natf(alloc: Global, nall: u8, bytes: &[u8]) -> Result<Attrs, FieldRefusal>
    ensures { Gives result (attribute_content nall bytes.now) }
{
    read_rows(alloc, nall, bytes)
}

/// Appends the national attributes of a feature record, the field NATF, at the lexical level NALL.
///
/// An `Err` means out of memory, and leaves the bytes as they were.
pub fn write_natf(
    _alloc: Global,
    nall: u8,
    value: &Attrs,
    out: &mut Vec<u8>,
) -> Result<(), AllocError>
    ensures ok { OnOk result (out.new.items ≡ out.old.items ++ rows_bytes nall (attribute_row nall) value.now) }
    ensures err { OnErr result (out.new.items ≡ out.old.items) }
{
    write_rows(nall, value, out)
}

/// A pointer to a feature object as it was cut: LNAM, RIND and COMT.
fn cut_partner(bytes: &[u8]) -> Option<(Lnam, u8, &[u8], &[u8])>
    ensures cut { option_map (λ x. (
      unsigned_of 2 x.0.agen ∷ unsigned_of 4 x.0.fidn ∷ unsigned_of 2 x.0.fids ∷ unsigned_of
          1 x.1 ∷ text_of x.2.now ∷ [],
      x.3.now,
    )) result ≡ cut_row partner_forms bytes.now }
    ensures shorter { IfSome result (λ x. length x.3.now < length bytes.now) }
{
    let (agen, rest) = take_u16(bytes)?;
    let (fidn, rest) = take_u32(rest)?;
    let (fids, rest) = take_u16(rest)?;
    let (rind, rest) = take_u8(rest)?;
    let (comt, rest) = take_text(rest)?;
    Some((Lnam { agen, fidn, fids }, rind, comt, rest))
}

impl FieldRow for Partner {
    ghost use Rattle.s57_fields.specs.RowLayouts.{partner_layout};

    ghost layout = { λ level. partner_layout };

    fn take_front(alloc: Global, _level: u8, bytes: &[u8]) -> Taken<'_, Partner> {
        let Some((to, rind, text, rest)) = cut_partner(bytes) else {
            return Ok(None);
        };
        let is_plain = is_plain_text(text);
        let comt = owned_text(alloc, text)?;
        Ok(Some((Partner { to, rind, comt }, is_plain, rest)))
    }

    fn least_size() -> usize {
        9
    }

    fn put(&self, _level: u8, out: &mut Vec<u8>) -> Result<(), AllocError> {
        let row = [
            Value::Short(self.to.agen),
            Value::Long(self.to.fidn),
            Value::Short(self.to.fids),
            Value::Byte(self.rind),
            Value::Text(self.comt.as_slice()),
        ];
        put_row(&row, out)
    }
}

/// The pointers of a feature record to feature objects, the field FFPT.
///
/// An `Err` says that the bytes aren't the field, or that a text has a control byte, or means out of memory.
#[tactic(auto, unfolding(field_spec::specs::Contents::partner_content))]
pub fn read_ffpt(alloc: Global, bytes: &[u8]) -> Result<Partners, FieldRefusal>
    ensures { Gives result (partner_content bytes.now) }
{
    read_rows(alloc, 0, bytes)
}

/// Appends the pointers of a feature record to feature objects, the field FFPT.
///
/// An `Err` means out of memory, and leaves the bytes as they were.
pub fn write_ffpt(_alloc: Global, value: &Partners, out: &mut Vec<u8>) -> Result<(), AllocError>
    ensures ok { OnOk result (out.new.items ≡ out.old.items ++ rows_bytes 0 partner_row value.now) }
    ensures err { OnErr result (out.new.items ≡ out.old.items) }
{
    write_rows(0, value, out)
}

/// A pointer to a vector record: the record's name, and ORNT, USAG and MASK.
impl NumberRow for Spot {
    ghost use Rattle.s57_fields.specs.RowLayouts.{place_layout};

    ghost numbers = { place_layout };

    fn cut(bytes: &[u8]) -> Option<(Spot, &[u8])> {
        let (rcnm, rest) = take_u8(bytes)?;
        let (id, rest) = take_u32(rest)?;
        let (ornt, rest) = take_u8(rest)?;
        let (usag, rest) = take_u8(rest)?;
        let (mask, rest) = take_u8(rest)?;
        let kind = vector_kind(rcnm)?;
        let to = RecName { kind, id };
        Some((
            Spot {
                to,
                ornt,
                usag,
                mask,
            },
            rest,
        ))
    }

    fn least_bytes() -> usize {
        8
    }

    fn append(&self, out: &mut Vec<u8>) -> Result<(), AllocError> {
        let [k, i0, i1, i2, i3, ornt, usag] = pointer_bytes(self.to, self.ornt, self.usag);
        let [mask] = byte_bytes(self.mask);
        out.extend_from_slice(&[k, i0, i1, i2, i3, ornt, usag, mask])
    }
}

// A pointer over which pointers are written.
const BLANK_SPOT: Spot = Spot {
    to: RecName {
        kind: Kind::Vi,
        id: 0,
    },
    ornt: 0,
    usag: 0,
    mask: 0,
};

/// The pointers of a feature record to vector records, the field FSPT.
///
/// An `Err` says that the bytes aren't the field, or means out of memory.
#[tactic(auto, unfolding(field_spec::specs::Contents::place_content))]
pub fn read_fspt(alloc: Global, bytes: &[u8]) -> Result<Places, FieldRefusal>
    ensures { Gives result (place_content bytes.now) }
{
    read_many_rows::<Spot, 8>(alloc, 0, bytes, BLANK_SPOT)
}

/// Appends the pointers of a feature record to vector records, the field FSPT.
///
/// An `Err` means out of memory, and leaves the bytes as they were.
pub fn write_fspt(_alloc: Global, value: &Places, out: &mut Vec<u8>) -> Result<(), AllocError>
    ensures ok { OnOk result (out.new.items ≡ out.old.items ++ rows_bytes 0 place_row value.now) }
    ensures err { OnErr result (out.new.items ≡ out.old.items) }
{
    write_rows(0, value, out)
}
