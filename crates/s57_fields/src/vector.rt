//! The fields of a vector record (S-57 Part 3, 7.7.1).

ghost use Rattle.std.specs.Prelude.{◌≡◌, ◌++◌, MatchOption, OnOk, OnErr, true, false, [], ◌∷◌};
ghost use Rattle.std.specs.Option.{option_map};
ghost use Rattle.s57_types.specs.Subfield.{row_bytes, unsigned_of};
ghost use Rattle.s57_types.specs.FieldRows.{vrid_forms, attribute_row, end_row, plane_row, deep_row, name_row, vrid_row};
ghost use Rattle.s57_types.specs.FieldRows.{rcnm_of as rcnm_number};
ghost use Rattle.field_spec.specs.Cutting.{field_row};
ghost use Rattle.field_spec.specs.Contents.{attribute_content, end_content, plane_content, deep_content, vrid_content, is_vector_rcnm, kind_of_rcnm};
ghost use Rattle.field_spec.specs.FieldBytes.{field_bytes, rows_bytes};
ghost use Rattle.s57_fields.specs.Gives.{Gives};

use crate::cut::{FIELD_TERMINATOR, field_body, take_i32, take_u8, take_u16, take_u32};
use crate::feature::{read_attf, write_attf};
use crate::refusal::FieldRefusal;
use crate::rows::{NumberRow, read_many_rows};
use crate::spell::{byte_bytes, long_bytes, put_three_signed, put_two_signed, short_bytes};
use crate::write::write_rows;
use s57_types::{Attrs, Deep, End, Ends, Kind, Plane, RecName, Vrid};
use std::alloc::{AllocError, Global};

/// The kind of a vector record by its record name RCNM (S-57 Part 3, 2.2).
pub fn vector_kind(rcnm: u8) -> Option<Kind>
    ensures { MatchOption result (is_vector_rcnm rcnm ≡ false) (λ kind. (is_vector_rcnm rcnm ≡ true) × (kind ≡ kind_of_rcnm rcnm)) }
{
    match rcnm {
        110 => Some(Kind::Vi),
        120 => Some(Kind::Vc),
        130 => Some(Kind::Ve),
        _ => None,
    }
}

/// The record name RCNM of a kind (S-57 Part 3, 2.2).
pub fn rcnm_of(kind: Kind) -> u8
    ensures { result ≡ rcnm_number kind }
{
    match kind {
        Kind::Vi => 110,
        Kind::Vc => 120,
        Kind::Ve => 130,
        Kind::Fe => 100,
        Kind::Head => 10,
    }
}

/// The bytes of a record's name in a pointer: RCNM and RCID.
fn name_bytes(name: RecName) -> [u8; 5]
    ensures { result ≡ row_bytes (name_row name) }
{
    let [i0, i1, i2, i3] = long_bytes(name.id);
    [rcnm_of(name.kind), i0, i1, i2, i3]
}

/// The bytes with which a pointer to a vector record begins: the record's name, ORNT and USAG.
pub fn pointer_bytes(to: RecName, ornt: u8, usag: u8) -> [u8; 7]
    ensures { result ≡ row_bytes (name_row to ++ (unsigned_of 1 ornt ∷ unsigned_of 1 usag ∷ [])) }
{
    let [k, i0, i1, i2, i3] = name_bytes(to);
    let [o] = byte_bytes(ornt);
    let [u] = byte_bytes(usag);
    [k, i0, i1, i2, i3, o, u]
}

/// The subfields of the identifier of a vector record: RCNM, RCID, RVER and RUIN.
fn vrid_subfields(bytes: &[u8]) -> Option<(u8, u32, u16, u8)>
    ensures { option_map (λ x. unsigned_of 1 x.0 ∷ unsigned_of 4 x.1 ∷ unsigned_of 2 x.2 ∷ unsigned_of 1 x.3 ∷ []) result ≡ field_row vrid_forms bytes.now }
{
    let (rcnm, rest) = take_u8(field_body(bytes)?)?;
    let (rcid, rest) = take_u32(rest)?;
    let (rver, rest) = take_u16(rest)?;
    let (ruin, rest) = take_u8(rest)?;
    if !rest.is_empty() {
        return None;
    }
    Some((rcnm, rcid, rver, ruin))
}

/// The identifier of a vector record, the field VRID. It takes no memory.
///
/// An `Err` says that the bytes aren't the field.
#[tactic(auto, unfolding(field_spec::specs::Contents::vrid_content))]
pub fn read_vrid(_alloc: Global, bytes: &[u8]) -> Result<Vrid, FieldRefusal>
    ensures { Gives result (vrid_content bytes.now) }
{
    let Some((rcnm, id, rver, ruin)) = vrid_subfields(bytes) else {
        return Err(FieldRefusal::BadField);
    };
    let Some(kind) = vector_kind(rcnm) else {
        return Err(FieldRefusal::BadField);
    };
    let name = RecName { kind, id };
    Ok(Vrid { name, rver, ruin })
}

/// Appends the identifier of a vector record, the field VRID.
///
/// An `Err` means out of memory, and leaves the bytes as they were.
pub fn write_vrid(_alloc: Global, value: &Vrid, out: &mut Vec<u8>) -> Result<(), AllocError>
    ensures ok { OnOk result (out.new.items ≡ out.old.items ++ field_bytes (vrid_row value.now)) }
    ensures err { OnErr result (out.new.items ≡ out.old.items) }
{
    let [k, i0, i1, i2, i3] = name_bytes(value.name);
    let [r0, r1] = short_bytes(value.rver);
    out.extend_from_slice(&[k, i0, i1, i2, i3, r0, r1, value.ruin, FIELD_TERMINATOR])
}

/// The attributes of a vector record, the field ATTV. Its rows are those of ATTF.
///
/// An `Err` says that the bytes aren't the field, or that a text has a control byte, or means out of memory.
pub fn read_attv(alloc: Global, bytes: &[u8]) -> Result<Attrs, FieldRefusal>
    ensures { Gives result (attribute_content 0 bytes.now) }
{
    read_attf(alloc, bytes)
}

/// Appends the attributes of a vector record, the field ATTV.
///
/// An `Err` means out of memory, and leaves the bytes as they were.
pub fn write_attv(alloc: Global, value: &Attrs, out: &mut Vec<u8>) -> Result<(), AllocError>
    ensures ok { OnOk result (out.new.items ≡ out.old.items ++ rows_bytes 0 (attribute_row 0) value.now) }
    ensures err { OnErr result (out.new.items ≡ out.old.items) }
{
    write_attf(alloc, value, out)
}

/// A pointer: the record's name, and ORNT, USAG, TOPI and MASK.
impl NumberRow for End {
    ghost use Rattle.s57_fields.specs.RowLayouts.{end_layout};

    ghost numbers = { end_layout };

    fn cut(bytes: &[u8]) -> Option<(End, &[u8])> {
        let (rcnm, rest) = take_u8(bytes)?;
        let (id, rest) = take_u32(rest)?;
        let (ornt, rest) = take_u8(rest)?;
        let (usag, rest) = take_u8(rest)?;
        let (topi, rest) = take_u8(rest)?;
        let (mask, rest) = take_u8(rest)?;
        let kind = vector_kind(rcnm)?;
        let to = RecName { kind, id };
        Some((
            End {
                to,
                ornt,
                usag,
                topi,
                mask,
            },
            rest,
        ))
    }

    fn least_bytes() -> usize {
        9
    }

    fn append(&self, out: &mut Vec<u8>) -> Result<(), AllocError> {
        let [k, i0, i1, i2, i3, ornt, usag] = pointer_bytes(self.to, self.ornt, self.usag);
        let [topi] = byte_bytes(self.topi);
        let [mask] = byte_bytes(self.mask);
        out.extend_from_slice(&[k, i0, i1, i2, i3, ornt, usag, topi, mask])
    }
}

// A pointer over which pointers are written.
const BLANK_END: End = End {
    to: RecName {
        kind: Kind::Vi,
        id: 0,
    },
    ornt: 0,
    usag: 0,
    topi: 0,
    mask: 0,
};

/// The pointers of a vector record, the field VRPT.
///
/// An `Err` says that the bytes aren't the field, or means out of memory.
#[tactic(auto, unfolding(field_spec::specs::Contents::end_content))]
pub fn read_vrpt(alloc: Global, bytes: &[u8]) -> Result<Ends, FieldRefusal>
    ensures { Gives result (end_content bytes.now) }
{
    read_many_rows::<End, 9>(alloc, 0, bytes, BLANK_END)
}

/// Appends the pointers of a vector record, the field VRPT.
///
/// An `Err` means out of memory, and leaves the bytes as they were.
pub fn write_vrpt(_alloc: Global, value: &Ends, out: &mut Vec<u8>) -> Result<(), AllocError>
    ensures ok { OnOk result (out.new.items ≡ out.old.items ++ rows_bytes 0 end_row value.now) }
    ensures err { OnErr result (out.new.items ≡ out.old.items) }
{
    write_rows(0, value, out)
}

impl NumberRow for (i32, i32) {
    ghost use Rattle.s57_fields.specs.RowLayouts.{plane_layout};

    ghost numbers = { plane_layout };

    fn cut(bytes: &[u8]) -> Option<((i32, i32), &[u8])> {
        let (y, rest) = take_i32(bytes)?;
        let (x, rest) = take_i32(rest)?;
        Some(((y, x), rest))
    }

    fn least_bytes() -> usize {
        8
    }

    fn append(&self, out: &mut Vec<u8>) -> Result<(), AllocError> {
        put_two_signed(self.0, self.1, out)
    }
}

/// The 2-D coordinates of a vector record, the field SG2D: latitude first, in integer coordinate units.
///
/// An `Err` says that the bytes aren't the field, or means out of memory.
#[tactic(auto, unfolding(field_spec::specs::Contents::plane_content))]
pub fn read_sg2d(alloc: Global, bytes: &[u8]) -> Result<Plane, FieldRefusal>
    ensures { Gives result (plane_content bytes.now) }
{
    read_many_rows::<(i32, i32), 8>(alloc, 0, bytes, (0, 0))
}

/// Appends the 2-D coordinates of a vector record, the field SG2D.
///
/// An `Err` means out of memory, and leaves the bytes as they were.
pub fn write_sg2d(_alloc: Global, value: &Plane, out: &mut Vec<u8>) -> Result<(), AllocError>
    ensures ok { OnOk result (out.new.items ≡ out.old.items ++ rows_bytes 0 plane_row value.now) }
    ensures err { OnErr result (out.new.items ≡ out.old.items) }
{
    write_rows(0, value, out)
}

impl NumberRow for (i32, i32, i32) {
    ghost use Rattle.s57_fields.specs.RowLayouts.{deep_layout};

    ghost numbers = { deep_layout };

    fn cut(bytes: &[u8]) -> Option<((i32, i32, i32), &[u8])> {
        let (y, rest) = take_i32(bytes)?;
        let (x, rest) = take_i32(rest)?;
        let (depth, rest) = take_i32(rest)?;
        Some(((y, x, depth), rest))
    }

    fn least_bytes() -> usize {
        12
    }

    fn append(&self, out: &mut Vec<u8>) -> Result<(), AllocError> {
        put_three_signed(self.0, self.1, self.2, out)
    }
}

/// The soundings of a vector record, the field SG3D: latitude, longitude and depth, in integer units.
///
/// An `Err` says that the bytes aren't the field, or means out of memory.
#[tactic(auto, unfolding(field_spec::specs::Contents::deep_content))]
pub fn read_sg3d(alloc: Global, bytes: &[u8]) -> Result<Deep, FieldRefusal>
    ensures { Gives result (deep_content bytes.now) }
{
    read_many_rows::<(i32, i32, i32), 12>(alloc, 0, bytes, (0, 0, 0))
}

/// Appends the soundings of a vector record, the field SG3D.
///
/// An `Err` means out of memory, and leaves the bytes as they were.
pub fn write_sg3d(_alloc: Global, value: &Deep, out: &mut Vec<u8>) -> Result<(), AllocError>
    ensures ok { OnOk result (out.new.items ≡ out.old.items ++ rows_bytes 0 deep_row value.now) }
    ensures err { OnErr result (out.new.items ≡ out.old.items) }
{
    write_rows(0, value, out)
}
