//! Writing a record.

ghost use Rattle.std.specs.Prelude.{◌≡◌, ◌↔◌, Err, OnOk, OnErr, ◌+◌, ◌<◌, ◌≤◌, ◌%◌, ◌++◌, sum};
ghost use Rattle.frame_spec.specs.WrittenRecord.{digits, directory_entries, field_area, identifier_text, character_set_text, leader_text};
ghost use Rattle.frame_spec.specs.WrittenRecord.{record_length, written_record};
ghost use Rattle.frame_write.specs.OutFields.{fields_of, is_first, lengths_of};
ghost use Rattle.frame_write.specs.Layouts.{IsLayoutOf};
ghost use Rattle.frame_write.specs.Appending.{KeepsFront};

use crate::field::{LeaderKind, OutField, WriteRefusal};
use crate::layout::{Layout, layout_of};
use std::alloc::{AllocError, Global};

/// The field terminator.
const FIELD_TERMINATOR: u8 = 0x1e;

/// The last decimal digit of a number.
fn digit(number: usize) -> u8
    ensures { result ≡ 48 + number % 10 }
{
    b'0' + (number % 10) as u8
}

/// The last five decimal digits of a number.
fn five_digits(number: usize) -> [u8; 5]
    ensures { result ≡ digits 5 number }
{
    let tens = number / 10;
    let hundreds = tens / 10;
    let thousands = hundreds / 10;
    [
        digit(thousands / 10),
        digit(thousands),
        digit(hundreds),
        digit(tens),
        digit(number),
    ]
}

/// Appends so many decimal digits of a number, at most five. A refusal leaves the bytes as they were.
fn push_digits(width: usize, number: usize, out: &mut Vec<u8>) -> Result<(), AllocError>
    requires { width ≤ 5 }
    ensures ok { OnOk result (out.new.items ≡ out.old.items ++ digits width number) }
    ensures err { OnErr result (out.new.items ≡ out.old.items) }
{
    let tens = number / 10;
    match width {
        0 => Ok(()),
        1 => out.extend_from_slice(&[digit(number)]),
        2 => out.extend_from_slice(&[digit(tens), digit(number)]),
        3 => out.extend_from_slice(&[digit(tens / 10), digit(tens), digit(number)]),
        4 => {
            let [_, b, c, d, e] = five_digits(number);
            out.extend_from_slice(&[b, c, d, e])
        }
        _ => out.extend_from_slice(&five_digits(number)),
    }
}

/// The bytes of a leader between its numbers: interchange level, leader identifier, inline code extension, version,
/// application and field control length.
fn identifier_text(kind: LeaderKind) -> &'static [u8; 7]
    ensures { result.now ≡ identifier_text (is_first kind) }
{
    match kind {
        LeaderKind::Ddr => b"3LE1 09",
        LeaderKind::Dr => b" D     ",
    }
}

/// The extended character set indicator.
fn character_set_text(kind: LeaderKind) -> &'static [u8; 3]
    ensures { result.now ≡ character_set_text (is_first kind) }
{
    match kind {
        LeaderKind::Ddr => b" ! ",
        LeaderKind::Dr => b"   ",
    }
}

/// Appends an entry of the directory for each field.
fn push_directory(layout: &Layout, fields: &[OutField], out: &mut Vec<u8>) -> Result<(), AllocError>
    requires few { sum (lengths_of fields.now) ≤ 99999 }
    requires lengths { layout.now.length_digits ≤ 5 }
    requires positions { layout.now.position_digits ≤ 5 }
    ensures ok { OnOk result (out.new.items ≡ out.old.items ++ directory_entries layout.now.length_digits layout.now.position_digits 0 (fields_of fields.now)) }
    ensures err { OnErr result (KeepsFront out.old.items out.new.items) }
{
    let mut position = 0;
    for field in fields {
        out.extend_from_slice(&field.tag)?;
        push_digits(layout.length_digits, field.bytes.len(), out)?;
        push_digits(layout.position_digits, position, out)?;
        position += field.bytes.len();
    }
    Ok(())
}

/// Appends the bytes of the fields.
fn push_field_area(fields: &[OutField], out: &mut Vec<u8>) -> Result<(), AllocError>
    ensures ok { OnOk result (out.new.items ≡ out.old.items ++ field_area (fields_of fields.now)) }
    ensures err { OnErr result (KeepsFront out.old.items out.new.items) }
{
    for field in fields {
        out.extend_from_slice(field.bytes.as_slice())?;
    }
    Ok(())
}

/// A record that is written: its kind, its fields and their layout.
#[derive(Drop)]
struct Draft<'a> {
    kind: LeaderKind,
    fields: &'a [OutField],
    layout: Layout,
}

impl<'a> Draft<'a> {
    fn leader(&self) -> [u8; 24]
        requires { IsLayoutOf (lengths_of self.now.fields.now) self.now.layout }
        ensures { result ≡ leader_text (is_first self.now.kind) (lengths_of self.now.fields.now) }
    {
        let [l0, l1, l2, l3, l4] = five_digits(self.layout.length);
        let [i0, i1, i2, i3, i4, i5, i6] = *identifier_text(self.kind);
        let [b0, b1, b2, b3, b4] = five_digits(self.layout.base_address);
        let [c0, c1, c2] = *character_set_text(self.kind);
        let m = b'0' + self.layout.length_digits as u8;
        let n = b'0' + self.layout.position_digits as u8;
        [
            l0, l1, l2, l3, l4, i0, i1, i2, i3, i4, i5, i6, b0, b1, b2, b3, b4, c0, c1, c2, m, n,
            b'0', b'4',
        ]
    }

    /// Appends the leader, with room for the record. A refusal leaves the bytes as they were.
    fn push_leader(&self, out: &mut Vec<u8>) -> Result<(), AllocError>
        requires { IsLayoutOf (lengths_of self.now.fields.now) self.now.layout }
        ensures ok { OnOk result (out.new.items ≡ out.old.items ++ leader_text (is_first self.now.kind) (lengths_of self.now.fields.now)) }
        ensures err { OnErr result (out.new.items ≡ out.old.items) }
    {
        out.reserve(self.layout.length)?;
        out.extend_from_slice(&self.leader())
    }

    /// Appends the record.
    fn push_record(&self, out: &mut Vec<u8>) -> Result<(), AllocError>
        requires { IsLayoutOf (lengths_of self.now.fields.now) self.now.layout }
        ensures ok { OnOk result (out.new.items ≡ out.old.items ++ written_record (is_first self.now.kind) (fields_of self.now.fields.now)) }
        ensures err { OnErr result (KeepsFront out.old.items out.new.items) }
    {
        self.push_leader(out)?;
        push_directory(&self.layout, self.fields, out)?;
        out.push(FIELD_TERMINATOR)?;
        push_field_area(self.fields, out)?;
        Ok(())
    }
}

/// Appends the record of these fields (ISO/IEC 8211; S-57 Part 3, Annex A): the leader, the directory and the fields one
/// after the other. A reader takes only records without an empty field.
///
/// `TooLong` says that the record would have more than 99,999 bytes. A refusal changes nothing.
pub fn write_record(
    _alloc: Global,
    kind: LeaderKind,
    fields: &[OutField],
    out: &mut Vec<u8>,
) -> Result<(), WriteRefusal>
    ensures ok { OnOk result (out.new.items ≡ out.old.items ++ written_record (is_first kind) (fields_of fields.now)) }
    ensures too_long { (result ≡ Err WriteRefusal.TooLong) ↔ 99999 < record_length (lengths_of fields.now) }
    ensures err { OnErr result (out.new.items ≡ out.old.items) }
{
    let Some(layout) = layout_of(fields) else {
        return Err(WriteRefusal::TooLong);
    };
    let draft = Draft {
        kind,
        fields,
        layout,
    };
    let before = out.len();
    if draft.push_record(out).is_err() {
        out.truncate(before);
        return Err(WriteRefusal::NoMemory);
    }
    Ok(())
}
