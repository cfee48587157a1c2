//! The spelling of subfields (S-57 Part 3, 7.2.2).

ghost use Rattle.std.specs.Prelude.{◌≡◌, ◌++◌, ◌∷◌, [], OnOk, OnErr};
ghost use Rattle.std.specs.Int.{bytes_low_first};
ghost use Rattle.s57_types.specs.Subfield.{signed_of, row_bytes, spelling};
ghost use Rattle.s57_fields.specs.Appending.{KeepsFront};
ghost use Rattle.s57_fields.specs.Spelling.{subfield_of, row_of};

use crate::cut::UNIT_TERMINATOR;
use byteorder::{ByteOrder, LittleEndian};
use std::alloc::AllocError;

/// A subfield to write, but for signed numbers.
#[derive(Clone, Copy)]
pub enum Value<'a> {
    /// A number of one byte, b11.
    Byte(u8),
    /// A number of two bytes, b12.
    Short(u16),
    /// A number of four bytes, b14.
    Long(u32),
    /// A text that ends with the unit terminator, A.
    Text(&'a [u8]),
    /// A text of two-byte units that ends with a unit of its own.
    WideText(&'a [u8]),
    /// A text of a length of its own, A(n) or R(n).
    Fixed(&'a [u8]),
}

/// The byte of a number.
pub fn byte_bytes(n: u8) -> [u8; 1]
    ensures { result ≡ bytes_low_first 0 1 n }
{
    [n]
}

/// The bytes of a number, the least significant first.
pub fn short_bytes(n: u16) -> [u8; 2]
    ensures { result ≡ bytes_low_first 0 2 n }
{
    let mut bytes = [0; 2];
    LittleEndian::write_u16(&mut bytes, n);
    bytes
}

/// The bytes of a number, the least significant first.
pub fn long_bytes(n: u32) -> [u8; 4]
    ensures { result ≡ bytes_low_first 0 4 n }
{
    let mut bytes = [0; 4];
    LittleEndian::write_u32(&mut bytes, n);
    bytes
}

/// The bytes of a signed number, b24.
fn signed_bytes(n: i32) -> [u8; 4]
    ensures { result ≡ spelling (signed_of n) }
{
    long_bytes(n.cast_unsigned())
}

/// Appends two signed numbers of four bytes, b24.
pub fn put_two_signed(a: i32, b: i32, out: &mut Vec<u8>) -> Result<(), AllocError>
    ensures ok { OnOk result (out.new.items ≡ out.old.items ++ row_bytes (signed_of a ∷ signed_of b ∷ [])) }
    ensures err { OnErr result (out.new.items ≡ out.old.items) }
{
    let [a0, a1, a2, a3] = signed_bytes(a);
    let [b0, b1, b2, b3] = signed_bytes(b);
    out.extend_from_slice(&[a0, a1, a2, a3, b0, b1, b2, b3])
}

/// Appends three signed numbers of four bytes, b24.
pub fn put_three_signed(a: i32, b: i32, c: i32, out: &mut Vec<u8>) -> Result<(), AllocError>
    ensures ok { OnOk result (out.new.items ≡ out.old.items ++ row_bytes (signed_of a ∷ signed_of b ∷ signed_of c ∷ [])) }
    ensures err { OnErr result (out.new.items ≡ out.old.items) }
{
    let [a0, a1, a2, a3] = signed_bytes(a);
    let [b0, b1, b2, b3] = signed_bytes(b);
    let [c0, c1, c2, c3] = signed_bytes(c);
    out.extend_from_slice(&[a0, a1, a2, a3, b0, b1, b2, b3, c0, c1, c2, c3])
}

/// Appends a subfield.
fn put_value(value: Value<'_>, out: &mut Vec<u8>) -> Result<(), AllocError>
    ensures ok { OnOk result (out.new.items ≡ out.old.items ++ spelling (subfield_of value.entry)) }
    ensures err { OnErr result (KeepsFront out.old.items out.new.items) }
{
    match value {
        Value::Byte(n) => out.push(n)?,
        Value::Short(n) => out.extend_from_slice(&short_bytes(n))?,
        Value::Long(n) => out.extend_from_slice(&long_bytes(n))?,
        Value::Text(text) => {
            out.extend_from_slice(text)?;
            out.push(UNIT_TERMINATOR)?;
        }
        Value::WideText(text) => {
            out.extend_from_slice(text)?;
            out.extend_from_slice(&[UNIT_TERMINATOR, 0])?;
        }
        Value::Fixed(text) => out.extend_from_slice(text)?,
    }
    Ok(())
}

/// Appends the subfields of a row one after the other.
pub fn put_row(row: &[Value<'_>], out: &mut Vec<u8>) -> Result<(), AllocError>
    ensures ok { OnOk result (out.new.items ≡ out.old.items ++ row_bytes (row_of row.now)) }
    ensures err { OnErr result (KeepsFront out.old.items out.new.items) }
{
    for value in row {
        put_value(*value, out)?;
    }
    Ok(())
}
