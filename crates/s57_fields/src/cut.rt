//! The subfield with which bytes begin.

ghost use Rattle.std.specs.Prelude.{◌≡◌, ◌==◌, ◌<◌, position, length, IfSome};
ghost use Rattle.std.specs.Option.{option_map};
ghost use Rattle.s57_types.specs.Subfield.{unsigned, signed, text, fixed, unsigned_of, signed_of, text_of, fixed_of, unit_terminator};
ghost use Rattle.field_spec.specs.Cutting.{split, front, before_terminator, body_at_level};

use crate::text::WIDE_LEVEL;
use byteorder::{ByteOrder, LittleEndian};

/// The unit terminator, which ends a text.
pub const UNIT_TERMINATOR: u8 = 0x1f;

/// The field terminator.
pub const FIELD_TERMINATOR: u8 = 0x1e;

/// So many bytes, and the bytes after them.
fn take_bytes(bytes: &[u8], n: usize) -> Option<(&[u8], &[u8])>
    ensures { option_map (λ x. (x.0.now, x.1.now)) result ≡ split n bytes.now }
{
    if bytes.len() < n {
        return None;
    }
    Some(bytes.split_at(n))
}

/// The number of one byte with which bytes begin, and the bytes after it. There is none where there are no bytes.
pub fn take_u8(bytes: &[u8]) -> Option<(u8, &[u8])>
    ensures cut { option_map (λ x. (unsigned_of 1 x.0, x.1.now)) result ≡ front (unsigned 1) bytes.now }
    ensures shorter { IfSome result (λ x. length x.1.now < length bytes.now) }
{
    let (number, rest) = take_bytes(bytes, 1)?;
    Some((number[0], rest))
}

/// The number of two bytes with which bytes begin, the least significant first, and the bytes after it. There is none where the
/// bytes are fewer.
pub fn take_u16(bytes: &[u8]) -> Option<(u16, &[u8])>
    ensures cut { option_map (λ x. (unsigned_of 2 x.0, x.1.now)) result ≡ front (unsigned 2) bytes.now }
    ensures shorter { IfSome result (λ x. length x.1.now < length bytes.now) }
{
    let (number, rest) = take_bytes(bytes, 2)?;
    Some((LittleEndian::read_u16(number), rest))
}

/// A number of four bytes, and the bytes after it.
pub fn take_u32(bytes: &[u8]) -> Option<(u32, &[u8])>
    ensures cut { option_map (λ x. (unsigned_of 4 x.0, x.1.now)) result ≡ front (unsigned 4) bytes.now }
    ensures shorter { IfSome result (λ x. length x.1.now < length bytes.now) }
{
    let (number, rest) = take_bytes(bytes, 4)?;
    Some((LittleEndian::read_u32(number), rest))
}

/// A signed number of four bytes, and the bytes after it.
pub fn take_i32(bytes: &[u8]) -> Option<(i32, &[u8])>
    ensures cut { option_map (λ x. (signed_of x.0, x.1.now)) result ≡ front signed bytes.now }
    ensures shorter { IfSome result (λ x. length x.1.now < length bytes.now) }
{
    let (number, rest) = take_bytes(bytes, 4)?;
    Some((LittleEndian::read_i32(number), rest))
}

/// Where the first unit terminator stands.
fn text_end(bytes: &[u8]) -> Option<usize>
    ensures { result ≡ position (λ byte. byte == unit_terminator) bytes.now }
{
    bytes.iter().position(|byte| *byte == UNIT_TERMINATOR)
}

/// A text before its terminator, and the bytes after that.
pub fn take_text(bytes: &[u8]) -> Option<(&[u8], &[u8])>
    ensures cut { option_map (λ x. (text_of x.0.now, x.1.now)) result ≡ front text bytes.now }
    ensures shorter { IfSome result (λ x. length x.1.now < length bytes.now) }
{
    let end = text_end(bytes)?;
    let (text, _) = bytes.split_at(end);
    let (_, rest) = bytes.split_at(end + 1);
    Some((text, rest))
}

/// A text of `N` bytes, and the bytes after it.
pub fn take_array<const N: usize>(bytes: &[u8]) -> Option<([u8; N], &[u8])>
    ensures { option_map (λ x. (fixed_of x.0, x.1.now)) result ≡ front (fixed N) bytes.now }
{
    let (front, rest) = take_bytes(bytes, N)?;
    let mut text = [0; N];
    text.copy_from_slice(front);
    Some((text, rest))
}

/// The bytes of a field before its terminator, one byte. There are none where the field's last byte isn't the terminator.
pub fn field_body(bytes: &[u8]) -> Option<&[u8]>
    ensures { option_map (λ x. x.now) result ≡ before_terminator bytes.now }
{
    let (last, body) = bytes.split_last()?;
    if *last != FIELD_TERMINATOR {
        return None;
    }
    Some(body)
}

/// The bytes of a field before its terminator. Behind two-byte texts the rows have even length; there the terminator
/// has a second byte 0, or one byte as elsewhere.
pub fn field_body_at(level: u8, bytes: &[u8]) -> Option<&[u8]>
    ensures { option_map (λ x. x.now) result ≡ body_at_level level bytes.now }
{
    if level != WIDE_LEVEL || bytes.len() % 2 == 1 {
        return field_body(bytes);
    }
    let (last, front) = bytes.split_last()?;
    if *last != 0 {
        return None;
    }
    field_body(front)
}
