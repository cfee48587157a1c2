//! Texts of two-byte units, the lexical level 2 (S-57 Part 3, 2.4).

ghost use Rattle.std.specs.Prelude.{◌≡◌, ◌+◌, ◌<◌, ◌≤◌, ◌==◌, ◌&&◌, length, slice_index, IfSome};
ghost use Rattle.std.specs.Option.{option_map};
ghost use Rattle.s57_types.specs.Subfield.{wide_text, wide_text_of, has_unit, is_plain};
ghost use Rattle.field_spec.specs.Cutting.{front};
ghost use Rattle.s57_fields.specs.Units.{unit_place};

use crate::cut::{FIELD_TERMINATOR, UNIT_TERMINATOR};

/// Whether the first unit has this low byte and the high byte 0.
fn starts_with_unit(bytes: &[u8], low: u8) -> bool
    requires { 2 ≤ length bytes.now }
    ensures { result ≡ ((slice_index bytes.now 0 == low) && (slice_index bytes.now 1 == 0)) }
{
    bytes[0] == low && bytes[1] == 0
}

/// Where the first unit of this low byte and the high byte 0 begins.
fn find_unit(bytes: &[u8], low: u8) -> Option<usize>
    ensures place { result ≡ unit_place low bytes.now }
    ensures in_range { IfSome result (λ i. i + 2 ≤ length bytes.now) }
{
    let mut at = 0;
    let mut rest = bytes;
    while rest.len() >= 2 {
        if starts_with_unit(rest, low) {
            return Some(at);
        }
        let (_, after) = rest.split_at(2);
        at += 2;
        rest = after;
    }
    None
}

/// Whether a unit has this low byte and the high byte 0.
#[tactic(auto, using(crate::proofs::UnitLemmas::place_holds))]
fn holds_unit(bytes: &[u8], low: u8) -> bool
    ensures { result ≡ has_unit low bytes.now }
{
    find_unit(bytes, low).is_some()
}

/// A text before the unit that ends it, and the bytes after that.
#[tactic(auto, using(crate::proofs::UnitLemmas::split_at_place))]
pub fn take_wide_text(bytes: &[u8]) -> Option<(&[u8], &[u8])>
    ensures cut { option_map (λ x. (wide_text_of x.0.now, x.1.now)) result ≡ front wide_text bytes.now }
    ensures shorter { IfSome result (λ x. length x.1.now < length bytes.now) }
{
    let end = find_unit(bytes, UNIT_TERMINATOR)?;
    let (text, _) = bytes.split_at(end);
    let (_, rest) = bytes.split_at(end + 2);
    Some((text, rest))
}

/// Whether no control unit of the format stands in a text.
pub fn is_plain_wide_text(text: &[u8]) -> bool
    ensures { result ≡ is_plain (wide_text_of text.now) }
{
    text.len() % 2 == 0
        && !(holds_unit(text, FIELD_TERMINATOR) || holds_unit(text, UNIT_TERMINATOR))
}
