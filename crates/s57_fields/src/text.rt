//! Texts at the lexical levels 0 to 2 (S-57 Part 3, 2.4).

ghost use Rattle.std.specs.Prelude.{◌≡◌, ◌<◌, length, IfOk, IfSome};
ghost use Rattle.std.specs.Option.{option_map};
ghost use Rattle.s57_types.specs.Subfield.{text_of, is_plain};
ghost use Rattle.s57_types.specs.FieldRows.{level_form, level_text};
ghost use Rattle.field_spec.specs.Cutting.{front};

use crate::cut::{FIELD_TERMINATOR, UNIT_TERMINATOR, take_text};
use crate::units::{is_plain_wide_text, take_wide_text};
use s57_types::Text;
use std::alloc::{AllocError, Global};

/// The lexical level at which a character has two bytes.
pub const WIDE_LEVEL: u8 = 2;

/// Whether no control byte of the format stands in a text.
pub fn is_plain_text(text: &[u8]) -> bool
    ensures { result ≡ is_plain (text_of text.now) }
{
    !(text.contains(&FIELD_TERMINATOR) || text.contains(&UNIT_TERMINATOR))
}

/// A text at a lexical level, and the bytes after its terminator.
pub fn take_level_text(level: u8, bytes: &[u8]) -> Option<(&[u8], &[u8])>
    ensures cut { option_map (λ x. (level_text level x.0.now, x.1.now)) result ≡ front (level_form level) bytes.now }
    ensures shorter { IfSome result (λ x. length x.1.now < length bytes.now) }
{
    if level == WIDE_LEVEL {
        take_wide_text(bytes)
    } else {
        take_text(bytes)
    }
}

/// Whether no control byte or control unit of the format stands in a text at a lexical level.
pub fn is_plain_level_text(level: u8, text: &[u8]) -> bool
    ensures { result ≡ is_plain (level_text level text.now) }
{
    if level == WIDE_LEVEL {
        is_plain_wide_text(text)
    } else {
        is_plain_text(text)
    }
}

/// The text of these bytes.
pub fn owned_text(alloc: Global, text: &[u8]) -> Result<Text, AllocError>
    ensures { IfOk result (λ owned. owned ≡ text.now) }
{
    Ok(Text::of_vec(Vec::from_slice(alloc, text)?))
}
