//! Texts in a word: a byte that stands for itself, or a percent sign and two hexadecimal digits.

ghost use Rattle.std.specs.Prelude.{◌≡◌, ℕ, ◌<◌, ◌≤◌, ◌/◌, ◌%◌, List, ◌++◌, ◌∷◌, length, IfOk};
ghost use Rattle.text_spec.specs.EditLine.{hexadecimal, text_byte, text_word};
ghost use Rattle.script_text.specs.Widths.{IsTextOfWidth};

use s57_types::Text;
use std::alloc::{AllocError, Global};

/// The value of a hexadecimal digit.
fn digit_value(digit: u8) -> u8
    ensures small { result < 16 }
    ensures found { (value : ℕ) → value < 16 → digit ≡ hexadecimal value → result ≡ value }
{
    match digit {
        b'0'..=b'9' => digit - b'0',
        b'A'..=b'F' => digit - b'A' + 10,
        _ => 0,
    }
}

/// The byte that two hexadecimal digits stand for, and what follows them.
fn escaped_byte(text: &[u8]) -> (u8, &[u8])
    ensures found { (byte : ℕ) (rest : List ℕ) → byte < 256 → text.now ≡ hexadecimal (byte / 16) ∷ hexadecimal (byte % 16) ∷ rest
        → (result.0 ≡ byte) × (result.1.now ≡ rest) }
    ensures shorter { length result.1.now ≤ length text.now }
{
    if text.len() < 2 {
        return (0, text);
    }
    let (digits, behind) = text.split_at(2);
    (16 * digit_value(digits[0]) + digit_value(digits[1]), behind)
}

/// The first byte of a text, and what follows it.
fn next_byte(text: &[u8]) -> (u8, &[u8])
    ensures found { (byte : ℕ) (rest : List ℕ) → byte < 256 → text.now ≡ text_byte byte ++ rest → (result.0 ≡ byte) × (result.1.now ≡ rest) }
    ensures shorter { 0 < length text.now → length result.1.now < length text.now }
{
    match text.split_first() {
        Some((b'%', behind)) => escaped_byte(behind),
        Some((byte, behind)) => (*byte, behind),
        None => (0, text),
    }
}

/// The text that a part of a word stands for.
///
/// An `Err` means out of memory.
pub fn text_of(alloc: Global, part: &[u8]) -> Result<Text, AllocError>
    ensures width { IfOk result IsTextOfWidth }
    ensures found { (value : List ℕ) → IsTextOfWidth value → part.now ≡ text_word value → IfOk result (λ text. text ≡ value) }
{
    let mut text = Text::make(alloc);
    let mut rest = part;
    while !rest.is_empty() {
        let (byte, behind) = next_byte(rest);
        text.push(byte)?;
        rest = behind;
    }
    Ok(text)
}
