//! The words of a call.

ghost use Rattle.std.specs.Prelude.{◌≡◌, ◌<◌, ◌≤◌, IfSome, map, string_bytes, nat_eq, decimal};
ghost use Rattle.std.specs.Cmp.Lexicographic.{pointwise};
ghost use Rattle.enc_top.specs.Words.{begins_with_room as spec_begins_with_room, coordinate_of, number_in, number_up_to as spec_number_up_to};

use itoa::Buffer;
use text_lines::{read_signed, read_unsigned};

/// Whether a word is a number, decimal without leading zeros.
fn is_number(word: &str, number: u32) -> bool
    ensures { result ≡ pointwise nat_eq (decimal number) word.now }
{
    let mut buffer = Buffer::new();
    buffer.format(number) == word
}

/// The number from 1 to a limit that a word is, decimal without leading zeros.
pub fn number_up_to(word: &str, limit: u32) -> Option<u32>
    requires { limit < 1000 }
    ensures number { result ≡ spec_number_up_to limit word.now }
    ensures within { IfSome result (λ number. (1 ≤ number) × (number ≤ limit)) }
{
    for number in 1..limit + 1 {
        if is_number(word, number) {
            return Some(number);
        }
    }
    None
}

/// The number that fits 32 bits that a word is, decimal without leading zeros.
pub fn number_of(word: &str) -> Option<u32>
    ensures { result ≡ number_in word.now }
{
    read_unsigned(word.as_bytes())
}

/// The coordinate that a word is, decimal without leading zeros, and with `-` before a negative one alone.
pub fn coordinate(word: &str) -> Option<i32>
    ensures { result ≡ coordinate_of word.now }
{
    read_signed(word.as_bytes())
}

/// Whether the first word is `room`.
pub fn begins_with_room(words: &[String]) -> bool
    ensures { result ≡ spec_begins_with_room (map string_bytes words.now) }
{
    match words {
        [first, ..] => first.as_str() == "room",
        [] => false,
    }
}
