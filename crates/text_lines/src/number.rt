//! Reading numbers: decimal without leading zeros, and `-` before a negative number alone.

ghost use Rattle.std.specs.Prelude.{◌≡◌, ℕ, ℤ, ◌<◌, ◌^◌, Some, IfSome, FitsSigned, decimal};
ghost use Rattle.std.specs.Fmt.{signed_decimal};
ghost use Rattle.std.specs.Int.{w32};

use itoa::Buffer;
use std::str::from_utf8;

/// The number that a word spells, perhaps with a sign or with leading zeros.
fn parse_unsigned(word: &[u8]) -> Option<u32>
    ensures { (number : ℕ) → number < 2 ^ 32 → decimal number ≡ word.now → result ≡ Some number }
{
    match from_utf8(word) {
        Ok(text) => text.parse::<u32>().ok(),
        Err(_) => None,
    }
}

/// The number that a word spells, if it spells one that fits 32 bits.
pub fn read_unsigned(word: &[u8]) -> Option<u32>
    ensures spelled { IfSome result (λ number. decimal number ≡ word.now) }
    ensures found { (number : ℕ) → number < 2 ^ 32 → decimal number ≡ word.now → result ≡ Some number }
{
    let number = parse_unsigned(word)?;
    let mut buffer = Buffer::new();
    if buffer.format(number).as_bytes() == word {
        Some(number)
    } else {
        None
    }
}

/// The same with negative numbers.
fn parse_signed(word: &[u8]) -> Option<i32>
    ensures { (number : ℤ) → FitsSigned w32 number → signed_decimal number ≡ word.now → result ≡ Some number }
{
    match from_utf8(word) {
        Ok(text) => text.parse::<i32>().ok(),
        Err(_) => None,
    }
}

/// The signed number that a word spells, if it spells one that fits 32 bits.
pub fn read_signed(word: &[u8]) -> Option<i32>
    ensures spelled { IfSome result (λ number. signed_decimal number ≡ word.now) }
    ensures found { (number : ℤ) → FitsSigned w32 number → signed_decimal number ≡ word.now → result ≡ Some number }
{
    let number = parse_signed(word)?;
    let mut buffer = Buffer::new();
    if buffer.format(number).as_bytes() == word {
        Some(number)
    } else {
        None
    }
}
