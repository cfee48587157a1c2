//! The values that words stand for. A word that stands for none gives some value: whoever asks writes the value again and
//! compares.

ghost use Rattle.std.specs.Prelude.{◌≡◌, ◌↔◌, ◌++◌, ◌∷◌, IsTrue, List, ℕ, ℤ, ◌<◌, ◌^◌, decimal, FitsSigned};
ghost use Rattle.std.specs.Fmt.{signed_decimal};
ghost use Rattle.std.specs.Int.{w32};
ghost use Rattle.s57_types.specs.declared.name.Kind.{Kind};
ghost use Rattle.s57_types.specs.declared.name.Lnam.{Lnam};
ghost use Rattle.s57_types.specs.declared.name.RecName.{RecName};
ghost use Rattle.text_spec.specs.CellText.{kind_word, name_words};
ghost use Rattle.text_spec.specs.Lines.{spaced_words};
ghost use Rattle.script_text.specs.Cuts.{IsFrom};
ghost use Rattle.script_text.specs.Widths.{IsIdentityOfWidth, IsNameOfWidth};

use crate::cut::next_part;
use s57_types::{Kind, Lnam, RecName};
use text_lines::{read_signed, read_unsigned};

/// Whether a word is this text.
pub fn is_word(word: &[u8], text: &str) -> bool
    ensures { IsTrue result ↔ word.now ≡ text.now }
{
    word == text.as_bytes()
}

pub fn number_of(word: &[u8]) -> u32
    ensures { (number : ℕ) → number < 2 ^ 32 → word.now ≡ decimal number → result ≡ number }
{
    read_unsigned(word).unwrap_or(0)
}

pub fn byte_of(word: &[u8]) -> u8
    ensures { (number : ℕ) → number < 2 ^ 8 → word.now ≡ decimal number → result ≡ number }
{
    u8::try_from(number_of(word)).unwrap_or(0)
}

pub fn short_of(word: &[u8]) -> u16
    ensures { (number : ℕ) → number < 2 ^ 16 → word.now ≡ decimal number → result ≡ number }
{
    u16::try_from(number_of(word)).unwrap_or(0)
}

/// In integer coordinate units.
pub fn coordinate_of(word: &[u8]) -> i32
    ensures { (number : ℤ) → FitsSigned w32 number → word.now ≡ signed_decimal number → result ≡ number }
{
    read_signed(word).unwrap_or(0)
}

pub fn kind_of(word: &[u8]) -> Kind
    ensures { (kind : Kind) → word.now ≡ kind_word kind → result ≡ kind }
{
    if is_word(word, "vi") {
        Kind::Vi
    } else if is_word(word, "vc") {
        Kind::Vc
    } else if is_word(word, "ve") {
        Kind::Ve
    } else if is_word(word, "fe") {
        Kind::Fe
    } else {
        Kind::Head
    }
}

/// The kind that the first word stands for.
pub fn kind_of_words(words: &[u8]) -> Kind
    ensures { (kind : Kind) (rest : List ℕ) → IsFrom 32 rest → words.now ≡ 32 ∷ (kind_word kind ++ rest) → result ≡ kind }
{
    let (kind, _) = next_part(b' ', words);
    kind_of(kind)
}

pub fn name_of(kind: &[u8], id: &[u8]) -> RecName
    ensures { (name : RecName) → IsNameOfWidth name → kind.now ≡ kind_word name.kind → id.now ≡ decimal name.id → result ≡ name }
{
    RecName {
        kind: kind_of(kind),
        id: number_of(id),
    }
}

/// The record name at the beginning of words, and what follows it.
pub fn next_name(words: &[u8]) -> (RecName, &[u8])
    ensures width { IsNameOfWidth result.0 }
    ensures found { (name : RecName) (rest : List ℕ) → IsNameOfWidth name → IsFrom 32 rest
        → words.now ≡ 32 ∷ (kind_word name.kind ++ (32 ∷ (decimal name.id ++ rest))) → (result.0 ≡ name) × (result.1.now ≡ rest) }
{
    let (kind, words) = next_part(b' ', words);
    let (id, words) = next_part(b' ', words);
    (name_of(kind, id), words)
}

/// The record name that words stand for.
pub fn name_of_words(words: &[u8]) -> RecName
    ensures width { IsNameOfWidth result }
    ensures found { (name : RecName) → IsNameOfWidth name → words.now ≡ spaced_words (name_words name) → result ≡ name }
{
    let (name, _) = next_name(words);
    name
}

/// The identifier of a feature object.
pub fn identity_of(agen: &[u8], fidn: &[u8], fids: &[u8]) -> Lnam
    ensures width { IsIdentityOfWidth result }
    ensures found { (identity : Lnam) → IsIdentityOfWidth identity → agen.now ≡ decimal identity.agen → fidn.now ≡ decimal identity.fidn
        → fids.now ≡ decimal identity.fids → result ≡ identity }
{
    Lnam {
        agen: short_of(agen),
        fidn: number_of(fidn),
        fids: short_of(fids),
    }
}
