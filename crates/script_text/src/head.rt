//! The words of a head's new values.

ghost use Rattle.std.specs.Prelude.{◌≡◌, ◌++◌, ◌∷◌, ℕ, List, codes, decimal, false, length, IfOk};
ghost use Rattle.s57_types.specs.{Heads.{level_number}, Subfield.{holds}, declared.head.HeadEdit.{HeadEdit}, declared.head.Level.{Level}};
ghost use Rattle.text_spec.specs.{EditLine.{head_words, text_word}, Lines.{spaced_words}, ScriptLines.{IsHeadEditOfWidth}};
ghost use Rattle.script_text.specs.{Cuts.{IsFrom}, Widths.{IsTextOfWidth}};

use crate::cut::next_part;
use crate::text::text_of;
use crate::value::is_word;
use s57_types::{HeadEdit, Level};
use std::alloc::{AllocError, Global};

/// What the next word has behind its equals sign, and what follows the word.
fn next_value(words: &[u8]) -> (&[u8], &[u8])
    ensures { (name value rest : List ℕ) → holds 61 name ≡ false → holds 32 value ≡ false → IsFrom 32 rest
        → words.now ≡ 32 ∷ (name ++ (61 ∷ (value ++ rest))) → (result.0.now ≡ value) × (result.1.now ≡ rest) }
{
    let (_, behind) = next_part(b'=', words);
    next_part(b' ', behind)
}

/// The date that a part of a word stands for. A text of another length than eight bytes gives zeros.
///
/// An `Err` means out of memory.
fn date_of(alloc: Global, part: &[u8]) -> Result<[u8; 8], AllocError>
    ensures width { IfOk result IsTextOfWidth }
    ensures length { IfOk result (λ date. length date ≡ 8) }
    ensures found { (value : List ℕ) → IsTextOfWidth value → length value ≡ 8 → part.now ≡ text_word value → IfOk result (λ date. date ≡ value) }
{
    let text = text_of(alloc, part)?;
    Ok(<[u8; 8]>::try_from(text.as_slice()).unwrap_or([0; 8]))
}

/// The level that a word stands for.
fn level_of(word: &[u8]) -> Level
    ensures { (level : Level) → word.now ≡ decimal (level_number level) → result ≡ level }
{
    if is_word(word, "0") {
        Level::Zero
    } else {
        Level::One
    }
}

/// The new values of a head that words stand for, the first of which is its kind.
///
/// An `Err` means out of memory.
pub fn head_edit_of(alloc: Global, words: &[u8]) -> Result<HeadEdit, AllocError>
    ensures width { IfOk result IsHeadEditOfWidth }
    ensures found { (edit : HeadEdit) → IsHeadEditOfWidth edit → words.now ≡ spaced_words (codes "head" ∷ head_words edit) → IfOk result (λ read. read ≡ edit) }
{
    let (_, words) = next_part(b' ', words);
    let (edtn, words) = next_value(words);
    let (updn, words) = next_value(words);
    let (uadt, words) = next_value(words);
    let (isdt, words) = next_value(words);
    let (aall, words) = next_value(words);
    let (comt, _) = next_value(words);
    Ok(HeadEdit {
        edtn: text_of(alloc, edtn)?,
        updn: text_of(alloc, updn)?,
        uadt: date_of(alloc, uadt)?,
        isdt: date_of(alloc, isdt)?,
        aall: level_of(aall),
        comt: text_of(alloc, comt)?,
    })
}
