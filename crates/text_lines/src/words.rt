//! Words and numbers.

ghost use Rattle.std.specs.Prelude.{◌≡◌, ◌++◌, ◌∷◌, [], decimal, OnErr, OnOk};
ghost use Rattle.text_spec.specs.CellText.{identity_words, kind_word, name_words};
ghost use Rattle.text_spec.specs.Lines.{spaced, spaced_words};

use itoa::Buffer;
use s57_types::{Kind, Lnam, RecName, cut_back};
use std::alloc::AllocError;

/// The word of a kind of record.
pub fn word_of_kind(kind: Kind) -> &'static str
    ensures { result.now ≡ kind_word kind }
{
    match kind {
        Kind::Vi => "vi",
        Kind::Vc => "vc",
        Kind::Ve => "ve",
        Kind::Fe => "fe",
        Kind::Head => "head",
    }
}

/// Appends bytes, all or none.
pub fn push_bytes(out: &mut Vec<u8>, bytes: &[u8]) -> Result<(), AllocError>
    ensures ok { OnOk result (out.new.items ≡ out.old.items ++ bytes.now) }
    ensures err { OnErr result (out.new.items ≡ out.old.items) }
{
    out.extend_from_slice(bytes)?;
    Ok(())
}

/// Appends a text as it is, or nothing.
pub fn push_text(out: &mut Vec<u8>, text: &str) -> Result<(), AllocError>
    ensures ok { OnOk result (out.new.items ≡ out.old.items ++ text.now) }
    ensures err { OnErr result (out.new.items ≡ out.old.items) }
{
    push_bytes(out, text.as_bytes())
}

/// Appends a word behind a space, or nothing.
pub fn push_word(out: &mut Vec<u8>, word: &str) -> Result<(), AllocError>
    ensures ok { OnOk result (out.new.items ≡ out.old.items ++ spaced word.now) }
    ensures err { OnErr result (out.new.items ≡ out.old.items) }
{
    let length = out.len();
    out.push(b' ')?;
    let pushed = push_text(out, word);
    cut_back(out, length, pushed)
}

/// Appends a number behind a space, or nothing.
pub fn push_number(out: &mut Vec<u8>, number: u32) -> Result<(), AllocError>
    ensures ok { OnOk result (out.new.items ≡ out.old.items ++ spaced (decimal number)) }
    ensures err { OnErr result (out.new.items ≡ out.old.items) }
{
    let mut buffer = Buffer::new();
    push_word(out, buffer.format(number))
}

/// Appends a word and its number, or nothing.
pub fn push_numbered(out: &mut Vec<u8>, word: &str, number: u32) -> Result<(), AllocError>
    ensures ok { OnOk result (out.new.items ≡ out.old.items ++ spaced_words (word.now ∷ decimal number ∷ [])) }
    ensures err { OnErr result (out.new.items ≡ out.old.items) }
{
    let length = out.len();
    push_word(out, word)?;
    let pushed = push_number(out, number);
    cut_back(out, length, pushed)
}

/// Appends the words of a record's name, or nothing.
pub fn push_name(out: &mut Vec<u8>, name: RecName) -> Result<(), AllocError>
    ensures ok { OnOk result (out.new.items ≡ out.old.items ++ spaced_words (name_words name)) }
    ensures err { OnErr result (out.new.items ≡ out.old.items) }
{
    push_numbered(out, word_of_kind(name.kind), name.id)
}

/// Appends the words of a feature object identifier, or nothing.
pub fn push_identity(out: &mut Vec<u8>, foid: Lnam) -> Result<(), AllocError>
    ensures ok { OnOk result (out.new.items ≡ out.old.items ++ spaced_words (identity_words foid)) }
    ensures err { OnErr result (out.new.items ≡ out.old.items) }
{
    let mut buffer = Buffer::new();
    let length = out.len();
    push_numbered(out, buffer.format(u32::from(foid.agen)), foid.fidn)?;
    let pushed = push_number(out, u32::from(foid.fids));
    cut_back(out, length, pushed)
}
