//! A text as the content of an XML element.

ghost use Rattle.std.specs.Prelude.{◌≡◌, ◌++◌, OnOk, codes, decimal};
ghost use Rattle.cell_picture.specs.Escapes.{escaped, escaped_byte, is_markup as spec_is_markup, is_plain as spec_is_plain, referred as spec_referred};

use itoa::Buffer;
use std::alloc::AllocError;
use text_lines::push_text;

fn is_markup(byte: u8) -> bool
    ensures { result ≡ spec_is_markup byte }
{
    byte == b'&' || byte == b'<' || byte == b'>' || byte == b'"' || byte == b'\''
}

/// Whether a byte stands for itself: a line feed, or a printed byte of ASCII that isn't markup.
fn is_plain(byte: u8) -> bool
    ensures { result ≡ spec_is_plain byte }
{
    byte == b'\n' || (32 <= byte && byte < 127 && !is_markup(byte))
}

/// The character that a byte is referred to by: its own, or the replacement character for a control that XML has none for.
fn referred(byte: u8) -> u32
    ensures { result ≡ spec_referred byte }
{
    if byte < 32 { 65_533 } else { u32::from(byte) }
}

fn push_reference(out: &mut Vec<u8>, character: u32) -> Result<(), AllocError>
    ensures { OnOk result (out.new.items ≡ out.old.items ++ codes "&#" ++ decimal character ++ codes ";") }
{
    let mut buffer = Buffer::new();
    push_text(out, "&#")?;
    push_text(out, buffer.format(character))?;
    push_text(out, ";")
}

fn push_escaped_byte(out: &mut Vec<u8>, byte: u8) -> Result<(), AllocError>
    ensures { OnOk result (out.new.items ≡ out.old.items ++ escaped_byte byte) }
{
    if is_plain(byte) {
        out.push(byte)?;
        return Ok(());
    }
    push_reference(out, referred(byte))
}

/// Appends a text, in which a byte that is no plain character is a reference by number.
pub(crate) fn push_escaped(out: &mut Vec<u8>, text: &[u8]) -> Result<(), AllocError>
    ensures { OnOk result (out.new.items ≡ out.old.items ++ escaped text.now) }
{
    for byte in text {
        push_escaped_byte(out, *byte)?;
    }
    Ok(())
}
