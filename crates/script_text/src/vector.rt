//! The words of a vector record.

ghost use Rattle.std.specs.Prelude.{◌≡◌, IfOk};
ghost use Rattle.s57_types.specs.declared.record.Vector.{Vector};
ghost use Rattle.text_spec.specs.EditLine.{vector_words};
ghost use Rattle.text_spec.specs.Lines.{spaced_words};
ghost use Rattle.script_text.specs.Widths.{IsVectorOfWidth};

use crate::cut::next_part;
use crate::items::items_of;
use crate::value::{next_name, short_of};
use s57_types::Vector;
use std::alloc::{AllocError, Global};

/// The vector record that words stand for.
///
/// An `Err` means out of memory.
pub fn vector_of(alloc: Global, words: &[u8]) -> Result<Vector, AllocError>
    ensures width { IfOk result IsVectorOfWidth }
    ensures found { (vector : Vector) → IsVectorOfWidth vector → words.now ≡ spaced_words (vector_words vector) → IfOk result (λ read. read ≡ vector) }
{
    let (name, words) = next_name(words);
    let (rver, words) = next_part(b' ', words);
    let items = items_of(alloc, words)?;
    Ok(Vector {
        name,
        rver: short_of(rver),
        attrs: items.attrs,
        ends: items.ends,
        plane: items.plane,
        deep: items.deep,
    })
}
