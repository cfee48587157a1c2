//! The entries of a journal: a mark, the desk, the length of the text, and the text, which is the lines of the edits.

ghost use Rattle.std.specs.Prelude.{◌≡◌, ◌++◌, ◌∷◌, [], ◌<◌, ◌^◌, IfOk, MatchBool, MatchOption, length};
ghost use Rattle.book_journal.specs.Cuts.{HasNoEntry, IsEntryOf, IsMarked};
ghost use Rattle.book_journal.specs.Entries.{entry_part, four_bytes};
ghost use Rattle.book_journal.specs.Journals.{IsEnd};

use std::alloc::{AllocError, Global};

/// The first byte of an entry.
pub(crate) const MARK: u8 = 1;

/// The entry of a desk at the beginning of bytes, with its text and what follows it.
#[derive(Clone, Copy)]
pub(crate) struct Entry<'a> {
    pub(crate) desk: u32,
    pub(crate) text: &'a [u8],
    pub(crate) rest: &'a [u8],
}

/// The number that four bytes are, the least significant first, and what follows them.
fn cut_number(bytes: &[u8]) -> Option<(u32, &[u8])>
    ensures { MatchOption result (length bytes.now < 4) (λ cut. bytes.now ≡ four_bytes cut.0 ++ cut.1.now) }
{
    let (number, rest) = bytes.split_first_chunk::<4>()?;
    Some((u32::from_le_bytes(*number), rest))
}

/// Whether bytes begin with a mark, of which there is one at least.
pub(crate) fn is_marked(bytes: &[u8]) -> bool
    requires { 0 < length bytes.now }
    ensures { MatchBool result (IsMarked bytes.now) (IsEnd bytes.now) }
{
    bytes[0] == MARK
}

/// The entry at the beginning of bytes, if one stands there and leaves a byte behind it.
pub(crate) fn front_entry(bytes: &[u8]) -> Option<Entry<'_>>
    ensures { MatchOption result (HasNoEntry bytes.now) (λ entry. IsEntryOf bytes.now entry.desk entry.text.now entry.rest.now) }
{
    let (mark, behind) = bytes.split_first()?;
    if *mark != MARK {
        return None;
    }
    let (desk, behind) = cut_number(behind)?;
    let (length, behind) = cut_number(behind)?;
    if behind.len() <= length as usize {
        return None;
    }
    let (text, rest) = behind.split_at(length as usize);
    Some(Entry { desk, text, rest })
}

/// What stands behind the mark of an entry, and a byte behind the entry that is no mark.
pub(crate) fn entry_part_of(alloc: Global, desk: u32, text: &[u8]) -> Result<Vec<u8>, AllocError>
    requires { length text.now < 2 ^ 32 }
    ensures { IfOk result (λ part. part.items ≡ entry_part desk text.now ++ 0 ∷ []) }
{
    let mut part = Vec::with_capacity(alloc, text.len() + 9)?;
    part.extend_from_slice(&desk.to_le_bytes())?;
    part.extend_from_slice(&(text.len() as u32).to_le_bytes())?;
    part.extend_from_slice(text)?;
    part.push(0)?;
    Ok(part)
}
