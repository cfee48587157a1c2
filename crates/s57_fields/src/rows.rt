//! Fields whose row repeats.

ghost use Rattle.std.specs.Prelude.{◌≡◌, ◌+◌, ◌-◌, ◌/◌, ◌<◌, ◌≤◌, ◌++◌, [], true, ℕ, Some, drop, length, take, IfOk, IfSome, OnOk, OnErr};
ghost use Rattle.std.specs.Simd.{first_chunks};
ghost use Rattle.std.specs.Option.{option_map};
ghost use Rattle.s57_fields.specs.Appending.{KeepsFront};
ghost use Rattle.s57_fields.specs.Gives.{Gives};
ghost use Rattle.s57_fields.specs.RowCutting.{take_row, rows_from, with_front, content_of_rows, field_content};
ghost use Rattle.s57_fields.specs.RowLayouts.{RowLayout, row_spelling};

use crate::cut::field_body_at;
use crate::refusal::FieldRefusal;
use s57_types::Items;
use std::alloc::{AllocError, Global};

/// The row with which bytes begin, whether its texts are plain, and the bytes after it. An `Err` means out of memory.
pub type Taken<'a, R> = Result<Option<(R, bool, &'a [u8])>, AllocError>;

/// A row of a field whose row repeats, at a lexical level of its texts.
pub trait FieldRow: Drop + Sized {
    /// How it is laid out at a lexical level.
    ghost layout: { ℕ → RowLayout Self };

    /// Takes the row with which bytes begin.
    fn take_front(alloc: Global, level: u8, bytes: &[u8]) -> Taken<'_, Self>
        ensures cut { IfOk result (λ front. option_map (λ x. (x.0, x.1, x.2.now)) front ≡ take_row (layout level) bytes.now) }
        ensures shorter { IfOk result (λ front. IfSome front (λ x. length x.2.now < length bytes.now)) };

    /// How many bytes a row takes at least.
    fn least_size() -> usize
        ensures { (level : ℕ) (row : Self) → result ≤ length (row_spelling (layout level) row) };

    /// Appends the subfields of a row.
    fn put(&self, level: u8, out: &mut Vec<u8>) -> Result<(), AllocError>
        ensures ok { OnOk result (out.new.items ≡ out.old.items ++ row_spelling (layout level) self.now) }
        ensures err { OnErr result (KeepsFront out.old.items out.new.items) };
}

/// A row without texts. It takes no memory, and is the same at each lexical level.
pub trait NumberRow: Drop + Sized {
    /// How its numbers are laid out.
    ghost numbers: { RowLayout Self };

    /// The row with which bytes begin, and the bytes after it.
    fn cut(bytes: &[u8]) -> Option<(Self, &[u8])>
        ensures cut { option_map (λ x. (x.0, true, x.1.now)) result ≡ take_row numbers bytes.now }
        ensures shorter { IfSome result (λ x. length x.1.now < length bytes.now) };

    /// How many bytes a row takes at least.
    fn least_bytes() -> usize
        ensures { (row : Self) → result ≤ length (row_spelling numbers row) };

    /// Appends the numbers of a row.
    fn append(&self, out: &mut Vec<u8>) -> Result<(), AllocError>
        ensures ok { OnOk result (out.new.items ≡ out.old.items ++ row_spelling numbers self.now) }
        ensures err { OnErr result (out.new.items ≡ out.old.items) };
}

impl<R: NumberRow> FieldRow for R {
    ghost layout = { λ level. R.numbers };

    fn take_front(_alloc: Global, _level: u8, bytes: &[u8]) -> Taken<'_, R> {
        let Some((row, rest)) = R::cut(bytes) else {
            return Ok(None);
        };
        Ok(Some((row, true, rest)))
    }

    fn least_size() -> usize {
        R::least_bytes()
    }

    fn put(&self, _level: u8, out: &mut Vec<u8>) -> Result<(), AllocError> {
        self.append(out)
    }
}

/// The rows of a field.
#[tactic(auto, using(crate::proofs::RowWalk::begins))]
pub fn read_rows<R: FieldRow>(
    alloc: Global,
    level: u8,
    bytes: &[u8],
) -> Result<Items<R>, FieldRefusal>
    ensures { Gives result (field_content (R.layout level) level bytes.now) }
{
    let Some(body) = field_body_at(level, bytes) else {
        return Err(FieldRefusal::BadField);
    };
    other_rows(alloc, level, body, Items::make(alloc), true, body)
}

/// The rows of a field, with the memory for all of them taken at once: it is filled with copies of `blank`, and the rows
/// are written over them. Rows are first cut by chunks of `N` bytes; the others follow from the first that doesn't fill
/// its chunk.
pub fn read_many_rows<R: FieldRow + Copy, const N: usize>(
    alloc: Global,
    level: u8,
    bytes: &[u8],
    blank: R,
) -> Result<Items<R>, FieldRefusal>
    requires { (0 < N) × (N < 100) }
    ensures { Gives result (field_content (R.layout level) level bytes.now) }
{
    let Some(body) = field_body_at(level, bytes) else {
        return Err(FieldRefusal::BadField);
    };
    let (chunks, _) = body.as_chunks::<N>();
    let mut rows = Vec::new(alloc);
    rows.resize(chunks.len(), blank)?;
    written_rows(alloc, level, body, chunks, rows)
}

/// The row that fills a chunk of bytes, and whether its texts are plain.
fn row_of_chunk<R: FieldRow>(
    alloc: Global,
    level: u8,
    chunk: &[u8],
) -> Result<Option<(R, bool)>, AllocError>
    ensures { IfOk result (λ row. IfSome row (λ x. take_row (R.layout level) chunk.now ≡ Some (x.0, x.1, []))) }
{
    match R::take_front(alloc, level, chunk)? {
        Some((row, is_plain, [])) => Ok(Some((row, is_plain))),
        _ => Ok(None),
    }
}

/// The rows of a field before its terminator, those that fill their chunks written over a list.
fn written_rows<R: FieldRow, const N: usize>(
    alloc: Global,
    level: u8,
    body: &[u8],
    chunks: &[[u8; N]],
    mut rows: Vec<R>,
) -> Result<Items<R>, FieldRefusal>
    requires size { (0 < N) × (N < 100) }
    requires chunks { chunks.now ≡ first_chunks N (length body.now / N) body.now }
    requires count { length rows.items ≡ length body.now / N }
    requires chunk_count { length chunks.now ≡ length body.now / N }
    ensures { Gives result (content_of_rows (rows_from (R.layout level) (length body.now) body.now)) }
{
    let mut all_plain = true;
    for place in 0..chunks.len() {
        let Some((row, is_plain)) = row_of_chunk(alloc, level, &chunks[place])? else {
            return rows_behind(alloc, level, body, rows, all_plain, place, place * N);
        };
        rows[place] = row;
        all_plain &= is_plain;
    }
    let count = chunks.len();
    rows_behind(alloc, level, body, rows, all_plain, count, count * N)
}

/// The rows of a field before its terminator, of which the first `count` are written and take `size` bytes.
fn rows_behind<R: FieldRow>(
    alloc: Global,
    level: u8,
    body: &[u8],
    mut rows: Vec<R>,
    all_plain: bool,
    count: usize,
    size: usize,
) -> Result<Items<R>, FieldRefusal>
    requires walk { with_front (take count rows.items) all_plain (rows_from (R.layout level) (length body.now - count) (drop size body.now)) ≡
        rows_from (R.layout level) (length body.now) body.now }
    requires written { count ≤ length rows.items }
    requires room { count ≤ size }
    requires within { size ≤ length body.now }
    ensures { Gives result (content_of_rows (rows_from (R.layout level) (length body.now) body.now)) }
{
    rows.truncate(count);
    let (_, rest) = body.split_at(size);
    other_rows(alloc, level, body, Items::of_vec(rows), all_plain, rest)
}

/// The rows of a field before its terminator, of which the first are cut. A text that isn't plain counts after all rows
/// are whole.
fn other_rows<R: FieldRow>(
    alloc: Global,
    level: u8,
    body: &[u8],
    mut rows: Items<R>,
    mut all_plain: bool,
    mut rest: &[u8],
) -> Result<Items<R>, FieldRefusal>
    requires walk { with_front rows all_plain (rows_from (R.layout level) (length body.now - length rows) rest.now) ≡
        rows_from (R.layout level) (length body.now) body.now }
    requires room { length rest.now + length rows ≤ length body.now }
    ensures { Gives result (content_of_rows (rows_from (R.layout level) (length body.now) body.now)) }
{
    while !rest.is_empty() {
        let Some((row, is_plain, after)) = R::take_front(alloc, level, rest)? else {
            return Err(FieldRefusal::BadField);
        };
        rows.push(row)?;
        all_plain &= is_plain;
        rest = after;
    }
    if !all_plain {
        return Err(FieldRefusal::BadText);
    }
    Ok(rows)
}
