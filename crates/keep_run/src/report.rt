//! The text of a session over a journal, and the bench of the cell that it leaves.

ghost use Rattle.std.specs.Prelude.{◌≡◌, ◌++◌, ◌∷◌, [], IfOk, OnOk, codes, decimal};
ghost use Rattle.commit_book.specs.Books.{history_of};
ghost use Rattle.text_spec.specs.Lines.{line};
ghost use Rattle.keep_run.specs.Runs.{text_of};

use cell_bench::Bench;
use commit_book::Book;
use report_text::{Transcript, print_findings};
use s57_types::Duplicate;
use std::alloc::{AllocError, Global};
use text_lines::{push_bytes, push_number, push_text};

/// The text that is to be put, and the bench of the cell whose file is to be made then.
pub(crate) struct Kept {
    pub(crate) text: Vec<u8>,
    pub(crate) bench: Bench,
}

impl Drop for Kept {
    fn drop(self) {
        let Kept { text: _, bench: _ } = self;
    }
}

impl Kept {
    /// The text, and the bench.
    pub(crate) fn into_parts(self) -> (Vec<u8>, Bench)
        ensures text { result.0 ≡ self.text }
        ensures bench { result.1 ≡ self.bench }
    {
        let Kept { text, bench } = self;
        (text, bench)
    }
}

/// Appends the lines in front of those of the session: how many commits the journal had, and the session's number.
fn push_head(out: &mut Vec<u8>, count: u32) -> Result<(), AllocError>
    ensures { OnOk result (out.new.items ≡ out.old.items
        ++ (line (codes "kept") (decimal count ∷ []) ++ line (codes "session") (decimal 1 ∷ []))) }
{
    push_text(out, "kept")?;
    push_number(out, count)?;
    push_text(out, "\nsession")?;
    push_number(out, 1)?;
    push_text(out, "\n")
}

/// The text of a session whose journal had so many commits.
fn text_with(
    alloc: Global,
    count: u32,
    transcript: &Transcript,
    bench: &Bench,
) -> Result<Vec<u8>, AllocError>
    ensures { IfOk result (λ text. text.items ≡ text_of count transcript.now bench.now) }
{
    let mut text = Vec::new(alloc);
    push_head(&mut text, count)?;
    push_bytes(&mut text, transcript.lines())?;
    print_findings(alloc, bench, &mut text)?;
    Ok(text)
}

/// The text of a session whose journal had so many commits, and the bench of the cell that it leaves: the book's own, shared, so that the
/// book can be given back before the file is made.
///
/// An `Err` means out of memory.
pub(crate) fn report(
    alloc: Global,
    count: u32,
    transcript: &Transcript,
    book: &Book,
) -> Result<Kept, AllocError>
    ensures text { IfOk result (λ kept. kept.text.items ≡ text_of count transcript.now (history_of book.now).cell) }
    ensures bench { IfOk result (λ kept. kept.bench ≡ (history_of book.now).cell) }
{
    let text = text_with(alloc, count, transcript, book.bench())?;
    let bench = book.bench().copy(alloc)?;
    Ok(Kept { text, bench })
}
