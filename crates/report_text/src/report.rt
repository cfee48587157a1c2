//! The whole report of a log.

ghost use Rattle.std.specs.Prelude.{◌≡◌, ◌++◌, ◌∷◌, [], OnErr, OnOk, codes, decimal};
ghost use Rattle.std.specs.List.{enumerate_from, flat_map};
ghost use Rattle.commit_book.specs.Books.{history_of};
ghost use Rattle.history_spec.specs.EntriesReport.{cell_told, entries_report, session_part};
ghost use Rattle.history_spec.specs.ReportText.{history_text};
ghost use Rattle.text_spec.specs.Lines.{line};

use crate::commit::push_entries;
use crate::findings::push_left;
use crate::order::push_order;
use crate::transcript::Transcript;
use cell_bench::narrow;
use commit_book::Book;
use room_laws::entries_tell_the_accepted_commits;
use std::alloc::{AllocError, Global};
use text_lines::{push_bytes, push_number, push_text};

/// Appends the first line of a session's part.
fn push_head(out: &mut Vec<u8>, session: u32) -> Result<(), AllocError>
    ensures { OnOk result (out.new.items ≡ out.old.items ++ line (codes "session") (decimal session ∷ [])) }
{
    push_text(out, "session")?;
    push_number(out, session)?;
    push_text(out, "\n")
}

/// Appends the parts of sessions, which count from 1.
fn push_sessions(out: &mut Vec<u8>, transcripts: &[Transcript]) -> Result<(), AllocError>
    ensures { OnOk result (out.new.items ≡ out.old.items ++ flat_map session_part (enumerate_from 1 transcripts.now)) }
{
    for (k, transcript) in transcripts.iter().enumerate() {
        push_head(out, narrow(k + 1)?)?;
        push_bytes(out, transcript.lines())?;
    }
    Ok(())
}

/// Appends the history's part: the accepted commits in their order.
fn push_history(alloc: Global, out: &mut Vec<u8>, book: &Book) -> Result<(), AllocError>
    ensures { OnOk result (out.new.items ≡ out.old.items
        ++ history_text (cell_told book.now.opening book.now.entries) (history_of book.now).commits) }
{
    book.known();
    entries_tell_the_accepted_commits();
    push_text(out, "history\n")?;
    push_entries(alloc, out, book.entries())
}

/// Appends the report of a log and of the lines of its sessions: the order of the entries, each session's lines, the accepted commits
/// with their edits, and the cell that is left with its findings.
///
/// An `Err` means out of memory, and leaves the text as it was.
pub fn print_report(
    alloc: Global,
    book: &Book,
    transcripts: &[Transcript],
    out: &mut Vec<u8>,
) -> Result<(), AllocError>
    ensures ok { OnOk result (out.new.items ≡ out.old.items ++ entries_report book.now.opening book.now.entries transcripts.now) }
    ensures err { OnErr result (out.new.items ≡ out.old.items) }
{
    let mut report = Vec::new(alloc);
    push_order(&mut report, book.entries())?;
    push_sessions(&mut report, transcripts)?;
    push_history(alloc, &mut report, book)?;
    push_left(&mut report, book.bench())?;
    push_bytes(out, &report)
}
