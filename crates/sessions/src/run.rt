//! Sessions run by one thread, in an order.

ghost use Rattle.std.specs.Prelude.{◌≡◌, ◌≤◌, ◌<◌, [], All, IfOk, List, OnOk, length};
ghost use Rattle.history_spec.specs.declared.entry.Entry.{Entry};
ghost use Rattle.room_laws.specs.Orders.{quotas_of};
ghost use Rattle.s57_types.specs.declared.cell.Cell.{Cell as SpecCell};
ghost use Rattle.sessions.specs.Replays.{AreEditors, AreEnded, AreEndedAs, AreServed, IsReplayed, IsShortScript, scripts_of, session_limit};
ghost use Rattle.text_spec.specs.OrderLine.{IsOrder};

use crate::editor::Editor;
use commit_book::Book;
use look_counter::start_counter;
use report_text::Transcript;
use script_text::Script;
use std::alloc::{AllocError, Global};
use std::marker::Brand;
use std::sync::ledger::{Blank, Ledger};
use std::thread::Threads;

/// How many sessions may share a cell.
pub const SESSION_LIMIT: usize = 16;

/// What is left of a run, by one thread or by several: the log of its history, and the lines of each session.
pub struct Replayed {
    pub book: Book,
    pub transcripts: Vec<Transcript>,
}

impl Drop for Replayed {
    fn drop(self) {
        let Replayed {
            book: _,
            transcripts: _,
        } = self;
    }
}

impl Replayed {
    /// The log of the history, and the lines of each session.
    pub fn into_parts(self) -> (Book, Vec<Transcript>)
        ensures book { result.0 ≡ self.book }
        ensures transcripts { result.1 ≡ self.transcripts }
    {
        let Replayed { book, transcripts } = self;
        (book, transcripts)
    }
}

/// An editor for each script, on the cell of a log.
fn open_editors(alloc: Global, book: &Book, scripts: Vec<Script>) -> Result<Vec<Editor>, AllocError>
    requires { book.now.entries ≡ [] }
    ensures scripts { IfOk result (λ editors. scripts_of editors.items ≡ scripts.items) }
    ensures opened { IfOk result (λ editors. AreEditors book.now.opening [] editors.items) }
{
    let mut editors = Vec::new(alloc);
    for script in scripts {
        editors.push(Editor::make(alloc, script, book)?)?;
    }
    Ok(editors)
}

/// Serves one editor after the other, in an order of their numbers, which count from 1.
fn serve_all<R: Threads + Sync, L: Ledger>(
    rt: &R,
    alloc: Global,
    book: &mut Book,
    editors: &mut Vec<Editor>,
    order: &[u32],
    blank: Blank,
) -> Result<(), AllocError>
    requires name { blank.name ≡ L.name }
    requires parts { blank.parts ≡ L.parts }
    requires some_part { 0 < L.parts }
    requires opened { book.old.entries ≡ [] }
    requires editors { AreEditors book.old.opening [] editors.old.items }
    requires few { length editors.old.items ≤ session_limit }
    requires short { All IsShortScript (scripts_of editors.old.items) }
    requires order { IsOrder (quotas_of (scripts_of editors.old.items)) order.now }
    ensures { OnOk result (AreServed book.old.opening (scripts_of editors.old.items) order.now book.new editors.new.items) }
{
    let mut steps = start_counter::<L>(blank);
    for number in order {
        let place = *number as usize - 1;
        editors[place].serve(rt, alloc, book, *number, &mut steps)?;
    }
    Ok(())
}

/// Each editor's lines, after the commands that are left.
fn end_all(alloc: Global, editors: Vec<Editor>) -> Result<Vec<Transcript>, AllocError>
    ensures { (c : SpecCell) (entries : List Entry) → AreEnded c entries editors.items
        → IfOk result (λ transcripts. AreEndedAs c entries (scripts_of editors.items) transcripts.items) }
{
    let mut transcripts = Vec::new(alloc);
    for editor in editors {
        transcripts.push(editor.end(alloc)?)?;
    }
    Ok(transcripts)
}

/// Runs scripts on the cell of an opened log by one thread, in an order: each number is that of a script, counted from 1, and stands there
/// as often as the script has views and commits. A session works on its own copy of the cell, which is that of its base, and there several
/// threads judge what a commit changes before the log is asked.
///
/// An `Err` means out of memory.
pub fn replay<R: Threads + Sync>(
    rt: &R,
    alloc: Global,
    book: Book,
    scripts: Vec<Script>,
    order: &[u32],
) -> Result<Replayed, AllocError>
    requires opened { book.entries ≡ [] }
    requires few { length scripts.items ≤ session_limit }
    requires short { All IsShortScript scripts.items }
    requires order { IsOrder (quotas_of scripts.items) order.now }
    ensures { IfOk result (IsReplayed book.opening scripts.items order.now) }
{
    let mut book = book;
    let mut editors = open_editors(alloc, &book, scripts)?;
    serve_all::<R, Brand>(rt, alloc, &mut book, &mut editors, order, Blank::new(1))?;
    book.known();
    let transcripts = end_all(alloc, editors)?;
    Ok(Replayed { book, transcripts })
}
