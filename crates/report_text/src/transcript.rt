//! The lines of a session.

ghost use Rattle.std.specs.Prelude.{◌≡◌, ◌++◌, [], IfOk, OnErr, OnOk};
ghost use Rattle.history_spec.specs.ReportText.{draft_line, list_lines, reply_line};

use crate::first::first_findings;
use crate::reply::{LINE_ROOM, push_reply, push_state};
use cell_bench::Bench;
use cell_findings::push_findings;
use history_spec::Reply;
use std::alloc::{AllocError, Global};
use std::marker::Model;
use text_lines::{push_bytes, push_number, push_text};

/// The lines of a session, one command's after the other's. It is seen as its bytes. An `Err` of a call means out of memory, and leaves the
/// lines as they were.
#[derive(Debug)]
pub struct Transcript {
    lines: Vec<u8>,
}

impl Drop for Transcript {
    fn drop(self) {
        let Transcript { lines: _ } = self;
    }
}

impl Model for Transcript {
    ghost use Rattle.std.specs.Prelude.{List, ℕ};

    ghost Value = { List ℕ };

    ghost view = { λ t. t.lines.items };
}

/// Appends the line of how many edits are in the draft, and after an `Err` perhaps a part of it.
fn push_draft(out: &mut Vec<u8>, count: u32) -> Result<(), AllocError>
    ensures { OnOk result (out.new.items ≡ out.old.items ++ draft_line count) }
{
    push_text(out, "draft")?;
    push_number(out, count)?;
    push_text(out, "\n")
}

/// The lines of a command that shows at most so many findings of a bench's cell.
fn list_text(alloc: Global, seen: u32, shown: u32, bench: &Bench) -> Result<Vec<u8>, AllocError>
    ensures { IfOk result (λ text. text.items ≡ list_lines seen shown bench.now) }
{
    let first = first_findings(alloc, bench.findings(), shown as usize)?;
    let mut text = Vec::new(alloc);
    push_state(&mut text, "list", "seen", seen, bench.finding_count())?;
    push_findings(&mut text, &first)?;
    Ok(text)
}

impl Transcript {
    /// No lines.
    pub fn make(alloc: Global) -> Transcript
        ensures { result ≡ [] }
    {
        Transcript {
            lines: Vec::new(alloc),
        }
    }

    /// The lines.
    pub fn lines(&self) -> &[u8]
        ensures { result.now ≡ self.now }
    {
        self.lines.as_slice()
    }

    /// Appends the line of an answer. An `Err` means out of memory, and leaves the lines as they were.
    pub fn push_reply(&mut self, reply: &Reply) -> Result<(), AllocError>
        ensures ok { OnOk result (self.new ≡ self.old ++ reply_line reply.now) }
        ensures err { OnErr result (self.new ≡ self.old) }
    {
        push_reply(&mut self.lines, reply)
    }

    /// Appends the line after a local command: how many edits are in the draft. An `Err` means out of memory, and leaves the lines as they were.
    pub fn push_draft(&mut self, count: u32) -> Result<(), AllocError>
        ensures ok { OnOk result (self.new ≡ self.old ++ draft_line count) }
        ensures err { OnErr result (self.new ≡ self.old) }
    {
        let mut line = Vec::with_capacity(*self.lines.allocator(), LINE_ROOM)?;
        push_draft(&mut line, count)?;
        push_bytes(&mut self.lines, &line)
    }

    /// Appends the lines of a command that shows at most so many findings of a desk's copy of the cell: the number of the commit after
    /// which the copy is so, how many findings there are, and the first of them. An `Err` means out of memory, and leaves the lines as they
    /// were.
    pub fn push_list(&mut self, seen: u32, shown: u32, bench: &Bench) -> Result<(), AllocError>
        ensures ok { OnOk result (self.new ≡ self.old ++ list_lines seen shown bench.now) }
        ensures err { OnErr result (self.new ≡ self.old) }
    {
        let lines = list_text(*self.lines.allocator(), seen, shown, bench)?;
        push_bytes(&mut self.lines, &lines)
    }
}
