//! How a call ends.

ghost use Rattle.std.specs.Prelude.{◌≡◌, ◌++◌, ◌∷◌, [], OnErr, OnOk, decimal};
ghost use Rattle.text_spec.specs.Lines.{line as spec_line, spaced};
ghost use Rattle.report_text.specs.StatusText.{fault_words, status_line, status_number};

use crate::reply::push_refusal;
use history_spec::StateRefusal;
use itoa::Buffer;
use s57_types::{CellFault, Text};
use std::alloc::{AllocError, Global};
use text_lines::{push_bytes, push_numbered, push_text, push_word};

/// How a call of the program ended.
#[derive(Debug, Drop)]
pub enum Status {
    /// The output was written whole.
    Done,
    /// The words are in none of the forms.
    Usage,
    /// An input file isn't there.
    Absent(Text),
    /// The cell file has this first fault.
    BadCell(CellFault),
    /// A script has a fault: the session, the line and the code.
    BadScript(u32, u32, u8),
    /// Reading an input file failed.
    ReadFault(Text),
    /// Writing failed.
    WriteFault,
    /// An input file has more bytes than its limit.
    TooLarge(Text),
    /// Out of memory.
    NoMemory,
    /// The order file doesn't fit the scripts: the first bad place.
    BadOrder(u32),
    /// A rendezvous gave up: the session and its shared command.
    Stuck(u32, u32),
    /// The cell has too many findings.
    TooManyFindings,
    /// The update file has this first fault.
    BadUpdate(CellFault),
    /// The cell doesn't take the edits.
    Refused(StateRefusal),
    /// The journal has a fault at this place.
    BadJournal(u64),
    /// The disk that holds the journal failed.
    DiskFault,
    /// Edges can't be split or joined so: the number of the cause.
    OpRefused(u32),
    /// The journal has this many commits, which are too many.
    JournalFull(u64),
}

impl Status {
    /// The number of the status, which is the program's exit status.
    pub fn number(&self) -> u8
        ensures { result ≡ status_number self.now }
    {
        match self {
            Status::Done => 0,
            Status::Usage => 2,
            Status::Absent(_) => 3,
            Status::BadCell(_) => 4,
            Status::BadScript(..) => 5,
            Status::ReadFault(_) => 6,
            Status::WriteFault => 7,
            Status::TooLarge(_) => 8,
            Status::NoMemory => 9,
            Status::BadOrder(_) => 10,
            Status::Stuck(..) => 11,
            Status::TooManyFindings => 12,
            Status::BadUpdate(_) => 14,
            Status::Refused(_) => 15,
            Status::BadJournal(_) => 16,
            Status::DiskFault => 17,
            Status::OpRefused(_) => 18,
            Status::JournalFull(_) => 19,
        }
    }
}

impl From<AllocError> for Status {
    ghost use Rattle.report_text.specs.declared.status.Status.TheVariants.{NoMemory};

    ghost from_gives = { λ _ status. status ≡ NoMemory };

    fn from(_error: AllocError) -> Status {
        Status::NoMemory
    }
}

/// Appends the line of a status, with its line feed, or nothing where all is done.
///
/// An `Err` means out of memory, and leaves the text as it was.
pub fn print_status(alloc: Global, status: &Status, out: &mut Vec<u8>) -> Result<(), AllocError>
    ensures ok { OnOk result (out.new.items ≡ out.old.items ++ status_line status.now) }
    ensures err { OnErr result (out.new.items ≡ out.old.items) }
{
    let mut line = Vec::new(alloc);
    push_status(&mut line, status)?;
    push_bytes(out, &line)
}

/// Appends the same, and after an `Err` perhaps a part of the line.
fn push_status(out: &mut Vec<u8>, status: &Status) -> Result<(), AllocError>
    ensures { OnOk result (out.new.items ≡ out.old.items ++ status_line status.now) }
{
    match status {
        Status::Done => Ok(()),
        Status::Usage => push_text(out, "enc_cell: usage\n"),
        Status::Absent(name) => push_named(out, "enc_cell: absent", name),
        Status::BadCell(fault) => push_bad_cell(out, *fault),
        Status::BadScript(session, line, code) => push_bad_script(out, *session, *line, *code),
        Status::ReadFault(name) => push_named(out, "enc_cell: read fault", name),
        Status::WriteFault => push_text(out, "enc_cell: write fault\n"),
        Status::TooLarge(name) => push_named(out, "enc_cell: too large", name),
        Status::NoMemory => push_text(out, "enc_cell: no memory\n"),
        Status::BadOrder(place) => push_bad_order(out, *place),
        Status::Stuck(desk, serial) => push_stuck(out, *desk, *serial),
        Status::TooManyFindings => push_text(out, "enc_cell: too many findings\n"),
        Status::BadUpdate(fault) => push_bad_update(out, *fault),
        Status::Refused(refusal) => push_refusal(out, "enc_cell: refused", *refusal),
        Status::BadJournal(place) => push_large(out, "enc_cell: bad journal", "place", *place),
        Status::DiskFault => push_text(out, "enc_cell: disk fault\n"),
        Status::OpRefused(cause) => push_op_refused(out, *cause),
        Status::JournalFull(count) => push_large(out, "enc_cell: journal", "full", *count),
    }
}

/// Appends a line that ends with a file's name.
fn push_named(out: &mut Vec<u8>, text: &str, name: &Text) -> Result<(), AllocError>
    ensures { OnOk result (out.new.items ≡ out.old.items ++ spec_line text.now (name.now ∷ [])) }
{
    push_text(out, text)?;
    out.push(b' ')?;
    out.extend_from_slice(name.as_slice())?;
    out.push(b'\n')?;
    Ok(())
}

/// A word and its number.
#[derive(Clone, Copy)]
struct Part {
    word: &'static str,
    number: u32,
}

/// A word with its number.
fn numbered(word: &'static str, number: u32) -> Part
    ensures word { result.word.now ≡ word.now }
    ensures number { result.number ≡ number }
{
    Part { word, number }
}

/// Appends a line of a text and one number.
fn push_one(out: &mut Vec<u8>, text: &str, first: &Part) -> Result<(), AllocError>
    ensures { OnOk result (out.new.items ≡ out.old.items ++ spec_line text.now (first.now.word.now ∷ decimal first.now.number ∷ [])) }
{
    push_text(out, text)?;
    push_numbered(out, first.word, first.number)?;
    push_text(out, "\n")
}

/// Appends a line of a text and two numbers.
fn push_two(out: &mut Vec<u8>, text: &str, first: &Part, second: &Part) -> Result<(), AllocError>
    ensures { OnOk result (out.new.items ≡ out.old.items ++ spec_line text.now
        (first.now.word.now ∷ decimal first.now.number ∷ second.now.word.now ∷ decimal second.now.number ∷ [])) }
{
    push_text(out, text)?;
    push_numbered(out, first.word, first.number)?;
    push_numbered(out, second.word, second.number)?;
    push_text(out, "\n")
}

/// Appends a line of a text and three numbers.
fn push_three(
    out: &mut Vec<u8>,
    text: &str,
    first: &Part,
    second: &Part,
    third: &Part,
) -> Result<(), AllocError>
    ensures { OnOk result (out.new.items ≡ out.old.items ++ spec_line text.now
        (first.now.word.now ∷ decimal first.now.number ∷ second.now.word.now ∷ decimal second.now.number
        ∷ third.now.word.now ∷ decimal third.now.number ∷ [])) }
{
    push_text(out, text)?;
    push_numbered(out, first.word, first.number)?;
    push_numbered(out, second.word, second.number)?;
    push_numbered(out, third.word, third.number)?;
    push_text(out, "\n")
}

/// Appends a line of a text and one number of 64 bits.
fn push_large(out: &mut Vec<u8>, text: &str, word: &str, number: u64) -> Result<(), AllocError>
    ensures { OnOk result (out.new.items ≡ out.old.items ++ spec_line text.now (word.now ∷ decimal number ∷ [])) }
{
    push_text(out, text)?;
    push_word(out, word)?;
    push_large_number(out, number)?;
    push_text(out, "\n")
}

/// Appends a number of 64 bits behind a space.
fn push_large_number(out: &mut Vec<u8>, number: u64) -> Result<(), AllocError>
    ensures { OnOk result (out.new.items ≡ out.old.items ++ spaced (decimal number)) }
{
    let mut buffer = Buffer::new();
    push_word(out, buffer.format(number))
}

/// Appends the line of a bad cell.
fn push_bad_cell(out: &mut Vec<u8>, fault: CellFault) -> Result<(), AllocError>
    ensures { OnOk result (out.new.items ≡ out.old.items ++ status_line (Status.BadCell fault)) }
{
    push_fault(out, "enc_cell: bad cell", fault)
}

/// Appends the line of a bad update.
fn push_bad_update(out: &mut Vec<u8>, fault: CellFault) -> Result<(), AllocError>
    ensures { OnOk result (out.new.items ≡ out.old.items ++ status_line (Status.BadUpdate fault)) }
{
    push_fault(out, "enc_cell: bad update", fault)
}

/// Appends a line of a text and a fault: its record, its place and its code.
fn push_fault(out: &mut Vec<u8>, text: &str, fault: CellFault) -> Result<(), AllocError>
    ensures { OnOk result (out.new.items ≡ out.old.items ++ spec_line text.now (fault_words fault)) }
{
    let record = numbered("record", fault.number);
    let offset = numbered("offset", fault.offset);
    let code = numbered("code", u32::from(fault.code));
    push_three(out, text, &record, &offset, &code)
}

/// Appends the line of a bad script.
fn push_bad_script(out: &mut Vec<u8>, session: u32, line: u32, code: u8) -> Result<(), AllocError>
    ensures { OnOk result (out.new.items ≡ out.old.items ++ status_line (Status.BadScript session line code)) }
{
    let session = numbered("session", session);
    let line = numbered("line", line);
    let code = numbered("code", u32::from(code));
    push_three(out, "enc_cell: bad script", &session, &line, &code)
}

/// Appends the line of a bad order.
fn push_bad_order(out: &mut Vec<u8>, place: u32) -> Result<(), AllocError>
    ensures { OnOk result (out.new.items ≡ out.old.items ++ status_line (Status.BadOrder place)) }
{
    push_one(out, "enc_cell: bad order", &numbered("place", place))
}

/// Appends the line of a rendezvous that gave up.
fn push_stuck(out: &mut Vec<u8>, desk: u32, serial: u32) -> Result<(), AllocError>
    ensures { OnOk result (out.new.items ≡ out.old.items ++ status_line (Status.Stuck desk serial)) }
{
    push_two(
        out,
        "enc_cell: stuck",
        &numbered("desk", desk),
        &numbered("serial", serial),
    )
}

/// Appends the line of edges that can't be split or joined.
fn push_op_refused(out: &mut Vec<u8>, cause: u32) -> Result<(), AllocError>
    ensures { OnOk result (out.new.items ≡ out.old.items ++ status_line (Status.OpRefused cause)) }
{
    push_one(out, "enc_cell: op", &numbered("refused", cause))
}
