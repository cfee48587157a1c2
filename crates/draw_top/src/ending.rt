//! How a call ends.

ghost use Rattle.std.specs.Prelude.{◌≡◌, ◌++◌, ◌∷◌, [], OnErr, OnOk};
ghost use Rattle.text_spec.specs.Lines.{line as line_of};
ghost use Rattle.draw_top.specs.Endings.{bad_cell_line, ending_line, ending_number};

use s57_types::CellFault;
use std::alloc::AllocError;
use text_lines::{push_bytes, push_numbered, push_text, push_word};

/// How a call of the program ended. The numbers and the words are those of `check`.
#[derive(Clone, Copy, Debug, PartialEq, Eq)]
pub enum Ending {
    /// The picture was written whole.
    Done,
    /// The words aren't one name.
    Usage,
    /// The file isn't there.
    Absent,
    /// The file has this first fault.
    BadCell(CellFault),
    /// Reading the file failed.
    ReadFault,
    /// Writing failed.
    WriteFault,
    /// The file has more than 16,777,216 bytes.
    TooLarge,
    /// Out of memory.
    NoMemory,
    /// The cell has more than 262,144 findings.
    TooManyFindings,
}

impl Ending {
    /// The program's exit status.
    pub fn number(self) -> u8
        ensures { result ≡ ending_number self }
    {
        match self {
            Ending::Done => 0,
            Ending::Usage => 2,
            Ending::Absent => 3,
            Ending::BadCell(_) => 4,
            Ending::ReadFault => 6,
            Ending::WriteFault => 7,
            Ending::TooLarge => 8,
            Ending::NoMemory => 9,
            Ending::TooManyFindings => 12,
        }
    }
}

impl From<AllocError> for Ending {
    ghost use Rattle.draw_top.specs.declared.ending.Ending.TheVariants.{NoMemory};

    ghost from_gives = { λ _ ending. ending ≡ NoMemory };

    fn from(_error: AllocError) -> Ending {
        Ending::NoMemory
    }
}

/// Appends a line that ends with the file's name.
fn push_named(out: &mut Vec<u8>, text: &str, name: &str) -> Result<(), AllocError>
    ensures { OnOk result (out.new.items ≡ out.old.items ++ line_of text.now (name.now ∷ [])) }
{
    push_text(out, text)?;
    push_word(out, name)?;
    push_text(out, "\n")
}

/// Appends the line of a bad cell.
fn push_bad_cell(out: &mut Vec<u8>, fault: CellFault) -> Result<(), AllocError>
    ensures { OnOk result (out.new.items ≡ out.old.items ++ bad_cell_line fault) }
{
    push_text(out, "enc_draw: bad cell")?;
    push_numbered(out, "record", fault.number)?;
    push_numbered(out, "offset", fault.offset)?;
    push_numbered(out, "code", u32::from(fault.code))?;
    push_text(out, "\n")
}

/// Appends the same as `push_ending`, and after an `Err` perhaps a part of the line.
fn push_line(out: &mut Vec<u8>, ending: Ending, name: &str) -> Result<(), AllocError>
    ensures { OnOk result (out.new.items ≡ out.old.items ++ ending_line name.now ending) }
{
    match ending {
        Ending::Done => Ok(()),
        Ending::Usage => push_text(out, "enc_draw: usage\n"),
        Ending::Absent => push_named(out, "enc_draw: absent", name),
        Ending::BadCell(fault) => push_bad_cell(out, fault),
        Ending::ReadFault => push_named(out, "enc_draw: read fault", name),
        Ending::WriteFault => push_text(out, "enc_draw: write fault\n"),
        Ending::TooLarge => push_named(out, "enc_draw: too large", name),
        Ending::NoMemory => push_text(out, "enc_draw: no memory\n"),
        Ending::TooManyFindings => push_text(out, "enc_draw: too many findings\n"),
    }
}

/// Appends the line of an ending, or nothing where all is done. `name` is that of the file.
///
/// An `Err` means out of memory, and leaves the text as it was.
pub fn push_ending(out: &mut Vec<u8>, ending: Ending, name: &str) -> Result<(), AllocError>
    ensures ok { OnOk result (out.new.items ≡ out.old.items ++ ending_line name.now ending) }
    ensures err { OnErr result (out.new.items ≡ out.old.items) }
{
    let mut line = Vec::new(*out.allocator());
    push_line(&mut line, ending, name)?;
    push_bytes(out, &line)
}
