//! The line of a generated cell, and that of a drill.

ghost use Rattle.std.specs.Prelude.{◌≡◌, ◌++◌, ◌∷◌, [], OnErr, OnOk, codes, decimal, length};
ghost use Rattle.text_spec.specs.Lines.{spaced_words};
ghost use Rattle.drill_run.specs.DrillText.{drill_line, made_line};

use crate::counts::Drilled;
use cell_bench::narrow;
use s57_types::Cell;
use std::alloc::{AllocError, Global};
use text_lines::{push_bytes, push_number, push_numbered, push_text};

/// Appends how many records of each kind a cell has.
fn push_records(out: &mut Vec<u8>, cell: &Cell) -> Result<(), AllocError>
    ensures { OnOk result (out.new.items ≡ out.old.items ++ spaced_words (codes "vi" ∷ decimal (length cell.now.vi) ∷ codes "vc" ∷ decimal (length cell.now.vc)
        ∷ codes "ve" ∷ decimal (length cell.now.ve) ∷ codes "fe" ∷ decimal (length cell.now.fe) ∷ [])) }
{
    push_numbered(out, "vi", narrow(cell.vi.len())?)?;
    push_numbered(out, "vc", narrow(cell.vc.len())?)?;
    push_numbered(out, "ve", narrow(cell.ve.len())?)?;
    push_numbered(out, "fe", narrow(cell.fe.len())?)
}

/// Appends the line of a generated cell, whose file has so many bytes.
///
/// An `Err` means out of memory, and leaves the text as it was.
pub fn push_made(
    alloc: Global,
    cell: &Cell,
    bytes: usize,
    out: &mut Vec<u8>,
) -> Result<(), AllocError>
    ensures ok { OnOk result (out.new.items ≡ out.old.items ++ made_line cell.now bytes) }
    ensures err { OnErr result (out.new.items ≡ out.old.items) }
{
    let mut line = Vec::new(alloc);
    push_text(&mut line, "made")?;
    push_records(&mut line, cell)?;
    push_numbered(&mut line, "bytes", narrow(bytes)?)?;
    push_text(&mut line, "\n")?;
    push_bytes(out, &line)
}

/// Appends the line of a drill.
///
/// An `Err` means out of memory, and leaves the text as it was.
pub fn push_drill(
    alloc: Global,
    size: u32,
    sessions: u32,
    drilled: &Drilled,
    out: &mut Vec<u8>,
) -> Result<(), AllocError>
    ensures ok { OnOk result (out.new.items ≡ out.old.items ++ drill_line size sessions drilled.now) }
    ensures err { OnErr result (out.new.items ≡ out.old.items) }
{
    let mut line = Vec::new(alloc);
    push_text(&mut line, "drill")?;
    push_number(&mut line, size)?;
    push_number(&mut line, sessions)?;
    push_numbered(&mut line, "accepted", drilled.accepted)?;
    push_numbered(&mut line, "refused", drilled.refused)?;
    push_numbered(&mut line, "findings", drilled.findings)?;
    push_text(&mut line, "\n")?;
    push_bytes(out, &line)
}
