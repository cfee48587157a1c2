//! The program as one call over a file store and an output sink.

ghost use Rattle.std.specs.Prelude.{◌≡◌, ◌≢◌, ◌⊎◌, ◌↔◌, ◌<◌, ◌≤◌, ◌∷◌, [], ℕ, List, IfErr, IfOk, OnOk, Ok, Err, length, string_bytes, map};
ghost use Rattle.cell_spec.specs.Writable.{IsWritable};
ghost use Rattle.enc_outside.specs.Count.{Rose};
ghost use Rattle.enc_outside.specs.Files.{StaysUntold, Told};
ghost use Rattle.file_spec.specs.DecodedCell.{decoded_cell};
ghost use Rattle.whole_files.specs.Output.{Adds, AddsFront};
ghost use Rattle.draw_top.specs.Drawing.{CountsFaults, IsAnswer, IsCause, drawn_bytes, drawn_cell, ending_of};

use crate::ending::Ending;
use cell_findings::{LoadRefusal, find_all};
use cell_picture::push_picture;
use cell_read::{ReadRefusal, read_cell};
use decode_laws::decoded_cell_is_writable;
use enc_outside::{Shelf, Sink};
use look_counter::start_counter;
use s57_types::Cell;
use std::alloc::Global;
use std::marker::Brand;
use std::sync::ledger::{Blank, Ledger};
use whole_files::{InputRefusal, put_all, read_file};

/// How many bytes a cell file may have.
const CELL_LIMIT: usize = 16_777_216;

/// How many findings a cell may have.
const FINDING_LIMIT: usize = 262_144;

/// The picture of a cell with all its findings. Its own look-ups are counted, and those of pairs that are judged.
fn draw_counted<L: Ledger>(alloc: Global, cell: &Cell, blank: Blank) -> Result<Vec<u8>, Ending>
    requires writable { IsWritable cell.now }
    requires name { blank.name ≡ L.name }
    requires parts { blank.parts ≡ L.parts }
    requires some_part { 0 < L.parts }
    ensures ok { IfOk result (λ text. drawn_cell cell.now ≡ Ok text.items) }
    ensures err { IfErr result (λ ending. (drawn_cell cell.now ≡ Err ending) ⊎ (ending ≡ Ending.NoMemory)) }
{
    let mut steps = start_counter::<L>(blank);
    let findings = match find_all(alloc, cell, FINDING_LIMIT, &mut steps) {
        Ok(findings) => findings,
        Err(LoadRefusal::FindingsFull) => return Err(Ending::TooManyFindings),
        Err(LoadRefusal::NoMemory) => return Err(Ending::NoMemory),
    };
    let mut text = Vec::new(alloc);
    push_picture(&mut text, cell, findings.as_slice(), &mut steps)?;
    Ok(text)
}

/// The picture of a cell with all its findings.
fn draw_cell(alloc: Global, cell: &Cell) -> Result<Vec<u8>, Ending>
    requires { IsWritable cell.now }
    ensures ok { IfOk result (λ text. drawn_cell cell.now ≡ Ok text.items) }
    ensures err { IfErr result (λ ending. (drawn_cell cell.now ≡ Err ending) ⊎ (ending ≡ Ending.NoMemory)) }
{
    draw_counted::<Brand>(alloc, cell, Blank::new(1))
}

/// The cell of a file.
fn decode(alloc: Global, bytes: &[u8]) -> Result<Cell, Ending>
    requires { length bytes.now ≤ 16777216 }
    ensures ok { IfOk result (λ cell. decoded_cell bytes.now ≡ Ok cell) }
    ensures writable { IfOk result IsWritable }
    ensures err { IfErr result (λ ending. (drawn_bytes bytes.now ≡ Err ending) ⊎ (ending ≡ Ending.NoMemory)) }
{
    decoded_cell_is_writable();
    match read_cell(alloc, bytes) {
        Ok(cell) => Ok(cell),
        Err(ReadRefusal::Fault(fault)) => Err(Ending::BadCell(fault)),
        Err(ReadRefusal::NoMemory) => Err(Ending::NoMemory),
    }
}

/// The picture of the cell that bytes stand for.
fn draw_bytes(alloc: Global, bytes: &[u8]) -> Result<Vec<u8>, Ending>
    requires { length bytes.now ≤ 16777216 }
    ensures ok { IfOk result (λ text. drawn_bytes bytes.now ≡ Ok text.items) }
    ensures err { IfErr result (λ ending. (drawn_bytes bytes.now ≡ Err ending) ⊎ (ending ≡ Ending.NoMemory)) }
{
    let cell = decode(alloc, bytes)?;
    draw_cell(alloc, &cell)
}

/// The ending of a refused input.
fn refused(refusal: InputRefusal) -> Ending
    ensures { result ≡ ending_of refusal }
{
    match refusal {
        InputRefusal::Absent => Ending::Absent,
        InputRefusal::ReadFault => Ending::ReadFault,
        InputRefusal::TooLarge => Ending::TooLarge,
        InputRefusal::NoMemory => Ending::NoMemory,
    }
}

/// The picture of a file's cell.
#[tactic(auto, using(crate::proofs::Causes::answer_of_bytes, crate::proofs::Causes::answer_of_refusal))]
fn draw_file<H: Shelf>(alloc: Global, shelf: &mut H, name: &str) -> Result<Vec<u8>, Ending>
    ensures answer { IsAnswer name.now (H.files shelf.old) (H.read_faults shelf.old) (H.read_faults shelf.new) result }
    ensures kept { OnOk result (H.read_faults shelf.new ≡ H.read_faults shelf.old) }
    ensures counted { (puts : ℕ) → IfErr result (CountsFaults (H.read_faults shelf.old) (H.read_faults shelf.new) puts puts) }
    ensures files { H.files shelf.new ≡ H.files shelf.old }
    ensures read_faults { H.read_faults shelf.old ≤ H.read_faults shelf.new }
    ensures write_faults { H.write_faults shelf.new ≡ H.write_faults shelf.old }
{
    match read_file(alloc, shelf, name, CELL_LIMIT) {
        Ok(bytes) => draw_bytes(alloc, &bytes),
        Err(refusal) => Err(refused(refusal)),
    }
}

/// Puts a picture.
fn put_picture<O: Sink>(out: &mut O, text: &[u8]) -> Ending
    ensures done { result ≡ Ending.Done → Told (Adds text.now) (O.written out.old) (O.written out.new) }
    ensures fault { result ≡ Ending.WriteFault
        → Told (AddsFront text.now) (O.written out.old) (O.written out.new) × Rose (O.faults out.old) (O.faults out.new) }
    ensures either { (result ≡ Ending.Done) ⊎ (result ≡ Ending.WriteFault) }
    ensures kept { result ≡ Ending.Done → O.faults out.new ≡ O.faults out.old }
    ensures untold { StaysUntold (O.written out.old) (O.written out.new) }
    ensures faults { O.faults out.old ≤ O.faults out.new }
{
    match put_all(out, text) {
        Ok(()) => Ending::Done,
        Err(_) => Ending::WriteFault,
    }
}

/// Puts the picture of the cell that the one word names, with all its findings.
#[tactic(auto, using(crate::proofs::Causes::cause_of_refusal, crate::proofs::Causes::cause_of_put, crate::proofs::Causes::no_usage))]
pub fn draw<H: Shelf, O: Sink>(
    alloc: Global,
    words: &[String],
    shelf: &mut H,
    out: &mut O,
) -> Ending
    ensures usage { (result ≡ Ending.Usage) ↔ (length words.now ≢ 1) }
    ensures silent { result ≡ Ending.Usage → O.written out.new ≡ O.written out.old }
    ensures cause { (name : List ℕ) → map string_bytes words.now ≡ name ∷ []
        → IsCause name (H.files shelf.old) (H.read_faults shelf.old) (H.read_faults shelf.new)
        (O.written out.old) (O.written out.new) (O.faults out.old) (O.faults out.new) result }
    ensures counted { CountsFaults (H.read_faults shelf.old) (H.read_faults shelf.new) (O.faults out.old) (O.faults out.new) result }
    ensures untold_put { StaysUntold (O.written out.old) (O.written out.new) }
    ensures files { H.files shelf.new ≡ H.files shelf.old }
    ensures read_faults { H.read_faults shelf.old ≤ H.read_faults shelf.new }
    ensures write_faults { H.write_faults shelf.new ≡ H.write_faults shelf.old }
    ensures put_faults { O.faults out.old ≤ O.faults out.new }
{
    let [name] = words else {
        return Ending::Usage;
    };
    match draw_file(alloc, shelf, name.as_str()) {
        Ok(text) => put_picture(out, &text),
        Err(ending) => ending,
    }
}
