//! The cell files and the update file of a call.

ghost use Rattle.std.specs.Prelude.{◌≡◌, ◌⊎◌, ◌≤◌, Err, IfErr, IfOk, Ok, length};
ghost use Rattle.cell_findings.specs.AllFindings.{IsAllOf};
ghost use Rattle.cell_spec.specs.Writable.{IsWritable};
ghost use Rattle.export_laws.specs.DecodedTypes.{AreFileBytes};
ghost use Rattle.file_spec.specs.DecodedCell.{decoded_cell};
ghost use Rattle.history_spec.specs.Steps.{finding_limit};
ghost use Rattle.call_files.specs.Inputs.{CellIs, FileIs, IsCellOfFile, IsFile, IsInputStatus, IsJudged, IsNotOfOrder, IsNotOfText, Tells, cell_in};
ghost use Rattle.call_files.specs.Inputs.{TellsReads, cell_limit};

use crate::input::read_input;
use cell_bench::{Bench, FINDING_LIMIT, LoadRefusal};
use cell_findings::{Findings, find_all_in_threads};
use cell_read::{ReadRefusal, read_cell_in_threads};
use decode_laws::decoded_cell_is_writable;
use enc_outside::Shelf;
use recheck::load;
use report_text::Status;
use s57_types::Cell;
use std::alloc::Global;
use std::thread::Threads;

/// How many bytes a cell file may have.
const CELL_LIMIT: usize = 16_777_216;

/// A cell with its findings.
#[derive(Debug)]
pub struct Checked {
    pub cell: Cell,
    pub findings: Findings,
}

impl Drop for Checked {
    fn drop(self) {
        let Checked {
            cell: _,
            findings: _,
        } = self;
    }
}

impl Checked {
    /// The cell alone.
    pub fn into_cell(self) -> Cell
        ensures { result ≡ self.cell }
    {
        let Checked { cell, findings: _ } = self;
        cell
    }
}

/// Bytes are what a file may have.
fn are_file_bytes(bytes: &[u8])
    ensures { AreFileBytes bytes.now }
{
    // (Each byte that is read is one.)
    let _ = bytes;
}

/// The cell of a file, before its findings are counted. The file's bytes are given back then.
fn decode<R: Threads + Sync>(rt: &R, alloc: Global, bytes: Vec<u8>) -> Result<Cell, Status>
    requires small { length bytes.items ≤ cell_limit }
    ensures decoded { IfOk result (λ cell. decoded_cell bytes.items ≡ Ok cell) }
    ensures refused { IfErr result (λ status. (cell_in bytes.items ≡ Err status) ⊎ (status ≡ Status.NoMemory)) }
    ensures writable { IfOk result IsWritable }
    ensures of_file { IfOk result IsCellOfFile }
    ensures status { IfErr result (IsInputStatus (λ n. ⊥)) }
    ensures kind { IfErr result IsNotOfOrder }
    ensures text { IfErr result IsNotOfText }
{
    decoded_cell_is_writable();
    let file = bytes.as_slice();
    are_file_bytes(file);
    match read_cell_in_threads(rt, alloc, file) {
        Ok(cell) => Ok(cell),
        Err(ReadRefusal::Fault(fault)) => Err(Status::BadCell(fault)),
        Err(ReadRefusal::NoMemory) => Err(Status::NoMemory),
    }
}

/// The cell of a file, with its findings. The file's bytes are given back before these are looked for.
fn judge_cell<R: Threads + Sync>(rt: &R, alloc: Global, bytes: Vec<u8>) -> Result<Checked, Status>
    requires small { length bytes.items ≤ cell_limit }
    ensures judged { IsJudged (λ checked. checked.cell) (cell_in bytes.items) result }
    ensures of_file { IfOk result (λ checked. IsCellOfFile checked.cell) }
    ensures findings { IfOk result (λ checked. IsAllOf checked.cell finding_limit checked.findings) }
    ensures status { IfErr result (IsInputStatus (λ n. ⊥)) }
    ensures kind { IfErr result IsNotOfOrder }
    ensures text { IfErr result IsNotOfText }
{
    let cell = decode(rt, alloc, bytes)?;
    match find_all_in_threads(rt, alloc, &cell, FINDING_LIMIT) {
        Ok(findings) => Ok(Checked { cell, findings }),
        Err(LoadRefusal::FindingsFull) => Err(Status::TooManyFindings),
        Err(LoadRefusal::NoMemory) => Err(Status::NoMemory),
    }
}

/// The bench of a file's cell. The file's bytes are given back before it takes its memory.
fn judge_bench<R: Threads + Sync>(rt: &R, alloc: Global, bytes: Vec<u8>) -> Result<Bench, Status>
    requires small { length bytes.items ≤ cell_limit }
    ensures judged { IsJudged (λ bench. bench) (cell_in bytes.items) result }
    ensures of_file { IfOk result IsCellOfFile }
    ensures status { IfErr result (IsInputStatus (λ n. ⊥)) }
    ensures text { IfErr result IsNotOfText }
{
    let cell = decode(rt, alloc, bytes)?;
    match load(rt, alloc, cell) {
        Ok(bench) => Ok(bench),
        Err(LoadRefusal::FindingsFull) => Err(Status::TooManyFindings),
        Err(LoadRefusal::NoMemory) => Err(Status::NoMemory),
    }
}

/// The cell of an input file, with its findings. An `Err` is the status at which the call ends.
pub fn read_cell<R: Threads + Sync, H: Shelf>(
    rt: &R,
    alloc: Global,
    shelf: &mut H,
    name: &str,
) -> Result<Checked, Status>
    ensures tells { Tells (λ checked. checked.cell) (CellIs name.now) (IsFile name.now)
        (H.files shelf.old) (H.read_faults shelf.old) (H.read_faults shelf.new) result }
    ensures of_file { IfOk result (λ checked. IsCellOfFile checked.cell) }
    ensures findings { IfOk result (λ checked. IsAllOf checked.cell finding_limit checked.findings) }
    ensures status { IfErr result (IsInputStatus (λ n. n ≡ name.now)) }
    ensures kind { IfErr result IsNotOfOrder }
    ensures text { IfErr result IsNotOfText }
    ensures files { H.files shelf.new ≡ H.files shelf.old }
    ensures read_faults { H.read_faults shelf.old ≤ H.read_faults shelf.new }
    ensures told_reads { TellsReads (H.read_faults shelf.old) (H.read_faults shelf.new) result }
    ensures write_faults { H.write_faults shelf.new ≡ H.write_faults shelf.old }
{
    let bytes = read_input(alloc, shelf, name, CELL_LIMIT)?;
    judge_cell(rt, alloc, bytes)
}

/// The bench of an input file's cell. An `Err` is the status at which the call ends.
pub fn read_bench<R: Threads + Sync, H: Shelf>(
    rt: &R,
    alloc: Global,
    shelf: &mut H,
    name: &str,
) -> Result<Bench, Status>
    ensures tells { Tells (λ bench. bench) (CellIs name.now) (IsFile name.now)
        (H.files shelf.old) (H.read_faults shelf.old) (H.read_faults shelf.new) result }
    ensures of_file { IfOk result IsCellOfFile }
    ensures status { IfErr result (IsInputStatus (λ n. n ≡ name.now)) }
    ensures text { IfErr result IsNotOfText }
    ensures files { H.files shelf.new ≡ H.files shelf.old }
    ensures read_faults { H.read_faults shelf.old ≤ H.read_faults shelf.new }
    ensures told_reads { TellsReads (H.read_faults shelf.old) (H.read_faults shelf.new) result }
    ensures write_faults { H.write_faults shelf.new ≡ H.write_faults shelf.old }
{
    let bytes = read_input(alloc, shelf, name, CELL_LIMIT)?;
    judge_bench(rt, alloc, bytes)
}

/// The bytes of an update file, of which there may be as many as of a cell file. An `Err` is the status at which the call ends.
pub fn read_update<H: Shelf>(alloc: Global, shelf: &mut H, name: &str) -> Result<Vec<u8>, Status>
    ensures tells { Tells (λ bytes. bytes.items) (FileIs cell_limit name.now) (IsFile name.now)
        (H.files shelf.old) (H.read_faults shelf.old) (H.read_faults shelf.new) result }
    ensures status { IfErr result (IsInputStatus (λ n. n ≡ name.now)) }
    ensures text { IfErr result IsNotOfText }
    ensures within { IfOk result (λ bytes. length bytes.items ≤ cell_limit) }
    ensures files { H.files shelf.new ≡ H.files shelf.old }
    ensures read_faults { H.read_faults shelf.old ≤ H.read_faults shelf.new }
    ensures told_reads { TellsReads (H.read_faults shelf.old) (H.read_faults shelf.new) result }
    ensures write_faults { H.write_faults shelf.new ≡ H.write_faults shelf.old }
{
    read_input(alloc, shelf, name, CELL_LIMIT)
}
