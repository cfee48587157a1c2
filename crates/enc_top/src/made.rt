//! The generated cell, and the drill on it.

ghost use Rattle.std.specs.Prelude.{◌≤◌, IfOk, Ok, Option, map, string_bytes, ℕ};
ghost use Rattle.enc_outside.specs.Files.{Files};
ghost use Rattle.call_files.specs.Inputs.{IsJudged};
ghost use Rattle.enc_top.specs.Inputs.{drill_answer};
ghost use Rattle.enc_top.specs.Outcome.{IsAskedBy, IsMakeOf};
ghost use Rattle.call_files.specs.Task.{task_of};
ghost use Rattle.enc_top.specs.Words.{drill_among, make_among};
ghost use Rattle.sessions.specs.Replays.{session_limit};

use crate::words::number_up_to;
use call_files::{Export, Work};
use cell_bench::LoadRefusal;
use cell_make::make_cell;
use cell_write::write_cell;
use drill_run::{push_drill, push_made};
use file_spec::writable_cell_is_read_back;
use report_text::Status;
use sessions::SESSION_LIMIT;
use std::alloc::{AllocError, Global};
use std::thread::Threads;

/// The greatest number of rows of squares in a generated cell.
const SIZE_LIMIT: u32 = 100;

/// How many sessions a drill may have.
const DRILL_LIMIT: u32 = SESSION_LIMIT as u32;

/// The line of the generated cell that the words behind `make` ask for, and its file.
pub(crate) fn make(alloc: Global, others: &[String]) -> Result<Work, Status>
    ensures { (files : Option Files) (count : ℕ) → IsAskedBy ⊥ (make_among (map string_bytes others.now)) files count count result }
{
    let [size, out] = others else {
        return Err(Status::Usage);
    };
    let Some(size) = number_up_to(size.as_str(), SIZE_LIMIT) else {
        return Err(Status::Usage);
    };
    Ok(made_work(alloc, size, out.as_str())?)
}

/// The line of a generated cell, and its file.
fn made_work(alloc: Global, size: u32, out: &str) -> Result<Work, AllocError>
    requires some { 1 ≤ size }
    requires few { size ≤ 100 }
    ensures { IfOk result (λ work. IsMakeOf size out.now (task_of work)) }
{
    let cell = make_cell(alloc, size)?;
    writable_cell_is_read_back(&cell);
    let bytes = write_cell(alloc, &cell)?;
    let size = bytes.as_slice().len();
    let mut text = Vec::new(alloc);
    push_made(alloc, &cell, size, &mut text)?;
    let name = String::from_str(alloc, out)?;
    Ok(Work {
        text,
        export: Some(Export { name, bytes }),
    })
}

/// The line of the drill that the words behind `drill` ask for.
pub(crate) fn drill<R: Threads + Sync>(
    rt: &R,
    alloc: Global,
    others: &[String],
) -> Result<Work, Status>
    ensures { (files : Option Files) (count : ℕ) → IsAskedBy ⊥ (drill_among (map string_bytes others.now)) files count count result }
{
    let [size, sessions] = others else {
        return Err(Status::Usage);
    };
    let Some(size) = number_up_to(size.as_str(), SIZE_LIMIT) else {
        return Err(Status::Usage);
    };
    let Some(sessions) = number_up_to(sessions.as_str(), DRILL_LIMIT) else {
        return Err(Status::Usage);
    };
    drilled_work(rt, alloc, size, sessions)
}

/// The line of a drill.
fn drilled_work<R: Threads + Sync>(
    rt: &R,
    alloc: Global,
    size: u32,
    sessions: u32,
) -> Result<Work, Status>
    requires some { 1 ≤ size }
    requires few { size ≤ 100 }
    requires one_session { 1 ≤ sessions }
    requires sessions { sessions ≤ session_limit }
    ensures { IsJudged task_of (drill_answer size sessions) result }
{
    let drilled = match drill_run::drill(rt, alloc, size, sessions) {
        Ok(drilled) => drilled,
        Err(LoadRefusal::FindingsFull) => return Err(Status::TooManyFindings),
        Err(LoadRefusal::NoMemory) => return Err(Status::NoMemory),
    };
    let mut text = Vec::new(alloc);
    push_drill(alloc, size, sessions, &drilled, &mut text)?;
    Ok(Work { text, export: None })
}
