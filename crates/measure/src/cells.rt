//! A generated cell of 3,454,558 bytes, read or written so many times over.

use cell_make::make_cell;
use cell_read::read_cell;
use cell_write::write_cell;
use s57_types::Cell;
use std::alloc::{AllocError, Global};

/// The side of the cell in squares.
const SIDE: u32 = 100;

/// The most bytes of a cell file.
const CELL_LIMIT: usize = 16_777_216;

/// What is done with the cell.
#[derive(Clone, Copy)]
pub enum Work {
    /// It is read from its file.
    Read,
    /// Its file is written.
    Write,
}

impl Work {
    /// The work of a name within the group.
    pub fn of(name: &str) -> Option<Work> {
        match name {
            "read" => Some(Work::Read),
            "write" => Some(Work::Write),
            _ => None,
        }
    }
}

/// A number for a file that was written.
fn number_of(bytes: &[u8], round: u32) -> u64 {
    let place = bytes.len().saturating_sub(round as usize + 1);
    let byte = bytes.get(place).copied().unwrap_or(0);
    (bytes.len() as u64).wrapping_add(u64::from(byte))
}

/// A number for a cell that was read.
fn records_of(cell: &Cell) -> u64 {
    (cell.vi.len() as u64)
        .wrapping_add(cell.vc.len() as u64)
        .wrapping_add(cell.ve.len() as u64)
        .wrapping_add(cell.fe.len() as u64)
}

fn read_cells(alloc: Global, rounds: u32) -> Result<u64, AllocError> {
    let bytes = write_cell(alloc, &make_cell(alloc, SIDE)?)?;
    if bytes.len() > CELL_LIMIT {
        return Ok(0);
    }
    let mut sum = 0u64;
    for _ in 0..rounds {
        if let Ok(cell) = read_cell(alloc, &bytes) {
            sum = sum.wrapping_add(records_of(&cell));
        }
    }
    Ok(sum)
}

fn write_cells(alloc: Global, rounds: u32) -> Result<u64, AllocError> {
    let cell = make_cell(alloc, SIDE)?;
    let mut sum = 0u64;
    for round in 0..rounds {
        let bytes = write_cell(alloc, &cell)?;
        sum = sum.wrapping_add(number_of(&bytes, round));
    }
    Ok(sum)
}

/// What the work answers when it is done so many times.
pub fn outcome(alloc: Global, work: Work, rounds: u32) -> Result<u64, AllocError> {
    match work {
        Work::Read => read_cells(alloc, rounds),
        Work::Write => write_cells(alloc, rounds),
    }
}
