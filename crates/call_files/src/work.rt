//! What a call puts and writes once its input is read.

ghost use Rattle.std.specs.Prelude.{◌≡◌, IfOk, Ok};
ghost use Rattle.call_files.specs.Task.{file_of};
ghost use Rattle.file_spec.specs.DecodedCell.{decoded_cell};
ghost use Rattle.file_spec.specs.EncodedCell.{encoded_cell};

use cell_bench::Bench;
use cell_write::write_cell;
use file_spec::writable_cell_is_read_back;
use s57_types::{Cell, Duplicate};
use std::alloc::{AllocError, Global};

/// A file that is to be made: its name and its bytes.
#[derive(Debug)]
pub struct Export {
    pub name: String,
    pub bytes: Vec<u8>,
}

impl Drop for Export {
    fn drop(self) {
        let Export { name: _, bytes: _ } = self;
    }
}

/// A copy of a bench's cell. What tells of its findings is given back before the copy takes its memory.
///
/// An `Err` means out of memory.
fn cell_of(alloc: Global, bench: Bench) -> Result<Cell, AllocError>
    ensures { IfOk result (λ cell. cell ≡ bench) }
{
    let store = bench.store().copy(alloc)?;
    drop(bench);
    store.to_cell(alloc)
}

impl Export {
    /// The file of a bench's cell, under a name. The bench is given back before the file takes its memory.
    ///
    /// An `Err` means out of memory.
    pub fn of_bench(alloc: Global, bench: Bench, name: &str) -> Result<Export, AllocError>
        ensures file { IfOk result (λ export. file_of export ≡ (name.now, encoded_cell bench)) }
        ensures read_back { IfOk result (λ _. decoded_cell (encoded_cell bench) ≡ Ok bench) }
    {
        bench.known();
        let name = String::from_str(alloc, name)?;
        let cell = cell_of(alloc, bench)?;
        writable_cell_is_read_back(&cell);
        let bytes = write_cell(alloc, &cell)?;
        Ok(Export { name, bytes })
    }
}

/// The text that is put, and the file that is made then.
#[derive(Debug)]
pub struct Work {
    pub text: Vec<u8>,
    pub export: Option<Export>,
}

impl Drop for Work {
    fn drop(self) {
        let Work { text: _, export: _ } = self;
    }
}
