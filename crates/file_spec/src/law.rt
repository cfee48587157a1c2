//! Laws of the definitions, each the contract of a function that does nothing.

ghost use Rattle.std.specs.Prelude.{◌≡◌, Ok};
ghost use Rattle.cell_spec.specs.Writable.{IsWritable};
ghost use Rattle.file_spec.specs.{DecodedCell.{decoded_cell}, EncodedCell.{encoded_cell}, ReadBack.{CellIsReadBack}, RoundTrip.{RoundTrip}};
ghost use Rattle.file_spec.specs.WrittenFile.{CellRecordsAreFound, WrittenRecordsAreFound};

use crate::types::cell_has_its_types;
use field_spec::{repeating_rows_read_back, rows_read_back};
use s57_types::Cell;

/// The records of a file that was written are those that were written, and the file of a writable cell has the cell's.
pub fn written_records_are_found()
    ensures records { WrittenRecordsAreFound }
    ensures cell { CellRecordsAreFound }
{}

/// A writable cell is what its file stands for, where each of its fields is read as the value that was written.
pub fn written_cell_is_read()
    ensures { CellIsReadBack }
{}

/// What is written of a writable cell is that cell when it is read.
pub fn round_trip()
    ensures { RoundTrip }
{
    rows_read_back();
    repeating_rows_read_back();
}

/// The file of a writable cell in memory is that cell when it is read. To show it, it reads the cell's numbers.
pub fn writable_cell_is_read_back(cell: &Cell)
    requires { IsWritable cell.now }
    ensures { decoded_cell (encoded_cell cell.now) ≡ Ok cell.now }
{
    cell_has_its_types(cell);
    round_trip();
}
