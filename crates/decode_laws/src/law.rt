//! Laws of the definitions, each the contract of a function that does nothing.

ghost use Rattle.decode_laws.specs.DecodedCells.{DecodedIsWritable};

/// A cell that a file stands for can be written.
pub fn decoded_cell_is_writable()
    ensures { DecodedIsWritable }
{}
