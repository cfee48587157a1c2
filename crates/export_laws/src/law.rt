//! Each law is the contract of a function that does nothing.

ghost use Rattle.export_laws.specs.{DecodedTypes.{DecodedHasItsTypes}, ExportedCells.{ExportsAreReadBack}, ScriptTypes.{ScriptHasItsTypes}};

use decode_laws::decoded_cell_is_writable;
use edit_laws::runs_are_read_back;

/// A cell that a file stands for has numbers that fit their types, and dates and editions of their length.
pub fn decoded_cell_has_its_types()
    ensures { DecodedHasItsTypes }
{}

/// The commands of a script leave records whose numbers fit their types, at each level of national attributes.
pub fn scripts_have_their_types()
    ensures { ScriptHasItsTypes }
{}

/// What is written of the cell that a run of scripts leaves of a file's cell is that cell when it is read.
pub fn exports_are_read_back()
    ensures { ExportsAreReadBack }
{
    decoded_cell_is_writable();
    runs_are_read_back();
    decoded_cell_has_its_types();
    scripts_have_their_types();
}
