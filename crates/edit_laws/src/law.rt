//! Each law is the contract of a function that does nothing.

ghost use Rattle.edit_laws.specs.KeptWritable.{RefusalsAreExact, RunsLeaveWritable, TakenEditsHaveLines};
ghost use Rattle.edit_laws.specs.ReadBackAfterRuns.{EditsKeepTypes, RunsAreReadBack};

use file_spec::round_trip;

/// Edits that a writable cell takes each have a line: they leave records that can be written, and delete no head.
pub fn taken_edits_have_lines()
    ensures { TakenEditsHaveLines }
{}

/// A cell takes exactly the edits that it doesn't refuse because of a record that is there or is missing, because it is full, or because its head is too long.
pub fn refusals_tell_what_a_cell_takes()
    ensures { RefusalsAreExact }
{}

/// The cell that a run of scripts on a writable cell leaves is writable, whatever the scripts and their order.
pub fn runs_leave_a_writable_cell()
    ensures { RunsLeaveWritable }
{}

/// Edits whose numbers and texts are those of their types keep a cell whose are.
pub fn edits_keep_the_types_of_a_cell()
    ensures { EditsKeepTypes }
{}

/// What is written of the cell that a run leaves is that cell when it is read.
pub fn runs_are_read_back()
    ensures { RunsAreReadBack }
{
    round_trip();
}
