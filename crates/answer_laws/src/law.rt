//! Each law is the contract of a function that does nothing.

ghost use Rattle.answer_laws.specs.EditedAnswers.{EditedAnswers, EditedAnswersAreLocal, UntouchedKeysKeepAnswers};
ghost use Rattle.answer_laws.specs.EditedCells.{CountsAfter, EditedCellsAreReadable, EditsAddUp, EditsKeepWritable, FormedEditsFindTheirRecords};

/// What an edited cell answers to each key, from the edits and what the cell answered before: the record of a name as the
/// edit of that name leaves it; the head with the values that an edit of it gives; the pointers to a name, and the bearers of
/// an identifier, of the records that no edit is about, and those of the records that edits leave.
pub fn edited_answers()
    ensures { EditedAnswers }
{}

/// Cells that answer a key alike answer it alike after the same edits.
pub fn edited_answers_are_local()
    ensures { EditedAnswersAreLocal }
{
    edited_answers();
}

/// A key that edits don't touch has the same answer before and after them.
pub fn untouched_keys_keep_answers()
    ensures { UntouchedKeysKeepAnswers }
{}

/// The edits of an edit set at the level of a readable cell find their records where each has its record in the cell.
pub fn formed_edits_find_their_records()
    ensures { FormedEditsFindTheirRecords }
{}

/// The edits of two lists, applied at once, make of a cell what the second list makes of the cell after the first, where
/// the second list finds its records too.
pub fn edits_add_up()
    ensures { EditsAddUp }
{}

/// An edited cell has one record more for each addition and one less for each deletion.
pub fn counts_after_edits()
    ensures { CountsAfter }
{
    edits_add_up();
}

/// A cell that can be looked into, with no more records than may be, can be looked into after the edits of an edit set that
/// find their records.
pub fn edited_cells_are_readable()
    ensures { EditedCellsAreReadable }
{
    formed_edits_find_their_records();
    counts_after_edits();
}

/// Edits without a fault of form at a writable cell's level, which the cell takes, leave a writable cell.
pub fn edits_keep_a_cell_writable()
    ensures { EditsKeepWritable }
{}
