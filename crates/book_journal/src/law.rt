//! A law of journals: the contract of a function that does nothing.

ghost use Rattle.std.specs.Prelude.{◌≡◌, ℕ, List, Result};
ghost use Rattle.history_spec.specs.Steps.{AcceptedCommit};
ghost use Rattle.s57_types.specs.declared.cell.Cell.{Cell};
ghost use Rattle.book_journal.specs.Journals.{IsReading};

use script_text::a_text_has_one_reading;

/// The bytes of a file are the journal of one list of commits or have one first damaged entry, and never both.
pub fn a_journal_has_one_reading()
    ensures { (c : Cell) (file : List ℕ) (reading other : Result (List AcceptedCommit) ℕ)
        → IsReading c file reading → IsReading c file other → reading ≡ other }
{
    a_text_has_one_reading();
}
