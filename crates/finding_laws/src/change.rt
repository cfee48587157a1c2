//! Laws of what edits change and what they leave. Each law is the contract of a function that does nothing.

ghost use Rattle.finding_laws.specs.Unaffected.{AffectedAreConsidered, AffectedListIsSet, SubjectsAreListed, UnaffectedRecordsKeepSegments};
ghost use Rattle.finding_laws.specs.Unaffected.{UnaffectedSinglesKeepReads, UnaffectedSubjectsKeepFindings, ValidRowsStayExact};

use crate::pair::found_pairs_are_candidates;
use answer_laws::{edited_answers_are_local, untouched_keys_keep_answers};
use read_laws::findings_follow_reads;

/// The list of a cell's subjects holds exactly what is a subject of the cell.
pub fn subjects_are_listed()
    ensures { SubjectsAreListed }
{}

/// A subject that edits don't affect has the same findings before and after them.
pub fn unaffected_subjects_keep_findings()
    ensures { UnaffectedSubjectsKeepFindings }
{
    findings_follow_reads();
    untouched_keys_keep_answers();
    found_pairs_are_candidates();
}

/// A record, a side or an identifier of one of the two cells that edits don't affect has the same read set in both.
pub fn unaffected_singles_keep_reads()
    ensures { UnaffectedSinglesKeepReads }
{
    findings_follow_reads();
    untouched_keys_keep_answers();
}

/// A connected node or an edge that edits don't affect has the same segments before and after them.
pub fn unaffected_records_keep_segments()
    ensures { UnaffectedRecordsKeepSegments }
{
    untouched_keys_keep_answers();
}

/// Each affected subject is among those that are looked at.
pub fn affected_subjects_are_considered()
    ensures { AffectedAreConsidered }
{
    findings_follow_reads();
    untouched_keys_keep_answers();
}

/// The affected list holds the affected subjects of the edited cell, each once, and nothing else.
pub fn affected_list_is_set()
    ensures { AffectedListIsSet }
{
    affected_subjects_are_considered();
}

/// A row that is right for edits on a cell, and whose read set holds no invalidated key, is right for them on a newer cell.
pub fn valid_rows_stay_exact()
    ensures { ValidRowsStayExact }
{
    findings_follow_reads();
    edited_answers_are_local();
}
