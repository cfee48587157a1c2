//! Laws of tables that are right for each of their keys. Each law is the contract of a function that does nothing.

ghost use Rattle.finding_laws.specs.Tables.{ListedTablesAreRight, MatesAreCandidates, ReadersAreListed, VerdictTablesAreAll};

/// A table that has the findings of each subject with a finding is the list of all findings.
pub fn verdict_tables_are_all()
    ensures { VerdictTablesAreAll }
{}

/// The readers of a key by a table that has the read set of each record, side and identifier are those of the cell.
pub fn readers_are_listed()
    ensures { ReadersAreListed }
{}

/// The names whose tiles meet those of a name, by a table that has the tiles of each connected node and edge with segments, are
/// its candidates.
pub fn mates_are_candidates()
    ensures { MatesAreCandidates }
{}

/// For each cell there are such tables.
pub fn listed_tables_are_right()
    ensures { ListedTablesAreRight }
{}
