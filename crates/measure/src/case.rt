//! The cases by their names.

use crate::{cells, fields, indexes, lookups, store, table, versions};

/// What is timed.
#[derive(Clone, Copy)]
pub enum Case {
    /// A sum of bytes in memory: the speed of the machine.
    Baseline,
    /// What two segments have in common; the size is how often a million pairs are gone over.
    Segments,
    /// Turns under the ticket lock: the size is the number of threads.
    Turns,
    /// Work with a sorted table.
    Table(table::Work),
    /// Work with a table of which copies share pieces.
    Versions(versions::Work),
    /// Look-ups in a cell.
    Lookups(lookups::Work),
    /// The store of a cell, copied and changed.
    Store(store::Work),
    /// The indexes of read sets and of tiles, changed.
    Indexes(indexes::Work),
    /// Fields read or written; the size is how often.
    Fields(fields::Work),
    /// A generated cell read or written; the size is how often.
    Cells(cells::Work),
}

impl Case {
    /// The case of a name: of a name alone, or of a group and a work of it.
    pub fn of(name: &str) -> Option<Case> {
        match name.split_once('_') {
            Some((group, work)) => Case::of_group(group, work),
            None => Case::alone(name),
        }
    }

    fn alone(name: &str) -> Option<Case> {
        match name {
            "baseline" => Some(Case::Baseline),
            "segments" => Some(Case::Segments),
            "turns" => Some(Case::Turns),
            _ => None,
        }
    }

    fn of_group(group: &str, work: &str) -> Option<Case> {
        Some(match group {
            "table" => Case::Table(table::Work::of(work)?),
            "versions" => Case::Versions(versions::Work::of(work)?),
            "lookups" => Case::Lookups(lookups::Work::of(work)?),
            "store" => Case::Store(store::Work::of(work)?),
            "indexes" => Case::Indexes(indexes::Work::of(work)?),
            "fields" => Case::Fields(fields::Work::of(work)?),
            "cell" => Case::Cells(cells::Work::of(work)?),
            _ => return None,
        })
    }
}
