//! Laws, each the contract of a function that does nothing.

ghost use Rattle.affected_subjects.specs.Laws.{ChangesGiveTheTiles, RoundsAreConsidered};

use finding_laws::{
    affected_subjects_are_considered, mates_are_candidates, readers_are_listed,
    unaffected_records_keep_segments,
};
use tile_index::changes_set_their_names;

/// The changes of the nodes and edges of the first round make of a cell's tiles those of the edited cell.
pub(crate) fn changes_give_the_tiles()
    ensures { ChangesGiveTheTiles }
{
    affected_subjects_are_considered();
    changes_set_their_names();
    readers_are_listed();
    unaffected_records_keep_segments();
}

/// The two rounds by tables that are right look at what is considered, each once in its order.
pub(crate) fn rounds_are_considered()
    ensures { RoundsAreConsidered }
{
    mates_are_candidates();
    readers_are_listed();
}
