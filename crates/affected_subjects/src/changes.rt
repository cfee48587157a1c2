//! Where the nodes and edges of the first round lie after edits.

ghost use Rattle.std.specs.Prelude.{◌≡◌, ◌++◌, IfOk, OnOk, flat_map};
ghost use Rattle.affected_subjects.specs.EditedCells.{changes_to};

use crate::edited::{Edited, is_chain_name};
use cell_spec::Subject;
use std::alloc::{AllocError, Global};
use tile_index::TileChange;

// Appends the change of a subject, if it is a connected node or an edge.
fn push_change(
    alloc: Global,
    changes: &mut Vec<TileChange>,
    edited: &Edited<'_>,
    subject: Subject,
) -> Result<(), AllocError>
    ensures { OnOk result (changes.new.items ≡ changes.old.items ++ changes_to edited.now subject) }
{
    match subject {
        Subject::Rec(name) if is_chain_name(name) => {
            let points = edited.points(alloc, name)?;
            changes.push(TileChange { name, points })?;
            Ok(())
        }
        _ => Ok(()),
    }
}

/// The changes of the connected nodes and edges among some subjects.
pub(crate) fn tile_changes(
    alloc: Global,
    edited: &Edited<'_>,
    subjects: &[Subject],
) -> Result<Vec<TileChange>, AllocError>
    ensures { IfOk result (λ changes. changes.items ≡ flat_map (changes_to edited.now) subjects.now) }
{
    let mut changes = Vec::new(alloc);
    for subject in subjects {
        push_change(alloc, &mut changes, edited, *subject)?;
    }
    Ok(changes)
}
