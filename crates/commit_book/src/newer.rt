//! The clash of a commit with a newer one.

ghost use Rattle.std.specs.Prelude.{◌≡◌, ◌≤◌, ◌<◌, ◌^◌, IfOk, IfSome, length, map};
ghost use Rattle.history_spec.specs.Steps.{clash_with as spec_clash_with, newer_answer as spec_newer_answer};
ghost use Rattle.commit_book.specs.Books.{IsNewer, commit_of};
ghost use Rattle.commit_book.specs.CommitPlaces.{AreNoted};

use crate::accepted::Accepted;
use crate::commit_places::CommitPlaces;
use crate::names::least_contested;
use edit_sets::EditSet;
use history_spec::Reply;
use s57_types::Duplicate;
use std::alloc::{AllocError, Global};

/// The answer where an accepted commit edits what the set edits or guards: the least such name, and that commit's edit of it.
fn clash_with(
    alloc: Global,
    set: &EditSet,
    number: u32,
    accepted: &Accepted,
) -> Result<Option<Reply>, AllocError>
    ensures same { IfOk result (λ reply. reply ≡ spec_clash_with set.now.edits set.now.guards (number, commit_of accepted.now)) }
    ensures newer { IfOk result (λ reply. IfSome reply IsNewer) }
{
    let Some(name) = least_contested(set, &accepted.set) else {
        return Ok(None);
    };
    let Some(edit) = accepted.set.find(name) else {
        return Ok(None);
    };
    Ok(Some(Reply::Newer {
        number,
        name,
        desk: accepted.desk,
        edit: edit.copy(alloc)?,
    }))
}

/// The answer where an accepted commit above the base edits what the set edits or guards: the one with the least number,
/// counted from 1, and the least such name in it. Only commits whose places are noted at such a name are looked at.
///
/// An `Err` means out of memory.
pub(crate) fn newer_answer(
    alloc: Global,
    accepted: &[Accepted],
    places: &CommitPlaces,
    base: u32,
    set: &EditSet,
) -> Result<Option<Reply>, AllocError>
    requires base { base ≤ length accepted.now }
    requires few { length accepted.now < 2 ^ 32 }
    requires noted { AreNoted places.now accepted.now }
    ensures same { IfOk result (λ reply. reply ≡ spec_newer_answer (map commit_of accepted.now) base set.now.edits set.now.guards) }
    ensures newer { IfOk result (λ reply. IfSome reply IsNewer) }
{
    let end = accepted.len() as u32;
    let mut place = places.first_place(set.claims(), base, end);
    while let Some(commit) = accepted.get(place as usize) {
        if let Some(reply) = clash_with(alloc, set, place + 1, commit)? {
            return Ok(Some(reply));
        }
        // It was noted for a commit for which memory ran out before it was entered.
        place = places.first_place(set.claims(), place + 1, end);
    }
    Ok(None)
}
