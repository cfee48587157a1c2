//! What a book answers.

ghost use Rattle.std.specs.Prelude.{◌≡◌, ◌++◌, [], ◌∷◌, IfOk, map};
ghost use Rattle.history_spec.specs.Entries.{brief_of as spec_brief_of};
ghost use Rattle.commit_book.specs.Books.{set_in, sets_told as spec_sets_told};

use crate::accepted::Accepted;
use cell_bench::Bench;
use edit_sets::EditSet;
use history_spec::{Brief, Reply};
use s57_types::{Duplicate, Items};
use std::alloc::{AllocError, Global};

/// Edit sets one after the other.
pub type EditSets = Items<EditSet>;

/// The answer, and the edit sets that were accepted after the base on which the question rests, if the base moves.
#[derive(Debug, Drop)]
pub struct Told {
    pub reply: Reply,
    pub news: EditSets,
}

/// The answer alone, and the bench that an accepted commit replaced. That others have a copy of it or not, it is dropped best when
/// nobody waits for the book.
#[derive(Drop)]
pub struct Answered {
    pub reply: Reply,
    pub replaced: Option<Bench>,
}

impl Answered {
    /// An answer that replaces no bench.
    pub(crate) fn alone(reply: Reply) -> Answered
        ensures { result.reply ≡ reply }
    {
        Answered {
            reply,
            replaced: None,
        }
    }
}

/// An answer without the edit that it may show.
pub(crate) fn brief_of(reply: &Reply) -> Brief
    ensures { result ≡ spec_brief_of reply.now }
{
    match reply {
        Reply::Viewed { number, findings } => Brief::Viewed {
            number: *number,
            findings: *findings,
        },
        Reply::Formed(fault) => Brief::Formed(*fault),
        Reply::Newer {
            number,
            name,
            desk,
            ..
        } => Brief::Newer {
            number: *number,
            name: *name,
            desk: *desk,
        },
        Reply::Refused(refusal) => Brief::Refused(*refusal),
        Reply::Accepted { number, findings } => Brief::Accepted {
            number: *number,
            findings: *findings,
        },
    }
}

/// The edit sets of commits.
pub(crate) fn sets_of(alloc: Global, newer: &[Accepted]) -> Result<Vec<EditSet>, AllocError>
    ensures { IfOk result (λ sets. sets.items ≡ map set_in newer.now) }
{
    let mut sets = Vec::new(alloc);
    for commit in newer {
        sets.push(commit.set.copy(alloc)?)?;
    }
    Ok(sets)
}

/// Edit sets with one more.
pub(crate) fn with_set(
    alloc: Global,
    sets: Vec<EditSet>,
    set: &EditSet,
) -> Result<Vec<EditSet>, AllocError>
    ensures { IfOk result (λ all. all.items ≡ sets.items ++ set.now ∷ []) }
{
    let mut sets = sets;
    sets.push(set.copy(alloc)?)?;
    Ok(sets)
}

/// The news of a commit: the edit sets up to its own, if it is accepted.
pub(crate) fn sets_told(alloc: Global, reply: &Reply, sets: Vec<EditSet>) -> EditSets
    ensures { result ≡ spec_sets_told reply.now sets.items }
{
    match reply {
        Reply::Accepted { .. } => EditSets::of_vec(sets),
        _ => EditSets::make(alloc),
    }
}
