//! Subjects in the order in which they are looked at first, each once.

ghost use Rattle.std.specs.Prelude.{◌≡◌, ◌≤◌, [], IfOk, MatchResult, OnOk, false, length, true};
ghost use Rattle.std.specs.List.{insert, list_any};
ghost use Rattle.std.specs.List.Sorted.{IsStrictlySortedBy};
ghost use Rattle.cell_spec.specs.Names.{same_subject, subject_order};
ghost use Rattle.affected_subjects.specs.Rounds.{add_one};

use cell_spec::{Subject, orders_are_by_parts};
use std::alloc::{AllocError, Global};
use std::collections::BTreeSet;
use std::marker::Model;

// How many subjects stand in a list in order before others go into a tree. A search in a short list is cheaper, a put into a long one dearer.
const FEW: usize = 256;

// How many subjects there is room for from the start: a commit of one node or edge mostly reaches no more.
const ROOM: usize = 128;

/// Subjects in the order in which they were added first. They are seen as their list, and know what is there by the first few in order and
/// by a tree of the others, so that no file makes them slow by the numbers of its records.
pub(crate) struct Considered {
    list: Vec<Subject>,
    few: Vec<Subject>,
    more: BTreeSet<Subject>,
}

impl Drop for Considered {
    fn drop(self) {
        let Considered {
            list: _,
            few: _,
            more: _,
        } = self;
    }
}

impl Model for Considered {
    ghost use Rattle.std.specs.Prelude.{◌≡◌, ◌||◌, List};
    ghost use Rattle.std.specs.BTreeSet.{contains};
    ghost use Rattle.std.specs.List.{list_any};
    ghost use Rattle.std.specs.List.Sorted.{IsStrictlySortedBy};
    ghost use Rattle.cell_spec.specs.declared.key.Subject.{Subject as SpecSubject};
    ghost use Rattle.cell_spec.specs.Names.{same_subject, subject_order};

    ghost Value = { List SpecSubject };

    ghost view = { λ considered. considered.list.items };

    ghost invariant = { λ considered. IsStrictlySortedBy subject_order considered.few.items × ((s : SpecSubject) →
        (list_any (same_subject s) considered.few.items || contains ⟦<Subject as Ord>⟧.cmp considered.more s)
        ≡ list_any (same_subject s) considered.list.items) };
}

// The place of a subject among some in order, or the one where it keeps them in order.
fn place_in(subjects: &[Subject], subject: Subject) -> Result<usize, usize>
    requires { IsStrictlySortedBy subject_order subjects.now }
    ensures there { MatchResult result (λ _. list_any (same_subject subject) subjects.now ≡ true) (λ _. list_any (same_subject subject) subjects.now ≡ false) }
    ensures place { MatchResult result (λ place. place ≤ length subjects.now)
        (λ place. place ≤ length subjects.now × IsStrictlySortedBy subject_order (insert subjects.now place subject)) }
{
    orders_are_by_parts();
    subjects.binary_search(&subject)
}

impl Considered {
    /// No subject, and room for some.
    ///
    /// An `Err` is out of memory.
    pub(crate) fn none(alloc: Global) -> Result<Considered, AllocError>
        ensures { IfOk result (λ considered. considered ≡ []) }
    {
        Ok(Considered {
            list: Vec::with_capacity(alloc, ROOM)?,
            few: Vec::with_capacity(alloc, ROOM)?,
            more: BTreeSet::new(alloc),
        })
    }

    /// Puts a subject behind the others, unless it is there.
    ///
    /// An `Err` is out of memory.
    pub(crate) fn add(&mut self, subject: Subject) -> Result<(), AllocError>
        ensures { OnOk result (self.new ≡ add_one self.old subject) }
    {
        orders_are_by_parts();
        let Err(place) = place_in(&self.few, subject) else {
            return Ok(());
        };
        // So that both take the subject, or neither.
        self.list.reserve(1)?;
        if self.few.len() < FEW && self.more.is_empty() {
            self.few.insert(place, subject)?;
            self.list.push_reserved(subject);
            return Ok(());
        }
        if self.more.insert(subject)? {
            self.list.push_reserved(subject);
        }
        Ok(())
    }

    /// The subjects.
    pub(crate) fn as_slice(&self) -> &[Subject]
        ensures { result.now ≡ self.now }
    {
        self.list.as_slice()
    }
}
