//! Rows that were prepared.

ghost use Rattle.std.specs.Prelude.{◌≡◌, ◌<◌, IfOk, IfSome, IsTrue, List, OnOk, Some, is_some, length, map, not, slice_get, if◌then◌else◌};
ghost use Rattle.std.specs.BTreeMap.{get};
ghost use Rattle.std.specs.Option.{option_copied};
ghost use Rattle.std.specs.List.{IsDistinct, list_any};
ghost use Rattle.std.specs.List.Sorted.{IsStrictlySortedBy};
ghost use Rattle.cell_spec.specs.declared.key.Key.{Key as SpecKey};
ghost use Rattle.cell_spec.specs.declared.key.Subject.{Subject as SpecSubject};
ghost use Rattle.cell_spec.specs.Ascending.{ascending};
ghost use Rattle.cell_spec.specs.Names.{key_order, same_subject, subject_order};
ghost use Rattle.cell_spec.specs.declared.finding.Row.{Row as SpecRow};
ghost use Rattle.rule_spec.specs.Affected.{has_valid_row};
ghost use Rattle.cell_bench.specs.Ready.{AreOf, ArePlaces, HaveSameKeys, IsAt, IsValidOne, IsValidRowOf, is_in};

use cell_spec::{Key, Keys, Row, Rows, Subject, ascending_keys, has_key, orders_are_by_parts};
use s57_types::Items;
use std::alloc::{AllocError, Global};
use std::collections::BTreeMap;
use std::marker::Model;

// Where the rows of subjects stand among others.
type Places = BTreeMap<Subject, usize>;

// The keys in ascending order, once each.
fn in_order(alloc: Global, keys: &[Key]) -> Result<Keys, AllocError>
    ensures { IfOk result (λ ordered. ordered ≡ ascending key_order keys.now) }
{
    Ok(ascending_keys(Items::copy_of(alloc, keys)?.into_vec()))
}

// Whether a row holds none of the keys, which are in order.
fn is_valid(keys: &[Key], row: &Row) -> bool
    requires { IsStrictlySortedBy key_order keys.now }
    ensures { result ≡ not (list_any (is_in keys.now) row.now.reads) }
{
    for key in row.reads.as_slice() {
        if has_key(keys, key) {
            return false;
        }
    }
    true
}

// Puts the place of a subject's row, in place of the one that it has.
fn put_place(places: &mut Places, subject: Subject, place: usize) -> Result<(), AllocError>
    ensures { OnOk result ((s : SpecSubject) → get subject_order places.new s
        ≡ (if same_subject subject s then Some place else get subject_order places.old s)) }
{
    orders_are_by_parts();
    places.insert(subject, place)?;
    Ok(())
}

// The places of the valid rows by their subjects; of several of one subject the last. The keys are in order.
fn places_of(alloc: Global, rows: &Rows, stale: &[Key]) -> Result<Places, AllocError>
    requires { IsStrictlySortedBy key_order stale.now }
    ensures { IfOk result (λ places. (keys : List SpecKey) → HaveSameKeys keys stale.now → ArePlaces keys rows.now rows.now places) }
{
    let mut places = BTreeMap::new(alloc);
    for k in 0..rows.len() {
        let row = rows.at(k);
        if is_valid(stale, row) {
            put_place(&mut places, row.subject, k)?;
        }
    }
    Ok(places)
}

// The place of a subject's row, if it has one.
fn place_of(places: &Places, subject: Subject) -> Option<usize>
    ensures { result ≡ get subject_order places.now subject }
{
    orders_are_by_parts();
    places.get(&subject).copied()
}

// Whether a row is about a subject.
fn is_about(row: &Row, subject: Subject) -> bool
    ensures { IsTrue result → row.now.subject ≡ subject }
{
    row.subject == subject
}

// Whether there is one row for each of some subjects, in their order.
fn stand_for(rows: &[Row], subjects: &[Subject]) -> bool
    ensures { IsTrue result → map (λ (row : SpecRow). row.subject) rows.now ≡ subjects.now }
{
    if rows.len() != subjects.len() {
        return false;
    }
    for k in 0..rows.len() {
        if !is_about(&rows[k], subjects[k]) {
            return false;
        }
    }
    true
}

/// Rows that are ready for subjects, and the keys that were invalidated since.
pub(crate) struct ReadyRows<'a> {
    rows: &'a Rows,
    stale: &'a [Key],
    // The invalidated keys in order.
    ordered: Keys,
    // The places of the rows that hold none of these keys, unless there is one row for each subject, in their order.
    places: Option<Places>,
}

impl<'a> Drop for ReadyRows<'a> {
    fn drop(self) {
        let ReadyRows {
            rows: _,
            stale: _,
            ordered: _,
            places: _,
        } = self;
    }
}

impl<'a> Model for ReadyRows<'a> {
    ghost use Rattle.std.specs.Prelude.{is_some, not};
    ghost use Rattle.cell_bench.specs.Ready.{AreFound, Ready};

    ghost Value = { Ready };

    ghost view = { λ r. record { rows = r.rows.now; stale = r.stale.now; in_order = not (is_some r.places) } };

    ghost invariant = { λ r. AreFound r.stale.now r.ordered r.rows.now r.places };
}

impl<'a> ReadyRows<'a> {
    /// These rows for subjects, each of which comes once. Where a row stands for each of them, none is sought.
    ///
    /// An `Err` is out of memory.
    pub(crate) fn make(
        alloc: Global,
        rows: &'a Rows,
        stale: &'a [Key],
        judged: &[Subject],
    ) -> Result<ReadyRows<'a>, AllocError>
        requires { IsDistinct same_subject judged.now }
        ensures rows { IfOk result (λ ready. ready.rows ≡ rows.now) }
        ensures stale { IfOk result (λ ready. ready.stale ≡ stale.now) }
        ensures judged { IfOk result (λ ready. AreOf judged.now ready) }
    {
        let ordered = in_order(alloc, stale)?;
        let places = if stand_for(rows.as_slice(), judged) {
            None
        } else {
            Some(places_of(alloc, rows, ordered.as_slice())?)
        };
        Ok(ReadyRows {
            rows,
            stale,
            ordered,
            places,
        })
    }

    // The row at a place, if it is valid.
    fn valid_at(&self, place: usize) -> Option<&Row>
        requires { place < length self.now.rows }
        ensures { IsValidOne self.now.stale self.now.rows place (option_copied result) }
    {
        let row = self.rows.at(place);
        if is_valid(self.ordered.as_slice(), row) {
            Some(row)
        } else {
            None
        }
    }

    /// A valid row of the subject at a place, if there is one.
    pub(crate) fn get(&self, place: usize, subject: Subject) -> Option<&Row>
        requires { IsAt self.now place subject }
        ensures some { is_some result ≡ has_valid_row self.now.stale self.now.rows subject }
        ensures row { IfSome result (λ row. IsValidRowOf self.now.stale self.now.rows subject row.now) }
    {
        let Some(places) = &self.places else {
            return self.valid_at(place);
        };
        let found = place_of(places, subject)?;
        Some(self.rows.at(found))
    }
}
