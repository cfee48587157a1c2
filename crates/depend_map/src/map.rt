//! The dependency index and plans of its changes.

ghost use Rattle.std.specs.Prelude.{◌≡◌, ◌++◌, ◌↔◌, [], IfOk, IsOk, IsTrue, OnOk, Some, length, map};
ghost use Rattle.std.specs.List.{sum};
ghost use Rattle.std.specs.Option.{option_copied, option_map_or};
ghost use Rattle.std.specs.declared.cmp.Ordering.TheVariants.{Equal};
ghost use Rattle.cell_spec.specs.Names.{subject_order};
ghost use Rattle.rule_spec.specs.Affected.{is_single};
ghost use Rattle.row_spec.specs.Rows.{IsAscending, value_of, with_row, without_key};
ghost use Rattle.finding_laws.specs.Tables.{readers_in};
ghost use Rattle.depend_map.specs.Changes.{after_change, after_changes, kept_of};
ghost use Rattle.depend_map.specs.Readers.{reader_rows, rows_under};

use crate::change::ReadChange;
use crate::distance::BySubject;
use crate::readers::Readers;
use crate::set::{ReaderRow, ReaderSet, replace_keys, set_of};
use cell_spec::{Key, Keys, Subject, orders_are_by_parts};
use s57_types::{Duplicate, Kind, RecName};
use shared_table::{Shared, SharedTable};
use std::alloc::{AllocError, Global};
use std::marker::Model;

/// The read sets of records, sides and identifiers, seen as rows of a subject and its keys, in ascending order of the subjects.
/// Copies share what they hold, and a change of one of two leaves the other as it is.
pub struct DependMap {
    reads: SharedTable<Subject, Shared<Keys>>,
    readers: ReaderSet,
}

impl Drop for DependMap {
    fn drop(self) {
        let DependMap {
            reads: _,
            readers: _,
        } = self;
    }
}

impl Model for DependMap {
    ghost use Rattle.std.specs.Prelude.{List};
    ghost use Rattle.cell_spec.specs.declared.key.Key.{Key};
    ghost use Rattle.cell_spec.specs.declared.key.Subject.{Subject};

    ghost Value = { List (Subject × List Key) };

    ghost use Rattle.depend_map.specs.Readers.{AreReadersOf};

    ghost view = { λ m. m.reads };

    ghost invariant = { λ m. AreReadersOf m.reads m.readers };
}

/// The whole of a map after some changes, seen as its rows.
#[derive(Drop)]
pub struct ReadPlan {
    map: DependMap,
}

impl Model for ReadPlan {
    ghost use Rattle.std.specs.Prelude.{List};
    ghost use Rattle.cell_spec.specs.declared.key.Key.{Key};
    ghost use Rattle.cell_spec.specs.declared.key.Subject.{Subject};

    ghost Value = { List (Subject × List Key) };

    ghost view = { λ p. p.map };
}

impl ReadPlan {
    /// The map after the changes. It takes no memory.
    pub fn into_map(self) -> DependMap
        ensures { result ≡ self }
    {
        self.map
    }
}

// No subject is below this one.
const LEAST: Subject = Subject::Rec(RecName {
    kind: Kind::Vi,
    id: 0,
});

impl DependMap {
    /// A map that keeps no reads.
    pub fn make() -> DependMap
        ensures { result ≡ [] }
    {
        DependMap {
            reads: SharedTable::make(),
            readers: SharedTable::make(),
        }
    }

    /// The keys that a subject reads, if they are kept.
    pub fn reads(&self, subject: &Subject) -> Option<&Keys>
        ensures { option_copied result ≡ value_of subject_order self.now subject.now }
    {
        orders_are_by_parts();
        Some(self.reads.get_near::<BySubject>(subject)?)
    }

    /// The subjects whose reads hold a key, in ascending order.
    pub fn readers(&self, key: Key) -> Readers<'_>
        ensures { result ≡ readers_in self.now key }
    {
        orders_are_by_parts();
        // The rows of both tables ascend.
        let _kept = self.reads.len();
        let _pairs = self.readers.len();
        Readers::from(self.readers.rows_from(&(key, LEAST)), key)
    }

    /// The map after some changes, one after the other. It takes all memory that they need, and an `Err` means that there isn't enough.
    pub fn plan(&self, alloc: Global, changes: &[ReadChange]) -> Result<ReadPlan, AllocError>
        ensures { IfOk result (λ plan. plan ≡ after_changes self.now changes.now) }
    {
        let mut map = self.copy(alloc)?;
        for change in changes {
            map = map.changed(alloc, change)?;
        }
        Ok(ReadPlan { map })
    }

    /// Takes the memory that installing a plan needs: none, since the plan has taken it.
    pub fn reserve(&mut self, _alloc: Global, _plan: &ReadPlan) -> Result<(), AllocError>
        ensures ok { IsOk result }
        ensures same { self.new ≡ self.old }
    {
        Ok(())
    }

    /// Puts the map of a plan in this one's place. It takes no memory.
    pub fn install(&mut self, plan: ReadPlan)
        ensures { self.new ≡ plan }
    {
        *self = plan.map;
    }

    /// The map of these rows, without those of pairs. An `Err` means out of memory.
    pub fn from_rows(alloc: Global, rows: Vec<(Subject, Keys)>) -> Result<DependMap, AllocError>
        requires { IsAscending subject_order rows.items }
        ensures { IfOk result (λ map. map ≡ kept_of rows.items) }
    {
        orders_are_by_parts();
        // The set first, so that the memory of its rows is given back before the other table is made.
        let readers = set_of(alloc, pairs_of(alloc, &rows)?)?;
        let reads = SharedTable::from_ascending(alloc, shared_rows(alloc, rows)?)?;
        Ok(DependMap { reads, readers })
    }

    // The map after a change.
    fn changed(self, alloc: Global, change: &ReadChange) -> Result<DependMap, AllocError>
        ensures { IfOk result (λ map. map ≡ after_change self change.now) }
    {
        if !is_kept(change.subject) {
            return Ok(self);
        }
        match &change.reads {
            Some(keys) => self.with_keys(alloc, change.subject, keys),
            None => self.without(alloc, change.subject),
        }
    }

    // Whether a subject has these keys already. The rows ascend, so that one that is put again changes nothing.
    fn keeps(&self, subject: &Subject, keys: &Keys) -> bool
        ensures { IsTrue result → self.now ≡ with_row subject_order self.now subject.now keys.now }
    {
        orders_are_by_parts();
        let _count = self.reads.len();
        has_row(&self.reads, subject, keys)
    }

    // The map with new keys of a subject.
    fn with_keys(
        self,
        alloc: Global,
        subject: Subject,
        keys: &Keys,
    ) -> Result<DependMap, AllocError>
        ensures { IfOk result (λ map. map ≡ with_row subject_order self subject keys.now) }
    {
        if self.keeps(&subject, keys) {
            return Ok(self);
        }
        orders_are_by_parts();
        let DependMap {
            mut reads,
            mut readers,
        } = self;
        let old = kept_keys(&reads, &subject);
        replace_keys(alloc, &mut readers, subject, old, keys.as_slice())?;
        reads.put(alloc, subject, Shared::make(alloc, keys.copy(alloc)?)?)?;
        Ok(DependMap { reads, readers })
    }

    // The map without a subject.
    fn without(self, alloc: Global, subject: Subject) -> Result<DependMap, AllocError>
        ensures { IfOk result (λ map. map ≡ without_key subject_order self subject) }
    {
        orders_are_by_parts();
        let DependMap {
            mut reads,
            mut readers,
        } = self;
        // The rows ascend, so that the subject has one.
        let _count = reads.len();
        replace_keys(
            alloc,
            &mut readers,
            subject,
            kept_keys(&reads, &subject),
            &[],
        )?;
        reads.take(alloc, &subject)?;
        Ok(DependMap { reads, readers })
    }
}

impl Duplicate for DependMap {
    /// The same map. It counts what both share, and copies no row.
    fn copy(&self, _alloc: Global) -> Result<DependMap, AllocError> {
        Ok(DependMap {
            reads: self.reads.share()?,
            readers: self.readers.share()?,
        })
    }
}

// Whether a subject has a row, with these keys.
fn has_row(reads: &SharedTable<Subject, Shared<Keys>>, subject: &Subject, keys: &Keys) -> bool
    ensures { IsTrue result ↔ (value_of subject_order reads.now subject.now ≡ Some keys.now) }
{
    orders_are_by_parts();
    match reads.get_near::<BySubject>(subject) {
        Some(old) => are_same(old.as_slice(), keys.as_slice()),
        None => false,
    }
}

// Whether two lists have the same items in the same order.
fn are_same<T: Ord>(items: &[T], others: &[T]) -> bool
    requires exact { (a b : T) → T.cmp a b ≡ Equal → a ≡ b }
    ensures { IsTrue result ↔ (items.now ≡ others.now) }
{
    items == others
}

// The keys of a subject's row, none where it has no row.
fn kept_keys<'a>(reads: &'a SharedTable<Subject, Shared<Keys>>, subject: &Subject) -> &'a [Key]
    ensures { result.now ≡ option_map_or (λ keys. keys) (value_of subject_order reads.now subject.now) [] }
{
    orders_are_by_parts();
    match reads.get_near::<BySubject>(subject) {
        Some(keys) => keys.as_slice(),
        None => &[],
    }
}

// Whether a subject's reads are kept: those of pairs aren't.
fn is_kept(subject: Subject) -> bool
    ensures { result ≡ is_single subject }
{
    !matches!(subject, Subject::Pair(..))
}

// The rows that are kept, each with keys that copies share.
fn shared_rows(
    alloc: Global,
    rows: Vec<(Subject, Keys)>,
) -> Result<Vec<(Subject, Shared<Keys>)>, AllocError>
    ensures { IfOk result (λ kept. kept.items ≡ kept_of rows.items) }
{
    let mut kept = Vec::with_capacity(alloc, rows.len())?;
    for (subject, keys) in rows {
        if is_kept(subject) {
            kept.push((subject, Shared::make(alloc, keys)?))?;
        }
    }
    Ok(kept)
}

// How many keys rows have. A number that isn't a `usize` is out of memory.
fn key_count(rows: &[(Subject, Keys)]) -> Result<usize, AllocError>
    ensures { IfOk result (λ count. count ≡ sum (map (λ row. length row.1) rows.now)) }
{
    let mut count: usize = 0;
    for row in rows {
        count = count.checked_add(row.1.len()).ok_or(AllocError)?;
    }
    Ok(count)
}

// Each key of the rows that are kept with its subject. The memory for all of them is taken at once.
fn pairs_of(alloc: Global, rows: &[(Subject, Keys)]) -> Result<Vec<ReaderRow>, AllocError>
    ensures { IfOk result (λ pairs. pairs.items ≡ reader_rows (kept_of rows.now)) }
{
    let mut pairs = Vec::with_capacity(alloc, key_count(rows)?)?;
    for row in rows {
        if is_kept(row.0) {
            push_pairs(&mut pairs, row.0, &row.1)?;
        }
    }
    Ok(pairs)
}

// Appends each of the keys with the subject.
fn push_pairs(pairs: &mut Vec<ReaderRow>, subject: Subject, keys: &Keys) -> Result<(), AllocError>
    ensures { OnOk result (pairs.new.items ≡ pairs.old.items ++ rows_under subject keys.now) }
{
    for key in keys.as_slice() {
        pairs.push(((*key, subject), ()))?;
    }
    Ok(())
}
