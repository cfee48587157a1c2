//! The set of pairs of a key and a subject that reads it.

ghost use Rattle.std.specs.Prelude.{◌≡◌, ◌&&◌, ◌||◌, IfOk, OnOk, not, true, if◌then◌else◌};
ghost use Rattle.std.specs.List.{list_any};
ghost use Rattle.std.specs.List.Sorted.{IsStrictlySortedBy};
ghost use Rattle.cell_spec.specs.declared.key.Key.{Key as SpecKey};
ghost use Rattle.cell_spec.specs.declared.key.Subject.{Subject as SpecSubject};
ghost use Rattle.cell_spec.specs.Names.{key_order, same_subject};
ghost use Rattle.depend_map.specs.Readers.{has_pair, holds_key, is_lost, same_pair};

use cell_spec::{Key, Subject, ascending_keys, has_key, keys_ascend, orders_are_by_parts};
use chain_topo::distinct_by_keys;
use s57_types::Items;
use shared_table::SharedTable;
use std::alloc::{AllocError, Global};

/// The pairs in ascending order. A pair is a row by itself: a list for each key would be copied whole wherever a feature comes or goes,
/// since all features read the key of the head.
pub(crate) type ReaderSet = SharedTable<(Key, Subject), ()>;

/// A pair as a row, which has no value.
pub(crate) type ReaderRow = ((Key, Subject), ());

// Puts the key with the subject.
fn put(alloc: Global, readers: &mut ReaderSet, key: Key, subject: Subject) -> Result<(), AllocError>
    ensures { OnOk result ((k : SpecKey) (s : SpecSubject) →
        has_pair readers.new k s ≡ (same_pair key subject k s || has_pair readers.old k s)) }
{
    orders_are_by_parts();
    readers.put(alloc, (key, subject), ())
}

// Takes the key out with the subject.
fn take(
    alloc: Global,
    readers: &mut ReaderSet,
    key: Key,
    subject: Subject,
) -> Result<(), AllocError>
    ensures { OnOk result ((k : SpecKey) (s : SpecSubject) →
        has_pair readers.new k s ≡ (not (same_pair key subject k s) && has_pair readers.old k s)) }
{
    orders_are_by_parts();
    // The rows ascend, so that the key stands there once.
    let _count = readers.len();
    readers.take(alloc, &(key, subject))
}

// Puts a subject's gained keys: those that aren't among its old ones, which stand there with it.
fn put_gained(
    alloc: Global,
    readers: &mut ReaderSet,
    subject: Subject,
    old: &[Key],
    new: &[Key],
) -> Result<(), AllocError>
    requires ascending { IsStrictlySortedBy key_order old.now }
    requires there { (k : SpecKey) → holds_key old.now k ≡ true → has_pair readers.old k subject ≡ true }
    ensures { OnOk result ((k : SpecKey) (s : SpecSubject) →
        has_pair readers.new k s ≡ ((same_subject subject s && holds_key new.now k) || has_pair readers.old k s)) }
{
    for key in new {
        if !has_key(old, key) {
            put(alloc, readers, *key, subject)?;
        }
    }
    Ok(())
}

// Takes a subject's lost keys out: those of its old ones that aren't among the new ones.
fn take_lost(
    alloc: Global,
    readers: &mut ReaderSet,
    subject: Subject,
    old: &[Key],
    new: &[Key],
) -> Result<(), AllocError>
    requires { IsStrictlySortedBy key_order new.now }
    ensures { OnOk result ((k : SpecKey) (s : SpecSubject) →
        has_pair readers.new k s ≡ (not (same_subject subject s && is_lost old.now new.now k) && has_pair readers.old k s)) }
{
    for key in old {
        if !has_key(new, key) {
            take(alloc, readers, *key, subject)?;
        }
    }
    Ok(())
}

// Puts new keys of a subject in place of its old ones, where both ascend.
fn replace_ascending(
    alloc: Global,
    readers: &mut ReaderSet,
    subject: Subject,
    old: &[Key],
    new: &[Key],
) -> Result<(), AllocError>
    requires old { IsStrictlySortedBy key_order old.now }
    requires new { IsStrictlySortedBy key_order new.now }
    requires kept { (k : SpecKey) → has_pair readers.old k subject ≡ holds_key old.now k }
    ensures { OnOk result ((k : SpecKey) (s : SpecSubject) →
        has_pair readers.new k s ≡ (if same_subject subject s then holds_key new.now k else has_pair readers.old k s)) }
{
    put_gained(alloc, readers, subject, old, new)?;
    take_lost(alloc, readers, subject, old, new)
}

/// Puts new keys of a subject in place of its old ones, each that is lost or gained by itself. Keys that don't ascend are put in order first.
pub(crate) fn replace_keys(
    alloc: Global,
    readers: &mut ReaderSet,
    subject: Subject,
    old: &[Key],
    new: &[Key],
) -> Result<(), AllocError>
    requires { (k : SpecKey) → has_pair readers.old k subject ≡ holds_key old.now k }
    ensures { OnOk result ((k : SpecKey) (s : SpecSubject) →
        has_pair readers.new k s ≡ (if same_subject subject s then holds_key new.now k else has_pair readers.old k s)) }
{
    if keys_ascend(old) && keys_ascend(new) {
        return replace_ascending(alloc, readers, subject, old, new);
    }
    let old = ascending_keys(Items::copy_of(alloc, old)?.into_vec());
    let new = ascending_keys(Items::copy_of(alloc, new)?.into_vec());
    replace_ascending(alloc, readers, subject, old.as_slice(), new.as_slice())
}

/// The set of these pairs, which are put in likely order of their keys before they are sorted.
pub(crate) fn set_of(alloc: Global, rows: Vec<ReaderRow>) -> Result<ReaderSet, AllocError>
    ensures { IfOk result (λ set. (k : SpecKey) (s : SpecSubject) →
        has_pair set k s ≡ list_any (λ row. same_pair row.0.0 row.0.1 k s) rows.items) }
{
    orders_are_by_parts();
    let keys: Vec<Key> = rows.iter().map(|row| row.0.0).collect(alloc)?;
    let rows = distinct_by_keys(alloc, rows, &keys)?;
    let set = SharedTable::from_ascending(alloc, rows)?;
    Ok(set)
}
