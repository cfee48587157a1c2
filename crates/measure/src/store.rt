//! The indexed store: loaded, copied, and changed by edits of one record.

ghost use Rattle.std.specs.Prelude.{◌≡◌, ◌<◌, ◌∷◌, [], IfSome, IsTrue, true};
ghost use Rattle.std.specs.Borrow.{Bor};
ghost use Rattle.cell_spec.specs.declared.edit.Edit.{Edit as SpecEdit};
ghost use Rattle.cell_spec.specs.Edits.{is_applicable};

use crate::held::{copies_of, hold};
use crate::lookups::{number_below, numbered_feature, writable_cell};
use crate::table::next_number;
use answer_laws::{counts_after_edits, formed_edits_find_their_records};
use cell_spec::{Edit, writable_cells_are_readable};
use chain_topo::{Look, Steps};
use edit_sets::EditSet;
use look_counter::start_counter;
use record_store::RecordStore;
use s57_types::{Duplicate, Kind, Rec};
use std::alloc::{AllocError, Global};
use std::marker::Brand;
use std::sync::ledger::{Blank, Ledger};

/// How many copies a case makes.
const COPIES: u32 = 1_000_000;

/// How many edit sets a case makes.
const SETS: u32 = 100_000;

/// How many older stores live beside the last, in the cases that hold some.
const HELD: usize = 16;

/// What is done with the store of a cell of features, each with two pointers and an identifier that it shares with one other.
#[derive(Clone, Copy)]
pub enum Work {
    /// The cell is made.
    Cell,
    /// Its store is loaded.
    Load,
    /// Then a million copies are made, each of which goes at once.
    Copies,
    /// After loading, edit sets are made, each of which replaces one feature.
    Sets,
    /// Then each is planned and installed, with so many older stores held.
    Plans { held: usize },
}

impl Work {
    /// The work of a name within the group.
    pub fn of(name: &str) -> Option<Work> {
        match name {
            "cell" => Some(Work::Cell),
            "load" => Some(Work::Load),
            "copies" => Some(Work::Copies),
            "sets" => Some(Work::Sets),
            "plans" => Some(Work::Plans { held: 0 }),
            "plans_held" => Some(Work::Plans { held: HELD }),
            _ => None,
        }
    }
}

/// A set of one edit, which gives a random feature other pointers. There is none where a cell has no feature.
fn one_edit(alloc: Global, seed: u64, size: u32, nall: u8) -> Result<Option<EditSet>, AllocError> {
    let id = number_below(seed, size);
    let edit = Edit::Set(numbered_feature(alloc, id, next_number(seed), size)?);
    Ok(EditSet::make(alloc, &[edit], &[], nall).ok())
}

fn sets_of(alloc: Global, size: u32, nall: u8) -> Result<Vec<EditSet>, AllocError> {
    let mut sets = Vec::new(alloc);
    let mut seed = 5;
    for _ in 0..SETS {
        seed = next_number(seed);
        if let Some(set) = one_edit(alloc, seed, size, nall)? {
            sets.push(set)?;
        }
    }
    Ok(sets)
}

/// The edit of a set that has no other.
fn only_edit(set: &EditSet) -> Option<&Edit>
    ensures { IfSome result (λ (edit : Bor SpecEdit). set.now.edits ≡ edit.now ∷ []) }
{
    match set.edits() {
        [edit] => Some(edit),
        _ => None,
    }
}

/// Whether a store has the feature that the only edit of a set replaces.
fn is_taken<L: Ledger>(
    store: &RecordStore,
    set: &EditSet,
    edit: &Edit,
    steps: &mut Steps<L>,
) -> bool
    requires level { set.now.nall ≡ store.now.head.nall }
    requires only { set.now.edits ≡ edit.now ∷ [] }
    ensures { IsTrue result → is_applicable set.now.edits store.now ≡ true }
{
    set.known();
    store.known();
    writable_cells_are_readable();
    formed_edits_find_their_records();
    counts_after_edits();
    let Edit::Set(rec) = edit else {
        return false;
    };
    let name = rec.name();
    match name.kind {
        Kind::Fe => store.get(name, steps).is_some(),
        _ => false,
    }
}

/// Plans the edits of a set and installs the plan, and gives the store before them.
fn change<L: Ledger>(
    alloc: Global,
    store: &mut RecordStore,
    set: &EditSet,
    steps: &mut Steps<L>,
) -> Result<RecordStore, AllocError> {
    let last = store.copy(alloc)?;
    if let Some(edit) = only_edit(set)
        && set.nall() == last.head().nall
        && is_taken(&last, set, edit, steps)
    {
        store.install(last.plan(alloc, set)?);
    }
    Ok(last)
}

/// Changes a store by one set after the other, and holds the last stores before.
fn change_all<L: Ledger>(
    alloc: Global,
    store: &mut RecordStore,
    sets: &[EditSet],
    held: &mut [RecordStore],
    blank: Blank,
) -> Result<(), AllocError>
    requires name { blank.name ≡ L.name }
    requires parts { blank.parts ≡ L.parts }
    requires some_part { 0 < L.parts }
{
    let mut steps = start_counter::<L>(blank);
    for round in 0..sets.len() {
        let last = change(alloc, store, &sets[round], &mut steps)?;
        hold(held, round, last);
    }
    Ok(())
}

fn sum_of_records(store: &RecordStore) -> u64 {
    let mut sum = 0u64;
    for rec in store.walk(Kind::Fe) {
        sum = sum.wrapping_mul(31).wrapping_add(match rec {
            Rec::F(feature) => u64::from(feature.name.id),
            _ => 7,
        });
    }
    sum
}

fn sum_of_copies(alloc: Global, store: &RecordStore) -> Result<u64, AllocError> {
    let mut sum = 0u64;
    for _ in 0..COPIES {
        sum = sum.wrapping_add(u64::from(store.copy(alloc)?.count()));
    }
    Ok(sum)
}

fn outcome_of_sets(
    alloc: Global,
    work: Work,
    size: u32,
    mut store: RecordStore,
) -> Result<u64, AllocError> {
    let sets = sets_of(alloc, size, store.head().nall)?;
    match work {
        Work::Plans { held } => {
            let mut held = copies_of(alloc, &store, held)?;
            change_all::<Brand>(alloc, &mut store, &sets, &mut held, Blank::new(1))?;
            Ok(sum_of_records(&store))
        }
        _ => Ok(sum_of_records(&store).wrapping_add(sets.len() as u64)),
    }
}

/// What the work answers of the store of a cell of so many features, or 0 where a cell has no room for them.
pub fn outcome(alloc: Global, work: Work, size: u32) -> Result<u64, AllocError> {
    let Some(cell) = writable_cell(alloc, size)? else {
        return Ok(0);
    };
    if matches!(work, Work::Cell) {
        return Ok(cell.fe.len() as u64);
    }
    let store = RecordStore::load(alloc, cell)?;
    match work {
        Work::Cell | Work::Load => Ok(u64::from(store.count())),
        Work::Copies => sum_of_copies(alloc, &store),
        Work::Sets | Work::Plans { .. } => outcome_of_sets(alloc, work, size, store),
    }
}
