//! Drawn cells and edits: records that point to themselves, to nothing and to one record twice, and features of one identifier. A store, edits
//! laid over it, the store that they leave, the store before, a store of the same cell and the sorted lists answer what the rows say.

ghost use Rattle.std.specs.Prelude.{◌≡◌, ◌<◌};
ghost use Rattle.cell_spec.specs.Writable.{IsWritable};

use super::benches::{commit, empty_bench, set_for};
use super::looks::{NAMES, check_look};
use super::rows::{Change, Row, edits_of, kind_of, nth_name, rows_after};
use cell_bench::Bench;
use cell_overlay::{Overlay, overlays_cross_threads};
use cell_spec::writable_cells_are_readable;
use chain_topo::{ListLook, Steps};
use edit_sets::EditSet;
use look_counter::start_counter;
use record_store::{RecordStore, stores_cross_threads};
use s57_types::{Cell, Duplicate, Kind, RecName};
use std::alloc::{AllocError, Global};
use std::marker::Brand;
use std::process::Abort;
use std::sync::ledger::{Blank, Ledger};
use std::test::Fail;

/// How many edit sets are drawn, one after the other.
const ROUNDS: u32 = 40;

/// The next number, of 24 bits.
fn draw(state: &mut u32) -> u32 {
    *state = state.wrapping_mul(1_664_525).wrapping_add(1_013_904_223);
    *state >> 8
}

/// The name of a node or an edge, which a cell may have or not.
fn drawn_target(state: &mut u32) -> RecName {
    let number = draw(state);
    RecName {
        kind: kind_of(number % 3),
        id: number / 4 % 5,
    }
}

/// A change of a name. Each third one is its end.
fn drawn_change(state: &mut u32, name: RecName) -> Change {
    Change {
        row: Row {
            name,
            version: (draw(state) % 60_000) as u16,
            targets: [
                drawn_target(state),
                drawn_target(state),
                drawn_target(state),
            ],
            count: (draw(state) % 4) as usize,
            fidn: draw(state) % 2,
        },
        goes: draw(state) % 3 == 0,
    }
}

/// Changes of about every other name, which stand in another order from one to the next call.
fn drawn_changes(alloc: Global, state: &mut u32) -> Result<Vec<Change>, AllocError> {
    let first = draw(state) % NAMES;
    let mut changes = Vec::new(alloc);
    for k in 0..NAMES {
        if draw(state) % 2 == 0 {
            changes.push(drawn_change(state, nth_name((first + 7 * k) % NAMES)))?;
        }
    }
    Ok(changes)
}

/// Checks that a store walks the rows of a kind in their order.
fn check_walk(rt: &impl Abort, store: &RecordStore, kind: Kind, rows: &[Row]) {
    let mut walk = store.walk(kind);
    for row in rows.iter().filter(|row| row.name.kind == kind) {
        let Some(rec) = walk.next() else {
            panic!(rt; "a record is missing");
        };
        assert!(rt; rec.name() == row.name);
    }
    assert!(rt; walk.next().is_none());
}

/// Checks a store.
fn check_store<L: Ledger>(
    rt: &impl Abort,
    alloc: Global,
    store: &RecordStore,
    rows: &[Row],
    steps: &mut Steps<L>,
) -> Result<(), AllocError> {
    check_look(rt, alloc, store, rows, steps)?;
    for number in 0..4 {
        check_walk(rt, store, kind_of(number), rows);
    }
    assert!(rt; store.count() as usize == rows.len());
    Ok(())
}

/// Checks the sorted lists of a cell.
fn check_lists<L: Ledger>(
    rt: &impl Abort,
    alloc: Global,
    cell: &Cell,
    rows: &[Row],
    steps: &mut Steps<L>,
) -> Result<(), AllocError>
    requires { IsWritable cell.now }
{
    writable_cells_are_readable();
    let lists = ListLook::make(alloc, cell)?;
    check_look(rt, alloc, &lists, rows, steps)
}

/// Checks edits laid over the store of a bench, which takes them.
fn check_overlay<L: Ledger>(
    rt: &impl Abort,
    alloc: Global,
    bench: &Bench,
    set: &EditSet,
    rows: &[Row],
    steps: &mut Steps<L>,
) -> Result<(), AllocError>
    requires { set.now.nall ≡ bench.now.head.nall }
{
    bench.known();
    let taken = bench.takes(alloc, set, steps)?;
    assert!(rt; taken);
    let over = Overlay::make(alloc, bench.store(), set, steps)?;
    check_look(rt, alloc, &over, rows, steps)
}

/// Checks the store of a bench, one of a copy of its cell, and the sorted lists of that.
fn check_cell<L: Ledger>(
    rt: &impl Abort,
    alloc: Global,
    bench: &Bench,
    rows: &[Row],
    steps: &mut Steps<L>,
) -> Result<(), AllocError> {
    bench.known();
    check_store(rt, alloc, bench.store(), rows, steps)?;
    check_lists(rt, alloc, &bench.to_cell(alloc)?, rows, steps)?;
    let again = RecordStore::load(alloc, bench.to_cell(alloc)?)?;
    check_store(rt, alloc, &again, rows, steps)
}

/// Lays the edits of changes over the store of a bench, commits them, and answers the rows that they leave.
fn check_changes<L: Ledger>(
    rt: &impl Abort,
    alloc: Global,
    bench: &mut Bench,
    rows: &[Row],
    changes: &[Change],
    steps: &mut Steps<L>,
) -> Result<Vec<Row>, Fail> {
    let set = set_for(rt, alloc, bench, &edits_of(alloc, rows, changes)?)?;
    let after = rows_after(alloc, rows, changes)?;
    check_overlay(rt, alloc, bench, &set, &after, steps)?;
    let before = bench.copy(alloc)?;
    commit(rt, alloc, bench, &set, steps);
    check_cell(rt, alloc, bench, &after, steps)?;
    check_store(rt, alloc, before.store(), rows, steps)?;
    Ok(after)
}

/// Checks lists of changes, one after the other, from a cell without a record, and answers the rows that they leave.
pub(crate) fn check_each<L: Ledger>(
    rt: &impl Abort,
    alloc: Global,
    blank: Blank,
    lists: &[Vec<Change>],
) -> Result<Vec<Row>, Fail>
    requires name { blank.name ≡ L.name }
    requires parts { blank.parts ≡ L.parts }
    requires some_part { 0 < L.parts }
{
    let mut steps = start_counter::<L>(blank);
    let mut bench = empty_bench(rt, alloc, &mut steps)?;
    let mut rows = Vec::new(alloc);
    for changes in lists {
        rows = check_changes(rt, alloc, &mut bench, &rows, changes, &mut steps)?;
    }
    Ok(rows)
}

fn drawn_lists(alloc: Global) -> Result<Vec<Vec<Change>>, AllocError> {
    let mut lists = Vec::new(alloc);
    let mut state = 1;
    for _ in 0..ROUNDS {
        lists.push(drawn_changes(alloc, &mut state)?)?;
    }
    Ok(lists)
}

#[test]
fn stores_and_overlays_answer_what_the_rows_say(rt: HostRuntime) -> Result<(), Fail> {
    stores_cross_threads();
    overlays_cross_threads::<RecordStore>();
    let alloc = rt.alloc();
    let lists = drawn_lists(alloc)?;
    let rows = check_each::<Brand>(&rt, alloc, Blank::new(1), &lists)?;
    assert!(rt; rows.len() > 4);
    Ok(())
}
