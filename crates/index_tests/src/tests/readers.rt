//! Which subjects read a key.

use cell_spec::{Key, Keys, Subject, orders_are_by_parts};
use depend_map::{DependMap, ReadChange, maps_cross_threads};
use row_table::is_ascending;
use s57_types::Kind::{Vc, Ve};
use s57_types::{Duplicate, RecName};
use std::alloc::{AllocError, Global};
use std::process::Abort;
use std::test::Fail;

const NODE: RecName = RecName { kind: Vc, id: 1 };

const OTHER: RecName = RecName { kind: Vc, id: 2 };

const EDGE: RecName = RecName { kind: Ve, id: 1 };

/// What subjects read. Of a pair nothing is kept.
const ROWS: [(Subject, &[Key]); 4] = [
    (Subject::Rec(NODE), &[Key::Name(NODE)]),
    (
        Subject::Rec(EDGE),
        &[Key::Name(NODE), Key::Name(OTHER), Key::Name(EDGE)],
    ),
    (Subject::Side(EDGE), &[Key::Name(EDGE), Key::Refs(EDGE)]),
    (Subject::Pair(NODE, OTHER), &[Key::Name(NODE)]),
];

/// Keys, the subjects that read them, and those that do when the edge is gone.
const READERS: [(Key, &[Subject], &[Subject]); 4] = [
    (
        Key::Name(NODE),
        &[Subject::Rec(NODE), Subject::Rec(EDGE)],
        &[Subject::Rec(NODE)],
    ),
    (Key::Name(OTHER), &[Subject::Rec(EDGE)], &[]),
    (
        Key::Name(EDGE),
        &[Subject::Rec(EDGE), Subject::Side(EDGE)],
        &[Subject::Side(EDGE)],
    ),
    (Key::Refs(NODE), &[], &[]),
];

fn rows_of(alloc: Global) -> Result<Vec<(Subject, Keys)>, AllocError> {
    let mut rows = Vec::new(alloc);
    for (subject, keys) in &ROWS {
        rows.push((*subject, Keys::of_vec(keys.to_vec(alloc)?)))?;
    }
    Ok(rows)
}

fn map_of(rt: &impl Abort, alloc: Global) -> Result<DependMap, AllocError> {
    orders_are_by_parts();
    let rows = rows_of(alloc)?;
    assert!(rt; is_ascending(&rows));
    DependMap::from_rows(alloc, rows)
}

/// The map without the edge.
fn without_edge(alloc: Global, map: &DependMap) -> Result<DependMap, AllocError> {
    let gone = [ReadChange {
        subject: Subject::Rec(EDGE),
        reads: None,
    }];
    let plan = map.plan(alloc, &gone)?;
    let mut map = map.copy(alloc)?;
    map.reserve(alloc, &plan)?;
    map.install(plan);
    Ok(map)
}

/// Whether these subjects read a key, and no others.
fn are_readers(map: &DependMap, key: Key, wanted: &[Subject]) -> bool {
    map.readers(key).eq(wanted.iter().copied())
}

#[test]
fn subjects_are_found_by_what_they_read(rt: HostRuntime) -> Result<(), Fail> {
    maps_cross_threads();
    let map = map_of(&rt, rt.alloc())?;
    let after = without_edge(rt.alloc(), &map)?;
    for (key, readers, left) in &READERS {
        assert!(rt; are_readers(&map, *key, readers));
        assert!(rt; are_readers(&after, *key, left));
    }
    assert!(rt; after.reads(&Subject::Rec(EDGE)).is_none());
    Ok(())
}
