//! The order of nodes after a deletion and an addition.

use super::drawn::check_each;
use super::rows::{Change, Row};
use s57_types::{Kind, RecName};
use std::alloc::{AllocError, Global};
use std::marker::Brand;
use std::sync::ledger::Blank;
use std::test::Fail;

/// Nodes that come. One of them goes, and comes again.
const NODES: [&[(u32, bool)]; 3] = [
    &[
        (1, false),
        (2, false),
        (3, false),
        (4, false),
        (9, false),
        (10, false),
    ],
    &[(9, true)],
    &[(9, false)],
];

fn node_change(id: u32, goes: bool) -> Change {
    let name = RecName { kind: Kind::Vc, id };
    let row = Row {
        name,
        version: 1,
        targets: [name; 3],
        count: 0,
        fidn: 0,
    };
    Change { row, goes }
}

fn node_changes(alloc: Global, nodes: &[(u32, bool)]) -> Result<Vec<Change>, AllocError> {
    let mut changes = Vec::new(alloc);
    for (id, goes) in nodes {
        changes.push(node_change(*id, *goes))?;
    }
    Ok(changes)
}

fn node_lists(alloc: Global) -> Result<Vec<Vec<Change>>, AllocError> {
    let mut lists = Vec::new(alloc);
    for nodes in NODES {
        lists.push(node_changes(alloc, nodes)?)?;
    }
    Ok(lists)
}

#[test]
fn an_addition_goes_last(rt: HostRuntime) -> Result<(), Fail> {
    let alloc = rt.alloc();
    let lists = node_lists(alloc)?;
    let rows = check_each::<Brand>(&rt, alloc, Blank::new(1), &lists)?;
    assert!(rt; rows.iter().map(|row| row.name.id).eq([1, 2, 3, 4, 10, 9]));
    Ok(())
}
