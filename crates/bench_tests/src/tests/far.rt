//! Findings that come and go with records that they aren't about.

ghost use Rattle.std.specs.Prelude.{◌≡◌, ◌<◌, ◌≤◌};

use super::rows::Change::{Add, Del, Set};
use super::rows::Item::{Edge, Line, Node};
use super::rows::{Row, check_rows};
use cell_spec::Subject;
use look_counter::start_counter;
use rule_spec::{CROSS, ORPHAN, SAME_PLACE, TWICE_FOID};
use s57_types::Kind::{Fe, Vc, Ve};
use s57_types::{Lnam, RecName};
use std::alloc::{AllocError, Global};
use std::marker::Brand;
use std::process::Abort;
use std::sync::ledger::{Blank, Ledger};
use std::test::Fail;

/// The numbers of a finding that has none.
const NONE: [u32; 4] = [0, 0, 0, 0];

const FAR_EDGE: RecName = RecName {
    kind: Ve,
    id: 2_000,
};

/// The node in the middle of the cell is moved. South of the cell an edge is added with its nodes, then a line on it.
const FAR_ROWS: [Row; 3] = [
    (&[Set(Node(221, (400_001, 400_001)))], &[]),
    (
        &[
            Add(Node(1_001, (-90_000, 0))),
            Add(Node(1_002, (-90_000, 40_000))),
            Add(Edge(2_000, (1_001, 1_002))),
        ],
        &[(Subject::Side(FAR_EDGE), ORPHAN, NONE)],
    ),
    (&[Add(Line(3_000, 3_000, 2_000))], &[]),
];

const FIRST: RecName = RecName { kind: Ve, id: 11 };

const SECOND: RecName = RecName { kind: Ve, id: 12 };

const LEFT: RecName = RecName { kind: Vc, id: 13 };

const RIGHT: RecName = RecName { kind: Vc, id: 14 };

const SHARED: Lnam = Lnam {
    agen: 1,
    fidn: 11,
    fids: 1,
};

/// Two edges south of the cell, one from west to east and one from north to south.
const ROWS: [Row; 15] = [
    (
        &[
            Add(Node(11, (-90_000, 0))),
            Add(Node(12, (-90_000, 40_000))),
            Add(Node(13, (-80_000, 20_000))),
            Add(Node(14, (-70_000, 20_000))),
            Add(Edge(11, (11, 12))),
            Add(Edge(12, (13, 14))),
        ],
        &[
            (Subject::Side(FIRST), ORPHAN, NONE),
            (Subject::Side(SECOND), ORPHAN, NONE),
        ],
    ),
    // a pointer comes, goes to the other edge and comes back
    (&[Add(Line(11, 11, 11)), Add(Line(12, 12, 12))], &[]),
    (
        &[Set(Line(12, 12, 11))],
        &[(Subject::Side(SECOND), ORPHAN, NONE)],
    ),
    (&[Set(Line(12, 12, 12))], &[]),
    // a node is moved: its edge crosses the other
    (
        &[Set(Node(14, (-100_000, 20_000)))],
        &[(Subject::Pair(FIRST, SECOND), CROSS, [1, 1, 0, 0])],
    ),
    (&[Set(Node(14, (-70_000, 20_000)))], &[]),
    (
        &[Set(Node(14, (-100_000, 20_000)))],
        &[(Subject::Pair(FIRST, SECOND), CROSS, [1, 1, 0, 0])],
    ),
    // a record is deleted that makes a pair with another
    (&[Del(SECOND), Del(RecName { kind: Fe, id: 12 })], &[]),
    (
        &[Set(Node(13, (-100_000, 20_000)))],
        &[(Subject::Pair(LEFT, RIGHT), SAME_PLACE, NONE)],
    ),
    (&[Del(RIGHT)], &[]),
    // an identifier is shared, isn't, is shared again, and is nobody's
    (
        &[Add(Line(13, 11, 11))],
        &[(Subject::Ident(SHARED), TWICE_FOID, [2, 0, 0, 0])],
    ),
    (&[Set(Line(13, 13, 11))], &[]),
    (
        &[Set(Line(13, 11, 11))],
        &[(Subject::Ident(SHARED), TWICE_FOID, [2, 0, 0, 0])],
    ),
    (
        &[
            Del(RecName { kind: Fe, id: 11 }),
            Del(RecName { kind: Fe, id: 13 }),
        ],
        &[(Subject::Side(FIRST), ORPHAN, NONE)],
    ),
    // a deleted record's own finding goes
    (&[Del(FIRST)], &[]),
];

fn check_from<L: Ledger>(
    rt: &impl Abort,
    alloc: Global,
    blank: Blank,
    n: u32,
    rows: &[Row],
) -> Result<(), AllocError>
    requires name { blank.name ≡ L.name }
    requires parts { blank.parts ≡ L.parts }
    requires some_part { 0 < L.parts }
    requires some { 1 ≤ n }
    requires few { n ≤ 100 }
{
    let mut steps = start_counter::<L>(blank);
    check_rows(rt, alloc, n, rows, &mut steps)
}

/// The finding on an edge that no feature uses comes with the edge and goes with a line that names it, though no commit edits what it is about.
/// Each makes no more look-ups than a plan may.
#[test]
fn far_verdict(rt: HostRuntime) -> Result<(), Fail> {
    check_from::<Brand>(&rt, rt.alloc(), Blank::new(1), 20, &FAR_ROWS)?;
    Ok(())
}

#[test]
fn findings_come_and_go(rt: HostRuntime) -> Result<(), Fail> {
    check_from::<Brand>(&rt, rt.alloc(), Blank::new(1), 1, &ROWS)?;
    Ok(())
}
