//! Lists, names and copies.

use s57_types::{
    Attr, Attrs, Deep, Duplicate, Ends, Kind, Plane, Rec, RecName, Recs, Text, Vector,
};
use std::alloc::{AllocError, Global};
use std::process::Abort;
use std::test::Fail;

/// How many points a list has once this one was put behind them, and the last of them.
fn with_one_more(plane: Plane, point: (i32, i32)) -> Result<(usize, (i32, i32)), AllocError> {
    let mut points = plane.into_vec();
    points.push(point)?;
    let longer = Plane::of_vec(points);
    Ok((longer.len(), *longer.at(longer.len() - 1)))
}

#[test]
fn a_list_is_its_items(rt: HostRuntime) -> Result<(), Fail> {
    let mut plane = Plane::make(rt.alloc());
    assert!(rt; plane.is_empty());
    plane.push((-1, 2))?;
    plane.push((3, -4))?;
    assert_eq!(rt; plane.len(), 2);
    assert_eq!(rt; *plane.at(1), (3, -4));
    assert_eq!(rt; plane.as_slice(), [(-1, 2), (3, -4)].as_slice());
    assert_eq!(rt; with_one_more(plane, (5, 6))?, (3, (5, 6)));
    Ok(())
}

#[test]
fn names_are_ordered_by_kind_then_number(rt: HostRuntime) {
    let of = |kind: Kind, id: u32| RecName { kind, id };
    let ascending = [
        of(Kind::Vi, 9),
        of(Kind::Vc, 8),
        of(Kind::Vc, 10),
        of(Kind::Ve, 1),
        of(Kind::Fe, 0),
        RecName::of_head(),
    ];
    for (k, name) in ascending.iter().enumerate() {
        for later in &ascending[k + 1..] {
            assert!(rt; name < later, "{name:?} {later:?}");
        }
    }
}

/// A node with one attribute.
fn node(alloc: Global) -> Result<Rec, AllocError> {
    let value = Text::of_vec(b"12".to_vec(alloc)?);
    let mut attrs = Attrs::make(alloc);
    attrs.push(Attr { code: 87, value })?;
    Ok(Rec::V(Vector {
        name: RecName {
            kind: Kind::Vi,
            id: 7,
        },
        rver: 1,
        attrs,
        ends: Ends::make(alloc),
        plane: Plane::make(alloc),
        deep: Deep::make(alloc),
    }))
}

/// A copy of a list of one node, which the list does not outlive.
fn twin_of_nodes(alloc: Global) -> Result<Recs, AllocError> {
    let mut vi = Recs::make(alloc);
    vi.push(node(alloc)?)?;
    vi.copy(alloc)
}

/// Checks that a record is the node.
fn check_node(rt: &impl Abort, record: &Rec) -> Result<(), Fail> {
    let Rec::V(vector) = record else {
        return Err(Fail::from("a feature"));
    };
    assert_eq!(rt; vector.name.id, 7);
    assert_eq!(rt; vector.attrs.len(), 1);
    assert_eq!(rt; vector.attrs.at(0).value.as_slice(), b"12".as_slice());
    Ok(())
}

#[test]
fn a_copy_is_equal_and_apart(rt: HostRuntime) -> Result<(), Fail> {
    let twin = twin_of_nodes(rt.alloc())?;
    assert_eq!(rt; twin.len(), 1);
    check_node(&rt, twin.at(0))
}
