//! A cell with one closed line and an area along it.

use cell_make::outer;
use geo_exact::Point;
use s57_types::Kind::{Fe, Vc, Ve};
use s57_types::{Attrs, Deep, End, Ends, Kind, Places, Plane, Rec, RecName, Vector};
use std::alloc::{AllocError, Global};

/// The numbers of the node, the edge and the area, which no record of the generated cell has.
pub(crate) const NUMBER: u32 = 100;

/// The area.
pub(crate) const AREA_NAME: RecName = RecName {
    kind: Fe,
    id: NUMBER,
};

fn named(kind: Kind) -> RecName {
    RecName { kind, id: NUMBER }
}

fn vector(alloc: Global, kind: Kind, ends: &[End], points: &[Point]) -> Result<Rec, AllocError> {
    Ok(Rec::V(Vector {
        name: named(kind),
        rver: 1,
        attrs: Attrs::make(alloc),
        ends: Ends::of_vec(ends.to_vec(alloc)?),
        plane: Plane::of_vec(points.to_vec(alloc)?),
        deep: Deep::make(alloc),
    }))
}

/// The node at which the line begins and ends.
pub(crate) fn node(alloc: Global, position: Point) -> Result<Rec, AllocError> {
    vector(alloc, Vc, &[], &[position])
}

fn end_at(topi: u8) -> End {
    End {
        to: named(Vc),
        ornt: 255,
        usag: 255,
        topi,
        mask: 255,
    }
}

/// The line, with its points behind the node.
pub(crate) fn edge(alloc: Global, points: &[Point]) -> Result<Rec, AllocError> {
    vector(alloc, Ve, &[end_at(1), end_at(2)], points)
}

/// A depth area that goes along the line with these orientations, one after the other.
pub(crate) fn area(alloc: Global, orientations: &[u8]) -> Result<Rec, AllocError> {
    let mut places = Vec::new(alloc);
    for ornt in orientations {
        places.push(outer(NUMBER, *ornt))?;
    }
    let attributes = Attrs::make(alloc);
    Ok(cell_make::area(alloc, NUMBER, 1, 42, attributes, Places::of_vec(places)))
}
