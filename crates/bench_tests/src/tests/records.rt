//! Records, by what tells them apart.

ghost use Rattle.std.specs.Prelude.{◌≡◌, IfOk};
ghost use Rattle.bench_tests.specs.Moves.{node_of};

use s57_types::Kind::{Fe, Vc, Ve};
use s57_types::{
    Attrs, Deep, End, Ends, Feature, Kind, Lnam, Partners, Places, Plane, Rec, RecName, Spot,
    Vector,
};
use std::alloc::{AllocError, Global};

/// A line or an area (PRIM 2 or 3) with its identifier and its spatial pointers.
#[derive(Clone, Copy)]
pub(crate) struct Shape<'a> {
    pub(crate) prim: u8,
    pub(crate) fidn: u32,
    pub(crate) places: &'a [Spot],
}

/// The class of a line: a coastline, COALNE.
const LINE_CLASS: u16 = 30;

/// The class of an area: a depth area, DEPARE, which is of Group 1.
const AREA_CLASS: u16 = 42;

pub(crate) fn named(kind: Kind, id: u32) -> RecName
    ensures { result ≡ record { kind = kind; id = id } }
{
    RecName { kind, id }
}

/// A connected node, of version 2.
pub(crate) fn node(alloc: Global, id: u32, position: (i32, i32)) -> Result<Rec, AllocError>
    ensures { IfOk result (λ rec. rec ≡ node_of id position) }
{
    Ok(Rec::V(Vector {
        name: named(Vc, id),
        rver: 2,
        attrs: Attrs::make(alloc),
        ends: Ends::make(alloc),
        plane: Plane::of_vec(vec![in alloc; position]?),
        deep: Deep::make(alloc),
    }))
}

/// A pointer to a connected node: 1 for the beginning node, 2 for the end node.
pub(crate) fn end_at(topi: u8, id: u32) -> End {
    End {
        to: named(Vc, id),
        ornt: 255,
        usag: 255,
        topi,
        mask: 255,
    }
}

/// An edge without points of its own, of version 2.
pub(crate) fn edge(alloc: Global, id: u32, ends: &[End]) -> Result<Rec, AllocError> {
    Ok(Rec::V(Vector {
        name: named(Ve, id),
        rver: 2,
        attrs: Attrs::make(alloc),
        ends: Ends::of_vec(ends.to_vec(alloc)?),
        plane: Plane::make(alloc),
        deep: Deep::make(alloc),
    }))
}

/// A feature, of version 2.
pub(crate) fn feature(alloc: Global, id: u32, shape: Shape<'_>) -> Result<Rec, AllocError> {
    let (grup, objl) = if shape.prim == 3 {
        (1, AREA_CLASS)
    } else {
        (2, LINE_CLASS)
    };
    Ok(Rec::F(Feature {
        name: named(Fe, id),
        prim: shape.prim,
        grup,
        objl,
        rver: 2,
        foid: Lnam {
            agen: 1,
            fidn: shape.fidn,
            fids: 1,
        },
        attf: Attrs::make(alloc),
        natf: Attrs::make(alloc),
        partners: Partners::make(alloc),
        places: Places::of_vec(shape.places.to_vec(alloc)?),
    }))
}

/// A line on one edge, of version 2.
pub(crate) fn line(alloc: Global, id: u32, fidn: u32, edge: u32) -> Result<Rec, AllocError> {
    let place = Spot {
        to: named(Ve, edge),
        ornt: 1,
        usag: 255,
        mask: 255,
    };
    let shape = Shape {
        prim: 2,
        fidn,
        places: &[place],
    };
    feature(alloc, id, shape)
}
