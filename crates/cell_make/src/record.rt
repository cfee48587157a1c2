//! The records of the generated cell.

ghost use Rattle.std.specs.Prelude.{◌≡◌, ◌+◌, ◌*◌, ◌≤◌, ◌<◌, IfOk, pos};
ghost use Rattle.cell_parts.specs.Parts.{area as area_of, edge as edge_of, end_at as end_of, outer as outer_of};
ghost use Rattle.cell_make.specs.Squares.{area_id as area_number, east_id as east_number, node_id as node_number, north_id as north_number};
ghost use Rattle.cell_make.specs.GeneratedCell.{depth_area as depth_area_at, east_edge as east_edge_at, node_at as node_of_place, north_edge as north_edge_at};

use s57_types::{Attrs, End, Feature, Items, Kind, Lnam, Places, Rec, RecName, Spot, Vector};
use std::alloc::{AllocError, Global};

/// The side of a square, in integer coordinate units.
pub const SIDE: u32 = 40_000;

/// The depth areas' group and object class DEPARE (S-57 Appendix A).
const DEPTH_GROUP: u8 = 1;

const DEPTH_CLASS: u16 = 42;

/// The identification number of the node at a place.
fn node_id(n: u32, row: u32, column: u32) -> u32
    requires size { n ≤ 100 }
    requires row { row ≤ n }
    requires column { column ≤ n }
    ensures { result ≡ node_number n row column }
{
    1 + row * (n + 1) + column
}

/// The identification number of the edge from a node eastwards.
pub fn east_id(n: u32, row: u32, column: u32) -> u32
    requires size { n ≤ 100 }
    requires row { row ≤ n }
    requires column { column < n }
    ensures { result ≡ east_number n row column }
{
    1 + row * n + column
}

/// The identification number of the edge from a node northwards.
pub fn north_id(n: u32, row: u32, column: u32) -> u32
    requires size { n ≤ 100 }
    requires row { row < n }
    requires column { column ≤ n }
    ensures { result ≡ north_number n row column }
{
    1 + n * (n + 1) + row * (n + 1) + column
}

/// The identification number of the area on a square.
fn area_id(n: u32, row: u32, column: u32) -> u32
    requires size { n ≤ 100 }
    requires row { row < n }
    requires column { column < n }
    ensures { result ≡ area_number n row column }
{
    1 + row * n + column
}

/// The distance of a row or a column from the first.
fn coordinate(count: u32) -> i32
    requires { count ≤ 100 }
    ensures { result ≡ pos (40000 * count) }
{
    (SIDE * count) as i32
}

/// A connected node.
pub fn node(alloc: Global, n: u32, row: u32, column: u32) -> Result<Rec, AllocError>
    requires size { n ≤ 100 }
    requires row { row ≤ n }
    requires column { column ≤ n }
    ensures { IfOk result (λ rec. rec ≡ node_of_place n row column) }
{
    let id = node_id(n, row, column);
    let position = (coordinate(row), coordinate(column));
    Ok(Rec::V(Vector {
        name: RecName { kind: Kind::Vc, id },
        rver: 1,
        attrs: Items::make(alloc),
        ends: Items::make(alloc),
        plane: Items::of_vec(vec![in alloc; position]?),
        deep: Items::make(alloc),
    }))
}

fn end_at(topi: u8, id: u32) -> End
    ensures { result ≡ end_of topi id }
{
    End {
        to: RecName { kind: Kind::Vc, id },
        ornt: 255,
        usag: 255,
        topi,
        mask: 255,
    }
}

/// An edge without points from one connected node to another.
fn edge(alloc: Global, id: u32, first: u32, last: u32) -> Result<Rec, AllocError>
    ensures { IfOk result (λ rec. rec ≡ edge_of id first last) }
{
    Ok(Rec::V(Vector {
        name: RecName { kind: Kind::Ve, id },
        rver: 1,
        attrs: Items::make(alloc),
        ends: Items::of_vec(vec![in alloc; end_at(1, first), end_at(2, last)]?),
        plane: Items::make(alloc),
        deep: Items::make(alloc),
    }))
}

/// The edge from a node eastwards to the next one.
pub fn east_edge(alloc: Global, n: u32, row: u32, column: u32) -> Result<Rec, AllocError>
    requires size { n ≤ 100 }
    requires row { row ≤ n }
    requires column { column < n }
    ensures { IfOk result (λ rec. rec ≡ east_edge_at n row column) }
{
    let id = east_id(n, row, column);
    let first = node_id(n, row, column);
    let last = node_id(n, row, column + 1);
    edge(alloc, id, first, last)
}

/// The edge from a node northwards to the next one.
pub fn north_edge(alloc: Global, n: u32, row: u32, column: u32) -> Result<Rec, AllocError>
    requires size { n ≤ 100 }
    requires row { row < n }
    requires column { column ≤ n }
    ensures { IfOk result (λ rec. rec ≡ north_edge_at n row column) }
{
    let id = north_id(n, row, column);
    let first = node_id(n, row, column);
    let last = node_id(n, row + 1, column);
    edge(alloc, id, first, last)
}

/// An edge of an exterior boundary.
pub fn outer(id: u32, ornt: u8) -> Spot
    ensures { result ≡ outer_of id ornt }
{
    Spot {
        to: RecName { kind: Kind::Ve, id },
        ornt,
        usag: 1,
        mask: 255,
    }
}

/// An area of a group and an object class.
pub fn area(alloc: Global, id: u32, grup: u8, objl: u16, attf: Attrs, places: Places) -> Rec
    ensures { result ≡ area_of id grup objl attf places }
{
    Rec::F(Feature {
        name: RecName { kind: Kind::Fe, id },
        prim: 3,
        grup,
        objl,
        rver: 1,
        foid: Lnam {
            agen: 1,
            fidn: id,
            fids: 1,
        },
        attf,
        natf: Items::make(alloc),
        partners: Items::make(alloc),
        places,
    })
}

/// The depth area on a square: its western, northern, eastern and southern edge, the last two against their direction.
pub fn depth_area(alloc: Global, n: u32, row: u32, column: u32) -> Result<Rec, AllocError>
    requires size { n ≤ 100 }
    requires row { row < n }
    requires column { column < n }
    ensures { IfOk result (λ rec. rec ≡ depth_area_at n row column) }
{
    let west = outer(north_id(n, row, column), 1);
    let north = outer(east_id(n, row + 1, column), 1);
    let east = outer(north_id(n, row, column + 1), 2);
    let south = outer(east_id(n, row, column), 2);
    let id = area_id(n, row, column);
    let boundary = Items::of_vec(vec![in alloc; west, north, east, south]?);
    Ok(area(
        alloc,
        id,
        DEPTH_GROUP,
        DEPTH_CLASS,
        Items::make(alloc),
        boundary,
    ))
}
