//! Edges with drawn points, split and joined again.

use super::calls::{checked, exported, joined, printed};
use super::draws::draw;
use super::square;
use enc_outside::{MemShelf, NoMeet};
use std::alloc::Global;
use std::sync::Wait;
use std::test::Fail;
use std::thread::Threads;

/// The boundary of both areas of the square, as items of a record.
const BOUNDARY: &str = "s=ve:3:1:1:255 s=ve:2:1:1:255 s=ve:4:2:1:255 s=ve:1:2:1:255";

/// An edge of the square, with its beginning node and its end node.
#[derive(Clone, Copy)]
struct Edge {
    id: u32,
    begins: u32,
    ends: u32,
}

fn edge_between(id: u32, begins: u32, ends: u32) -> Edge {
    Edge { id, begins, ends }
}

/// Points that are drawn, as items of a record.
fn drawn_points(alloc: Global, state: &mut u32, count: u32) -> Result<String, Fail> {
    let mut items = String::new(alloc);
    for _ in 0..count {
        let (y, x) = (draw(state) % 40_000, draw(state) % 40_000);
        items.push_str(format!(in alloc; " p={y},{x}")?.as_str())?;
    }
    Ok(items)
}

/// The square with points in one of its edges, with the edge and both areas in a version.
fn drawn_cell<R: Threads + Wait + Sync>(
    rt: &R,
    alloc: Global,
    edge: Edge,
    points: &str,
    version: u32,
) -> Result<Vec<u8>, Fail> {
    let Edge { id, begins, ends } = edge;
    let line = format!(in alloc;
        "set ve {id} {version} e=vc:{begins}:255:255:1:255 e=vc:{ends}:255:255:2:255{points}"
    )?;
    let places = BOUNDARY;
    let script = format!(in alloc;
        "{line}\nset fe 1 {version} 3 1 42 1 1 1 {places}\nset fe 2 {version} 3 2 302 1 2 1 a=18:1 {places}\ncommit\n"
    )?;
    let square = joined(alloc, &square::ROWS)?;
    exported(rt, alloc, &square, b"order 1\n", script.as_bytes())
}

#[test]
fn forty_split_edges_are_joined_again(rt: HostRuntime) -> Result<(), Fail> {
    let alloc = rt.alloc();
    let mut state = 3;
    for round in 0..40u32 {
        let edge = match round % 4 {
            0 => edge_between(1, 1, 2),
            1 => edge_between(2, 3, 4),
            2 => edge_between(3, 1, 3),
            _ => edge_between(4, 2, 4),
        };
        let count = draw(&mut state) % 6 + 1;
        let at = draw(&mut state) % count + 2;
        let points = drawn_points(alloc, &mut state, count)?;
        let file = drawn_cell(&rt, alloc, edge, points.as_str(), 1)?;
        let mut shelf = MemShelf::make(alloc);
        shelf.place("CELL", &file)?;
        let id = edge.id;
        let call = format!(in alloc; "split CELL PARTS {id} {at} 9 9")?;
        let parts = printed(&rt, alloc, &mut shelf, call.as_str(), &NoMeet)?;
        assert!(rt; parts.starts_with(b"cell vi 0 vc 5 ve 5 fe 2\n"), "{round}");
        let call = format!(in alloc; "join PARTS OUT {id} 9")?;
        let whole = printed(&rt, alloc, &mut shelf, call.as_str(), &NoMeet)?;
        assert!(rt; whole == checked(&rt, alloc, &file)?, "{round}");
        let expected = drawn_cell(&rt, alloc, edge, points.as_str(), 3)?;
        assert!(rt; shelf.file("OUT") == Some(expected.as_slice()), "{round}");
    }
    Ok(())
}
