//! Which nodes and edges lie near one another. A tile is a square of 65,536 units; positions are latitude and longitude.

use s57_types::{Kind, Plane, RecName};
use std::alloc::{AllocError, Global};
use std::test::Fail;
use tile_index::{TileChange, TileIndex, indexes_cross_threads};

/// The ends of a line, both latitudes before both longitudes: an edge, or a node where they are one.
type Line = [i32; 4];

/// Lines, numbered from 0, and those that are near the first of them: nodes, then edges.
type Case = (&'static [Line], &'static [u32]);

const LEAST: i32 = -2_147_483_648;

const MOST: i32 = 2_147_483_647;

/// Nodes in the 64th tile from the first, in the 65th, and far away.
const CASES: [Case; 7] = [
    // 64 tiles, 65, and 2^32 along each diagonal
    (
        &[
            [0, 0, 0, 4_128_768],
            [0, 0, 4_128_768, 4_128_768],
            [0, 0, 4_194_304, 4_194_304],
            [-9_000_000, -9_000_000, 0, 0],
        ],
        &[1],
    ),
    (
        &[
            [0, 0, 0, 4_194_304],
            [0, 0, 4_128_768, 4_128_768],
            [0, 0, 4_194_304, 4_194_304],
            [-9_000_000, -9_000_000, 0, 0],
        ],
        &[1, 2, 3],
    ),
    (
        &[
            [LEAST, MOST, LEAST, MOST],
            [0, 0, 1, 1],
            [LEAST, MOST, MOST, LEAST],
        ],
        &[1, 2],
    ),
    (
        &[
            [LEAST, MOST, MOST, LEAST],
            [0, 0, 1, 1],
            [LEAST, MOST, LEAST, MOST],
        ],
        &[1, 2],
    ),
    (
        &[[0, 0, 1, 1], [LEAST, MOST, MOST, LEAST], [0, 0, -1, -1]],
        &[1],
    ),
    // on one side of a meridian of tiles, and on both
    (&[[65_536, 65_536, -1, -1], [65_536, 65_536, -1, -1]], &[1]),
    (&[[65_536, 65_536, -1, -1], [65_536, 65_536, 0, 0]], &[]),
];

fn is_node(line: &Line) -> bool {
    line[0] == line[1] && line[2] == line[3]
}

fn name_of(line: &Line, id: u32) -> RecName {
    RecName {
        kind: if is_node(line) { Kind::Vc } else { Kind::Ve },
        id,
    }
}

/// The change that puts a line where it lies.
fn change(alloc: Global, line: &Line, id: u32) -> Result<TileChange, AllocError> {
    let mut points = Plane::make(alloc);
    points.push((line[0], line[2]))?;
    if !is_node(line) {
        points.push((line[1], line[3]))?;
    }
    Ok(TileChange {
        name: name_of(line, id),
        points: Some(points),
    })
}

fn changes(alloc: Global, lines: &[Line]) -> Result<Vec<TileChange>, AllocError> {
    let mut changes = Vec::new(alloc);
    let mut id = 0u32;
    for line in lines {
        changes.push(change(alloc, line, id)?)?;
        id = id.saturating_add(1);
    }
    Ok(changes)
}

/// The index of lines.
fn index_of(alloc: Global, lines: &[Line]) -> Result<TileIndex, AllocError> {
    let mut index = TileIndex::make();
    let plan = index.plan(alloc, &changes(alloc, lines)?)?;
    index.reserve(&plan)?;
    index.install(plan);
    Ok(index)
}

/// Whether names have these numbers, one by one.
fn are_numbered(names: &[RecName], numbers: &[u32]) -> bool {
    names.iter().map(|name| name.id).eq(numbers.iter().copied())
}

/// Whether these, and no others, are near the first of some lines.
fn are_near(alloc: Global, lines: &[Line], near: &[u32]) -> Result<bool, AllocError> {
    let Some(line) = lines.first() else {
        return Ok(false);
    };
    let index = index_of(alloc, lines)?;
    let mates = index.mates(alloc, name_of(line, 0))?;
    Ok(are_numbered(mates.as_slice(), near))
}

#[test]
fn lines_are_near_where_they_share_a_tile(rt: HostRuntime) -> Result<(), Fail> {
    indexes_cross_threads();
    for (lines, near) in &CASES {
        assert!(rt; are_near(rt.alloc(), lines, near)?);
    }
    Ok(())
}
