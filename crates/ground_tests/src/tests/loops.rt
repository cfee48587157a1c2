//! Boundaries cut into loops, and the turns of loops.

ghost use Rattle.std.specs.Prelude.{◌≡◌, ◌<◌, ◌^◌, IfOk, length};

use ring_build::{Block, Blocks, RingCut, cut, turn_of};
use s57_types::{Kind, Plane, RecName};
use std::alloc::{AllocError, Global};
use std::test::Fail;

fn node(id: u32) -> RecName {
    RecName { kind: Kind::Vc, id }
}

/// The first and last nodes of pieces, the loops into which these are cut, and the place of an end that stays open.
type Cut = (&'static [(u32, u32)], &'static [Block], u32);

const CUTS: [Cut; 9] = [
    (&[], &[], 0),
    (&[(1, 1)], &[Block { from: 1, to: 1 }], 0),
    (&[(1, 2), (2, 3), (3, 1)], &[Block { from: 1, to: 3 }], 0),
    // Two loops one after the other.
    (
        &[(1, 2), (2, 1), (3, 4), (4, 5), (5, 3)],
        &[Block { from: 1, to: 2 }, Block { from: 3, to: 5 }],
        0,
    ),
    // A figure of eight through its first node, and through a later one.
    (
        &[(1, 2), (2, 1), (1, 3), (3, 1)],
        &[Block { from: 1, to: 2 }, Block { from: 3, to: 4 }],
        0,
    ),
    (
        &[(1, 2), (2, 3), (3, 2), (2, 1)],
        &[Block { from: 1, to: 4 }],
        0,
    ),
    // An open end, a gap, and a loop before an open end.
    (&[(1, 2), (2, 3)], &[], 1),
    (&[(1, 2), (3, 1)], &[], 1),
    (&[(1, 2), (2, 1), (1, 2)], &[], 3),
];

/// Pieces with these first and last nodes.
fn pieces(alloc: Global, ends: &[(u32, u32)]) -> Result<Vec<(RecName, RecName)>, AllocError>
    ensures { IfOk result (λ pieces. length pieces.items ≡ length ends.now) }
{
    ends.iter()
        .map(|piece| (node(piece.0), node(piece.1)))
        .collect(alloc)
}

/// The loops into which pieces are cut, or none and the place of the end that stays open.
fn cut_of(alloc: Global, ends: &[(u32, u32)]) -> Result<(Blocks, u32), AllocError>
    requires { length ends.now < 2 ^ 32 }
{
    let pieces = pieces(alloc, ends)?;
    match cut(alloc, pieces.as_slice())? {
        RingCut::Whole(blocks) => Ok((blocks, 0)),
        RingCut::OpenAt(place) => Ok((Blocks::make(alloc), place)),
    }
}

#[test]
fn boundaries_are_cut_into_loops(rt: HostRuntime) -> Result<(), Fail> {
    for (ends, loops, open) in &CUTS {
        assert!(rt; ends.len() <= 5);
        let (found, place) = cut_of(rt.alloc(), ends)?;
        assert_eq!(rt; (found.as_slice(), place), (*loops, *open), "{ends:?}");
    }
    Ok(())
}

const TURNS: [(&[(i32, i32)], i128); 7] = [
    (&[], 0),
    (&[(7, 9)], 0),
    (&[(0, 0), (5, 5)], 0),
    // A square of side 3, clockwise, and the other way round.
    (&[(10, 20), (13, 20), (13, 23), (10, 23)], -18),
    (&[(10, 20), (10, 23), (13, 23), (13, 20)], 18),
    // The same with the first point at the end too.
    (&[(10, 20), (13, 20), (13, 23), (10, 23), (10, 20)], -18),
    // The full range of coordinates.
    (
        &[
            (i32::MIN, i32::MIN),
            (i32::MAX, i32::MIN),
            (i32::MAX, i32::MAX),
            (i32::MIN, i32::MAX),
        ],
        -36_893_488_130_239_234_050,
    ),
];

#[test]
fn turns_are_signed_double_areas(rt: HostRuntime) -> Result<(), Fail> {
    let alloc = rt.alloc();
    for (points, turn) in &TURNS {
        let plane = Plane::of_vec(points.to_vec(alloc)?);
        assert_eq!(rt; turn_of(&plane), *turn, "{points:?}");
    }
    Ok(())
}
