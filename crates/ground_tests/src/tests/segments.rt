//! Segments, boxes and tiles, worked out by hand. Points are (y, x).

use geo_exact::{
    Box4, MeetCase, Point, TileRange, box_of, meeting, on_segment, orient, tiles_of,
    twice_area_step,
};
use std::process::Abort;

const LEAST: i32 = -2_147_483_648;

const GREATEST: i32 = 2_147_483_647;

/// Checks two segments as they stand, and exchanged.
fn check_meeting(rt: &impl Abort, first: (Point, Point), second: (Point, Point), case: MeetCase) {
    let found = [
        meeting(first.0, first.1, second.0, second.1),
        meeting(second.0, second.1, first.0, first.1),
    ];
    assert_eq!(rt; found, [case; 2], "{first:?} and {second:?}");
}

/// Checks the rows in every direction of either segment, and with the segments exchanged.
fn check_meetings(rt: &impl Abort, rows: &[(Point, Point, Point, Point)], case: MeetCase) {
    for (p, q, r, s) in rows {
        let (p, q, r, s) = (*p, *q, *r, *s);
        check_meeting(rt, (p, q), (r, s), case);
        check_meeting(rt, (p, q), (s, r), case);
        check_meeting(rt, (q, p), (r, s), case);
        check_meeting(rt, (q, p), (s, r), case);
    }
}

#[test]
fn segments_apart(rt: HostRuntime) {
    check_meetings(
        &rt,
        &[
            // Their lines cross outside of one of them.
            ((0, 0), (2, 2), (0, 3), (1, 2)),
            ((0, 0), (10, 10), (6, 5), (10, 0)),
            ((0, 0), (4, 4), (2, 3), (0, 5)),
            ((0, 0), (0, 10), (1, 5), (5, 5)),
            ((0, 0), (10, 0), (5, 1), (5, 9)),
            ((0, 0), (6, 9), (3, 4), (9, 4)),
            // Parallel.
            ((0, 0), (5, 5), (0, 1), (5, 6)),
            ((0, 0), (10, 10), (0, 1), (9, 10)),
            // On one line.
            ((0, 0), (2, 2), (3, 3), (5, 5)),
            ((0, 0), (4, 6), (6, 9), (8, 12)),
            ((0, 0), (0, 4), (0, 5), (0, 9)),
            ((0, 0), (4, 0), (5, 0), (9, 0)),
            // Boxes that share no longitude, or touch.
            ((0, 0), (5, 5), (5, 6), (9, 9)),
            ((0, 0), (5, 5), (5, 9), (9, 5)),
            // Single points.
            ((4, 4), (4, 4), (4, 5), (4, 5)),
            ((5, 6), (5, 6), (0, 0), (10, 10)),
            ((11, 11), (11, 11), (0, 0), (10, 10)),
            ((1, 1), (1, 1), (0, 0), (3, 2)),
            // The whole range of coordinates.
            ((LEAST, LEAST), (GREATEST, GREATEST), (0, 1), (1, 2)),
            (
                (LEAST, LEAST),
                (GREATEST, GREATEST),
                (LEAST, -2_147_483_647),
                (2_147_483_646, GREATEST),
            ),
            (
                (LEAST, LEAST),
                (GREATEST, 2_147_483_646),
                (-1, -1),
                (-1, -1),
            ),
            (
                (LEAST, LEAST),
                (LEAST, GREATEST),
                (GREATEST, LEAST),
                (GREATEST, GREATEST),
            ),
        ],
        MeetCase::Apart,
    );
}

#[test]
fn segments_with_one_common_point(rt: HostRuntime) {
    check_meetings(
        &rt,
        &[
            // They cross, some where no whole numbers are.
            ((0, 0), (10, 10), (0, 10), (10, 0)),
            ((0, 0), (2, 2), (0, 1), (1, 0)),
            ((0, 0), (3, 1), (0, 1), (2, 0)),
            ((-5, -5), (5, 5), (-5, 5), (5, -5)),
            ((0, -10), (0, 10), (-10, 0), (10, 0)),
            ((0, 0), (0, 10), (-1, 5), (1, 6)),
            ((0, 0), (6, 9), (2, 4), (9, 4)),
            // An end of one lies inside the other.
            ((0, 0), (0, 10), (0, 5), (5, 5)),
            ((0, 0), (10, 10), (5, 5), (10, 0)),
            ((0, 0), (6, 9), (2, 3), (9, 3)),
            // They share an end alone.
            ((0, 0), (5, 0), (0, 0), (0, 5)),
            ((0, 0), (5, 5), (5, 5), (9, 0)),
            ((0, 0), (10, 1), (0, 0), (10, 2)),
            ((0, 0), (5, 5), (5, 5), (9, 9)),
            ((0, 0), (5, 5), (0, 0), (-5, -5)),
            ((0, 0), (2, 3), (2, 3), (6, 9)),
            ((0, 0), (0, 7), (0, 7), (0, 9)),
            ((3, 0), (7, 0), (7, 0), (9, 0)),
            // Single points.
            ((4, 4), (4, 4), (4, 4), (4, 4)),
            ((5, 5), (5, 5), (0, 0), (10, 10)),
            ((0, 0), (0, 0), (0, 0), (10, 10)),
            ((2, 3), (2, 3), (0, 0), (4, 6)),
            // The whole range of coordinates.
            (
                (LEAST, LEAST),
                (GREATEST, GREATEST),
                (LEAST, GREATEST),
                (GREATEST, LEAST),
            ),
            ((LEAST, LEAST), (GREATEST, GREATEST), (0, 1), (1, 0)),
            (
                (LEAST, LEAST),
                (GREATEST, GREATEST),
                (2_147_483_646, GREATEST),
                (GREATEST, 2_147_483_646),
            ),
            (
                (LEAST, LEAST),
                (GREATEST, GREATEST),
                (GREATEST, GREATEST),
                (GREATEST, GREATEST),
            ),
            ((LEAST, 0), (GREATEST, 0), (0, LEAST), (0, GREATEST)),
        ],
        MeetCase::At,
    );
}

#[test]
fn overlapping_segments(rt: HostRuntime) {
    check_meetings(
        &rt,
        &[
            ((0, 0), (6, 6), (3, 3), (9, 9)),
            ((0, 0), (9, 9), (3, 3), (6, 6)),
            ((1, 2), (3, 4), (1, 2), (3, 4)),
            ((0, 0), (5, 5), (0, 0), (9, 9)),
            ((0, 0), (0, 10), (0, 9), (0, 20)),
            ((0, 0), (10, 0), (9, 0), (20, 0)),
            ((0, 0), (4, 6), (2, 3), (6, 9)),
            ((0, 3), (9, -6), (1, 2), (2, 1)),
            ((LEAST, LEAST), (GREATEST, GREATEST), (0, 0), (1, 1)),
        ],
        MeetCase::Along,
    );
}

/// Two points of a line, a third point, and on which side this lies.
const SIDES: [(Point, Point, Point, i8); 9] = [
    ((0, 0), (0, 10), (5, 5), 1),
    ((0, 0), (0, 10), (-5, 5), -1),
    ((0, 0), (10, 0), (5, 5), -1),
    ((0, 0), (10, 0), (5, -5), 1),
    ((0, 0), (2, 3), (6, 9), 0),
    ((1, 1), (1, 1), (7, 8), 0),
    ((LEAST, LEAST), (GREATEST, GREATEST), (0, 0), 0),
    ((LEAST, LEAST), (GREATEST, GREATEST), (1, 0), 1),
    (
        (LEAST, GREATEST),
        (GREATEST, LEAST),
        (GREATEST, GREATEST),
        -1,
    ),
];

#[test]
fn sides_of_a_line(rt: HostRuntime) {
    for (a, b, c, side) in &SIDES {
        assert_eq!(rt; orient(*a, *b, *c), *side, "{:?}", (a, b, c));
    }
}

/// A point, the ends of a segment, and whether the point lies on it.
const POINTS: [(Point, Point, Point, bool); 12] = [
    ((0, 0), (0, 0), (4, 6), true),
    ((4, 6), (0, 0), (4, 6), true),
    ((2, 3), (4, 6), (0, 0), true),
    ((6, 9), (0, 0), (4, 6), false),
    ((-2, -3), (0, 0), (4, 6), false),
    ((2, 4), (0, 0), (4, 6), false),
    ((0, 5), (0, 9), (0, 1), true),
    ((0, 10), (0, 9), (0, 1), false),
    ((5, 5), (5, 5), (5, 5), true),
    ((5, 6), (5, 5), (5, 5), false),
    ((0, 0), (LEAST, LEAST), (GREATEST, GREATEST), true),
    ((0, 1), (LEAST, LEAST), (GREATEST, GREATEST), false),
];

#[test]
fn points_on_segments(rt: HostRuntime) {
    for (w, p, q, lies_on) in &POINTS {
        assert_eq!(rt; on_segment(*w, *p, *q), *lies_on, "{w:?} on {:?}", (p, q));
    }
}

/// Two points and the step from one to the other.
const STEPS: [(Point, Point, i128); 6] = [
    // Round a square of side 3, clockwise: -18 in all.
    ((10, 20), (13, 20), 60),
    ((13, 20), (13, 23), -39),
    ((13, 23), (10, 23), -69),
    ((10, 23), (10, 20), 30),
    ((LEAST, LEAST), (LEAST, GREATEST), 9_223_372_034_707_292_160),
    (
        (LEAST, GREATEST),
        (LEAST, LEAST),
        -9_223_372_034_707_292_160,
    ),
];

#[test]
fn area_steps(rt: HostRuntime) {
    for (a, b, step) in &STEPS {
        assert_eq!(rt; twice_area_step(*a, *b), *step, "{:?}", (a, b));
    }
}

#[test]
fn a_box_reaches_from_least_to_greatest(rt: HostRuntime) {
    let found = Box4 {
        south: -2,
        west: -3,
        north: 5,
        east: 8,
    };
    assert_eq!(rt; box_of((5, -3), (-2, 8)), found);
}

/// The ends of a segment, and its tiles: from one row to another, and from one column to another.
const TILES: [(Point, Point, [i32; 4]); 7] = [
    // 64 tiles, and 65.
    ((0, 0), (0, 4_128_768), [0, 0, 0, 63]),
    ((0, 0), (0, 4_194_304), [0, 0, 0, 64]),
    ((0, 4_194_303), (0, -1), [0, 0, -1, 63]),
    // Two tiles side by side.
    ((65_536, -1), (65_536, -1), [1, 1, -1, -1]),
    ((65_536, 0), (65_536, 0), [1, 1, 0, 0]),
    ((65_535, -65_536), (-65_537, -65_537), [-2, 0, -2, -1]),
    (
        (LEAST, LEAST),
        (GREATEST, GREATEST),
        [-32_768, 32_767, -32_768, 32_767],
    ),
];

#[test]
fn tiles_of_segments(rt: HostRuntime) {
    for (p, q, [row_from, row_to, col_from, col_to]) in &TILES {
        let tiles = TileRange {
            row_from: *row_from,
            row_to: *row_to,
            col_from: *col_from,
            col_to: *col_to,
        };
        assert_eq!(rt; tiles_of(box_of(*p, *q)), tiles, "{:?}", (p, q));
    }
}
