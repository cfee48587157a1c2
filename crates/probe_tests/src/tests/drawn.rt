//! Drawn closed lines.

ghost use Rattle.std.specs.Prelude.{◌≡◌, ◌<◌};

use super::benches::{bench_with, check_point};
use super::north;
use cell_bench::Bench;
use chain_topo::Steps;
use check_words::segments_of;
use geo_exact::Point;
use look_counter::start_counter;
use std::alloc::{AllocError, Global};
use std::marker::Brand;
use std::process::Abort;
use std::sync::ledger::{Blank, Ledger};
use std::test::Fail;

/// How many lines are drawn.
const ROUNDS: u32 = 200;

/// The side of the square in which a line lies, south-west of the generated cell, whose areas go round none of its points.
const SIDE: u32 = 7;

/// The next number below a bound.
fn draw(state: &mut u32, bound: u32) -> u32
    requires { 0 < bound }
    ensures { result < bound }
{
    *state = state.wrapping_mul(1_664_525).wrapping_add(1_013_904_223);
    (*state >> 8) % bound
}

fn drawn_point(state: &mut u32) -> Point {
    let latitude = draw(state, SIDE) as i32;
    let longitude = draw(state, SIDE) as i32;
    (latitude - 10, longitude - 10)
}

/// The points of a closed line, the first of them also the last: three to seven different ways on.
fn drawn_line(alloc: Global, state: &mut u32) -> Result<Vec<Point>, AllocError> {
    let first = drawn_point(state);
    let mut points = Vec::new(alloc);
    points.push(first)?;
    for _ in 0..2 + draw(state, 5) {
        points.push(drawn_point(state))?;
    }
    points.push(first)?;
    Ok(points)
}

/// One or two orientations: forward, in reverse, or neither.
fn drawn_orientations(alloc: Global, state: &mut u32) -> Result<Vec<u8>, AllocError> {
    let mut orientations = Vec::new(alloc);
    for _ in 0..1 + draw(state, 2) {
        orientations.push(draw(state, 4) as u8)?;
    }
    Ok(orientations)
}

/// How often an area goes along the line forward, less in reverse.
fn excess(orientations: &[u8]) -> i64 {
    let mut excess = 0i64;
    for ornt in orientations {
        match ornt {
            1 => excess = excess.wrapping_add(1),
            2 => excess = excess.wrapping_sub(1),
            _ => {}
        }
    }
    excess
}

/// Checks all points of the square in which the line lies, but those on it, where the area goes so often along it.
fn check_square<L: Ledger>(
    rt: &impl Abort,
    alloc: Global,
    bench: &Bench,
    segments: &[(Point, Point)],
    excess: i64,
    steps: &mut Steps<L>,
) -> Result<(), AllocError> {
    for k in 0..SIDE * SIDE {
        let at = ((k / SIDE) as i32 - 10, (k % SIDE) as i32 - 10);
        if !north::is_on(at, segments) {
            let wanted = north::winding(at, segments).wrapping_mul(excess);
            check_point(rt, alloc, bench, at, wanted, steps)?;
        }
    }
    Ok(())
}

/// Checks one drawn line.
fn check_line<L: Ledger>(
    rt: &impl Abort,
    alloc: Global,
    state: &mut u32,
    steps: &mut Steps<L>,
) -> Result<(), AllocError> {
    let points = drawn_line(alloc, state)?;
    let orientations = drawn_orientations(alloc, state)?;
    let bench = bench_with(rt, alloc, &points, &orientations, steps)?;
    let segments = segments_of(alloc, &points)?;
    check_square(rt, alloc, &bench, &segments, excess(&orientations), steps)
}

fn check_lines<L: Ledger>(rt: &impl Abort, alloc: Global, blank: Blank) -> Result<(), AllocError>
    requires name { blank.name ≡ L.name }
    requires parts { blank.parts ≡ L.parts }
    requires some_part { 0 < L.parts }
{
    let mut steps = start_counter::<L>(blank);
    let mut state = 1;
    for _ in 0..ROUNDS {
        check_line(rt, alloc, &mut state, &mut steps)?;
    }
    Ok(())
}

#[test]
fn rays_to_the_east_and_to_the_north_count_alike(rt: HostRuntime) -> Result<(), Fail> {
    check_lines::<Brand>(&rt, rt.alloc(), Blank::new(1))?;
    Ok(())
}
