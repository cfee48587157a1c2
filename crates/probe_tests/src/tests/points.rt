//! Points on lines and beside them, with winding numbers that are typed out.

ghost use Rattle.std.specs.Prelude.{◌≡◌, ◌<◌};

use super::benches::{bench_with, check_point};
use chain_topo::Steps;
use geo_exact::Point;
use look_counter::start_counter;
use std::alloc::{AllocError, Global};
use std::marker::Brand;
use std::process::Abort;
use std::sync::ledger::{Blank, Ledger};
use std::test::Fail;

const MIN: i32 = i32::MIN;

const MAX: i32 = i32::MAX;

/// A line with the orientations in which an area goes along it, and points with the winding numbers round them.
struct Typed {
    line: &'static [Point],
    orientations: &'static [u8],
    winds: &'static [(Point, i64)],
}

/// A square, clockwise: inside, at its corners, on its sides, beside it and far away.
const SQUARE: Typed = Typed {
    line: &[(-30, -30), (-20, -30), (-20, -20), (-30, -20), (-30, -30)],
    orientations: &[1],
    winds: &[
        ((-25, -25), 1),
        ((-30, -30), 1),
        ((-30, -20), 0),
        ((-20, -30), 0),
        ((-20, -20), 0),
        ((-30, -25), 1),
        ((-20, -25), 0),
        ((-25, -30), 1),
        ((-25, -20), 0),
        ((-25, -21), 1),
        ((-25, -31), 0),
        ((-31, -25), 0),
        ((-21, -21), 1),
        ((MIN, MIN), 0),
        ((MIN, -25), 0),
        ((-25, MIN), 0),
        ((-25, MAX), 0),
        ((MAX, MAX), 0),
    ],
};

/// A figure of eight: clockwise round the southern half and the other way round the northern one. The area goes along it twice, and has a third
/// spatial pointer, of no orientation.
const EIGHT: Typed = Typed {
    line: &[(-30, -30), (-20, -20), (-20, -30), (-30, -20), (-30, -30)],
    orientations: &[1, 255, 1],
    winds: &[
        ((-28, -25), 2),
        ((-22, -25), -2),
        ((-25, -25), 0),
        ((-25, -26), 0),
        ((-26, -25), 2),
        ((-30, -25), 2),
        ((-20, -25), 0),
    ],
};

/// The same figure in reverse.
const EIGHT_IN_REVERSE: Typed = Typed {
    line: &[(-30, -30), (-20, -20), (-20, -30), (-30, -20), (-30, -30)],
    orientations: &[2],
    winds: &[
        ((-28, -25), -1),
        ((-22, -25), 1),
        ((-25, -25), 0),
        ((-30, -25), -1),
    ],
};

/// The half of the whole range that lies south-east of its diagonal, clockwise: points on the diagonal, beside it, and at both ends of the range.
const HALF: Typed = Typed {
    line: &[(MIN, MIN), (MAX, MAX), (MIN, MAX), (MIN, MIN)],
    orientations: &[1],
    winds: &[
        ((-5, -5), 1),
        ((-4, -5), 0),
        ((-5, -4), 1),
        ((-6, -5), 1),
        ((-5, -6), 0),
        ((MIN, MIN), 1),
        ((MIN, MAX - 1), 1),
        ((MIN, MAX), 0),
        ((MAX - 1, MAX - 1), 1),
        ((MAX - 1, MAX - 2), 0),
        ((MAX - 1, MAX), 0),
        ((MAX, MIN), 0),
        ((MAX, MAX), 0),
    ],
};

fn check_typed<L: Ledger>(
    rt: &impl Abort,
    alloc: Global,
    typed: &Typed,
    steps: &mut Steps<L>,
) -> Result<(), AllocError> {
    let bench = bench_with(rt, alloc, typed.line, typed.orientations, steps)?;
    for (at, wanted) in typed.winds {
        check_point(rt, alloc, &bench, *at, *wanted, steps)?;
    }
    Ok(())
}

fn check_all<L: Ledger>(rt: &impl Abort, alloc: Global, blank: Blank) -> Result<(), AllocError>
    requires name { blank.name ≡ L.name }
    requires parts { blank.parts ≡ L.parts }
    requires some_part { 0 < L.parts }
{
    let mut steps = start_counter::<L>(blank);
    check_typed(rt, alloc, &SQUARE, &mut steps)?;
    check_typed(rt, alloc, &EIGHT, &mut steps)?;
    check_typed(rt, alloc, &EIGHT_IN_REVERSE, &mut steps)?;
    check_typed(rt, alloc, &HALF, &mut steps)?;
    Ok(())
}

#[test]
fn areas_go_round_points_as_typed(rt: HostRuntime) -> Result<(), Fail> {
    check_all::<Brand>(&rt, rt.alloc(), Blank::new(1))?;
    Ok(())
}
