//! A line without its inner points.

ghost use Rattle.std.specs.Prelude.{◌≡◌, ◌∷◌, ◌+ℤ◌, IfOk};
ghost use Rattle.geometry_spec.specs.Areas.{twice_area_along, twice_area_step as twice_area_step_of};
ghost use Rattle.check_area.specs.Sweeps.{last_point, sweep_along as spec_sweep_along, turned_sweep as spec_turned_sweep};

use crate::sums::plus;
use geo_exact::{Point, twice_area_step};
use s57_types::RecName;
use std::alloc::AllocError;

/// The orientation (ORNT) of a spatial pointer that goes along its edge in reverse.
const REVERSE: u8 = 2;

/// What the loops of a boundary need of a line: its beginning node and its end node, its first and its last point, and
/// twice the signed area that the way from the one to the other sweeps, seen from the origin, in square coordinate
/// units.
#[derive(Clone, Copy)]
pub(crate) struct LineSweep {
    pub(crate) begins: RecName,
    pub(crate) ends: RecName,
    pub(crate) first: Point,
    pub(crate) last: Point,
    pub(crate) swept: i128,
}

/// The same line from its end to its beginning.
fn turned(sweep: LineSweep) -> Result<LineSweep, AllocError>
    ensures { IfOk result (λ turned. turned ≡ spec_turned_sweep sweep) }
{
    let swept = 0i128.checked_sub(sweep.swept).ok_or(AllocError)?;
    Ok(LineSweep {
        begins: sweep.ends,
        ends: sweep.begins,
        first: sweep.last,
        last: sweep.first,
        swept,
    })
}

/// A line as a spatial pointer goes along it: forward (ORNT 1) or in reverse (ORNT 2).
pub(crate) fn sweep_along(ornt: u8, sweep: LineSweep) -> Result<LineSweep, AllocError>
    ensures { IfOk result (λ along. along ≡ spec_sweep_along ornt sweep) }
{
    if ornt == REVERSE {
        return turned(sweep);
    }
    Ok(sweep)
}

/// A way along points so far: the point that it has come to, and twice the signed area swept.
#[derive(Clone, Copy)]
pub(crate) struct Way {
    pub(crate) at: Point,
    pub(crate) swept: i128,
}

/// The way on to one more point.
pub(crate) fn way_to(way: Way, point: Point) -> Result<Way, AllocError>
    ensures at { IfOk result (λ on. on.at ≡ point) }
    ensures swept { IfOk result (λ on. on.swept ≡ way.swept +ℤ twice_area_step_of way.at point) }
{
    let swept = plus(way.swept, twice_area_step(way.at, point))?;
    Ok(Way { at: point, swept })
}

/// The way from a point along more points.
pub(crate) fn way_along(first: Point, rest: &[Point]) -> Result<Way, AllocError>
    ensures at { IfOk result (λ way. way.at ≡ last_point (first ∷ rest.now)) }
    ensures swept { IfOk result (λ way. way.swept ≡ twice_area_along (first ∷ rest.now)) }
{
    let mut way = Way {
        at: first,
        swept: 0,
    };
    for point in rest {
        way = way_to(way, *point)?;
    }
    Ok(way)
}
