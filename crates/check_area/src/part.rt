//! The parts of a boundary, and the loops that they make.

ghost use Rattle.std.specs.Prelude.{◌≡◌, ◌+ℤ◌, IfOk};
ghost use Rattle.geometry_spec.specs.Areas.{twice_area_step as twice_area_step_of};
ghost use Rattle.rule_spec.specs.Boundary.{all_interior, none_interior, partly_interior};
ghost use Rattle.check_area.specs.Parts.{turn_of_parts, turns_against_usage, usage_of_part};

use crate::sums::plus;
use crate::sweep::{LineSweep, Way, way_to};
use std::alloc::AllocError;

/// The usage (USAG) of an interior boundary. Every other, also that of a boundary cut off by the data limit, is
/// exterior.
const INTERIOR: u8 = 2;

/// A part of an area's boundary: the place of its spatial pointer from 1, its usage indicator (USAG), and its line in
/// the pointer's direction.
#[derive(Clone, Copy)]
pub(crate) struct BoundaryEdge {
    pub(crate) place: u32,
    pub(crate) usag: u8,
    pub(crate) sweep: LineSweep,
}

/// Whether every part of a loop is interior.
pub(crate) fn is_interior(parts: &[BoundaryEdge]) -> bool
    ensures { result ≡ all_interior usage_of_part parts.now }
{
    parts.iter().all(|part| part.usag == INTERIOR)
}

/// Whether no part of a loop is interior.
pub(crate) fn is_exterior(parts: &[BoundaryEdge]) -> bool
    ensures { result ≡ none_interior usage_of_part parts.now }
{
    for part in parts {
        if part.usag == INTERIOR {
            return false;
        }
    }
    true
}

/// Whether a loop has interior and other parts.
pub(crate) fn is_mixed(parts: &[BoundaryEdge]) -> bool
    ensures { result ≡ partly_interior usage_of_part parts.now }
{
    let interior = is_interior(parts);
    let exterior = is_exterior(parts);
    !interior && !exterior
}

/// The way on along one more part.
fn way_through(way: Way, sweep: LineSweep) -> Result<Way, AllocError>
    ensures at { IfOk result (λ on. on.at ≡ sweep.last) }
    ensures swept { IfOk result (λ on. on.swept ≡ (way.swept +ℤ twice_area_step_of way.at sweep.first) +ℤ sweep.swept) }
{
    let joined = way_to(way, sweep.first)?;
    let swept = plus(joined.swept, sweep.swept)?;
    Ok(Way {
        at: sweep.last,
        swept,
    })
}

/// Twice the signed area that a loop goes round: negative where it goes clockwise.
pub(crate) fn turn_of(parts: &[BoundaryEdge]) -> Result<i128, AllocError>
    ensures { IfOk result (λ turn. turn ≡ turn_of_parts parts.now) }
{
    let [first, ..] = parts else { return Ok(0) };
    let home = first.sweep.first;
    let mut way = Way { at: home, swept: 0 };
    for part in parts {
        way = way_through(way, part.sweep)?;
    }
    let closed = way_to(way, home)?;
    Ok(closed.swept)
}

/// Whether an exterior loop isn't clockwise, or an interior one isn't counterclockwise.
pub(crate) fn turns_wrongly(parts: &[BoundaryEdge]) -> Result<bool, AllocError>
    ensures { IfOk result (λ wrong. wrong ≡ turns_against_usage parts.now) }
{
    let turn = turn_of(parts)?;
    if is_interior(parts) {
        return Ok(!(0 < turn));
    }
    Ok(!(turn < 0))
}
