//! The coordinates of a vector record after an update.

ghost use Rattle.std.specs.Prelude.{◌≡◌, ◌==◌, ◌||◌, List, ℤ, true, false, length};
ghost use Rattle.update_spec.specs.UpdatedRows.{are_soundings_updated, updated_coordinates, updated_list};
ghost use Rattle.update_apply.specs.Gives.{GivesUpdate};

use crate::refusal::StepRefusal;
use crate::rows::updated_rows;
use s57_types::{Deep, Duplicate, Plane};
use std::alloc::Global;
use update_spec::{Control, UpdateFault};

/// Whether the soundings are updated, and not the 2-D coordinates.
fn are_soundings_updated(given: &(Plane, Deep), plane: &Plane) -> bool
    ensures { (deep : List (ℤ × ℤ × ℤ)) → result ≡ are_soundings_updated given.now (plane.now, deep) }
{
    !given.1.is_empty() || (given.0.is_empty() && plane.is_empty())
}

/// Whether at most one of the two lists is given.
fn gives_one_list(given: &(Plane, Deep)) -> bool
    ensures { result ≡ ((length given.now.0 == 0) || (length given.now.1 == 0)) }
{
    given.0.is_empty() || given.1.is_empty()
}

/// The coordinates after an update of the soundings.
fn with_soundings(
    alloc: Global,
    control: Option<Control>,
    given: Deep,
    plane: &Plane,
    deep: &Deep,
) -> Result<(Plane, Deep), StepRefusal>
    ensures { (points : List (ℤ × ℤ)) → GivesUpdate result (updated_list true control (points, given) (plane.now, deep.now)) }
{
    let updated = updated_rows(alloc, control, given, deep.as_slice())?;
    Ok((plane.copy(alloc)?, updated))
}

/// The coordinates after an update of the 2-D coordinates.
fn with_points(
    alloc: Global,
    control: Option<Control>,
    given: Plane,
    plane: &Plane,
    deep: &Deep,
) -> Result<(Plane, Deep), StepRefusal>
    ensures { (soundings : List (ℤ × ℤ × ℤ)) → GivesUpdate result (updated_list false control (given, soundings) (plane.now, deep.now)) }
{
    let updated = updated_rows(alloc, control, given, plane.as_slice())?;
    Ok((updated, deep.copy(alloc)?))
}

/// The 2-D coordinates and the soundings after an update that gives coordinates.
#[tactic(auto, unfolding(update_spec::specs::UpdatedRows::updated_coordinates))]
pub fn updated_coordinates(
    alloc: Global,
    control: Option<Control>,
    given: (Plane, Deep),
    plane: &Plane,
    deep: &Deep,
) -> Result<(Plane, Deep), StepRefusal>
    ensures { GivesUpdate result (updated_coordinates control given (plane.now, deep.now)) }
{
    if !gives_one_list(&given) {
        return Err(StepRefusal::Fault(UpdateFault::BadControl));
    }
    if are_soundings_updated(&given, plane) {
        with_soundings(alloc, control, given.1, plane, deep)
    } else {
        with_points(alloc, control, given.0, plane, deep)
    }
}
