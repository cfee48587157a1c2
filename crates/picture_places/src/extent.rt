//! The box around a cell.

ghost use Rattle.std.specs.Prelude.{◌≡◌, ◌++◌, IfOk, OnOk, flat_map, map};
ghost use Rattle.cell_spec.specs.Lookup.{all_records};
ghost use Rattle.picture_places.specs.Page.{around_with as spec_around_with, box_around as spec_box_around, extent_of as spec_extent_of};
ghost use Rattle.picture_places.specs.Page.{positions_of as spec_positions_of, record_positions, without_depth};

use geo_exact::box_of;
use geometry_spec::{Box4, Point};
use line_boxes::united;
use s57_types::{Cell, Rec, Vector};
use std::alloc::{AllocError, Global};

/// Appends the positions of soundings.
fn push_soundings(points: &mut Vec<Point>, deep: &[(i32, i32, i32)]) -> Result<(), AllocError>
    ensures { OnOk result (points.new.items ≡ points.old.items ++ map without_depth deep.now) }
{
    for sounding in deep {
        points.push((sounding.0, sounding.1))?;
    }
    Ok(())
}

/// Appends the positions of a vector record: its 2-D coordinates, then its soundings.
pub fn push_positions(points: &mut Vec<Point>, vector: &Vector) -> Result<(), AllocError>
    ensures { OnOk result (points.new.items ≡ points.old.items ++ spec_positions_of vector.now) }
{
    points.extend_from_slice(vector.plane.as_slice())?;
    push_soundings(points, vector.deep.as_slice())
}

/// Appends the positions of records.
fn push_all_positions(points: &mut Vec<Point>, recs: &[Rec]) -> Result<(), AllocError>
    ensures { OnOk result (points.new.items ≡ points.old.items ++ flat_map record_positions recs.now) }
{
    for rec in recs {
        if let Rec::V(vector) = rec {
            push_positions(points, vector)?;
        }
    }
    Ok(())
}

/// All positions of a cell.
fn positions_of(alloc: Global, cell: &Cell) -> Result<Vec<Point>, AllocError>
    ensures { IfOk result (λ points. points.items ≡ flat_map record_positions (all_records cell.now)) }
{
    let mut points = Vec::new(alloc);
    push_all_positions(&mut points, cell.vi.as_slice())?;
    push_all_positions(&mut points, cell.vc.as_slice())?;
    push_all_positions(&mut points, cell.ve.as_slice())?;
    push_all_positions(&mut points, cell.fe.as_slice())?;
    Ok(points)
}

/// The least box around a box, if there is one, and a point.
fn around_with(around: Option<Box4>, point: Point) -> Option<Box4>
    ensures { result ≡ spec_around_with around point }
{
    let at = box_of(point, point);
    match around {
        Some(around) => Some(united(around, at)),
        None => Some(at),
    }
}

/// The least box around points, or the origin where there is none.
fn box_around(points: &[Point]) -> Box4
    ensures { result ≡ spec_box_around points.now }
{
    let mut around = None;
    for point in points {
        around = around_with(around, *point);
    }
    match around {
        Some(around) => around,
        None => Box4 {
            south: 0,
            west: 0,
            north: 0,
            east: 0,
        },
    }
}

/// The least box around all positions of a cell, in integer coordinate units. An `Err` means out of memory.
pub fn extent_of(alloc: Global, cell: &Cell) -> Result<Box4, AllocError>
    ensures { IfOk result (λ around. around ≡ spec_extent_of cell.now) }
{
    let points = positions_of(alloc, cell)?;
    Ok(box_around(&points))
}
