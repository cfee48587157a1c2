//! The boundary of an area.

ghost use Rattle.std.specs.Prelude.{◌≡◌, ◌==◌, ◌++◌, [], IfOk, List, None, OnOk, Some, ℕ, if◌then◌else◌, map, option_map, true};
ghost use Rattle.std.specs.BTreeMap.{get};
ghost use Rattle.std.specs.List.{All};
ghost use Rattle.std.specs.Ordering.{nat_cmp};
ghost use Rattle.s57_types.specs.declared.cell.Cell.{Cell as SpecCell};
ghost use Rattle.s57_types.specs.declared.record.Spot.{Spot as SpecSpot};
ghost use Rattle.cell_spec.specs.declared.key.Key.{Key as SpecKey};
ghost use Rattle.rule_spec.specs.declared.kind.TheConstants.{MIXED_RING, OPEN_RING, OUTER_COUNT, WRONG_TURN};
ghost use Rattle.rule_spec.specs.Boundary.{mixed_ring, open_ring, outer_count, wrong_turn};
ghost use Rattle.rule_spec.specs.Features.{bad_codes, dangling_ref, prim_refs};
ghost use Rattle.rule_spec.specs.Findings.{finding};
ghost use Rattle.check_area.specs.Lines.{AsksForLine, HoldsSweeps, IsAskedEdge, edge_name, part_along as spec_part_along, part_at as spec_part_at};
ghost use Rattle.check_area.specs.Lines.{parts_of as spec_parts_of, sweep_named as spec_sweep_named};
ghost use Rattle.check_area.specs.NearFeature.{WhereNear};

use crate::line::{edge_named, sweep_of_edge};
use crate::part::BoundaryEdge;
use crate::ring::ring_findings;
use crate::sweep::{LineSweep, sweep_along};
use cell_spec::Finding;
use check_words::number;
use near_records::Near;
use s57_types::{Feature, Kind, RecName, Spot, Vector};
use std::alloc::{AllocError, Global};
use std::collections::BTreeMap;

/// The most inner points of an edge whose sum isn't kept: to sum so few again costs less.
const FEW_POINTS: usize = 8;

fn keep_sweep(
    known: &mut BTreeMap<u32, LineSweep>,
    id: u32,
    sweep: LineSweep,
) -> Result<(), AllocError>
    ensures { OnOk result ((q : ℕ) → get nat_cmp known.new q ≡ (if id == q then Some sweep else get nat_cmp known.old q)) }
{
    known.insert(id, sweep)?;
    Ok(())
}

/// What the edge of a number sweeps, which is summed once and kept.
fn kept_sweep<N: Near>(
    near: &N,
    known: &mut BTreeMap<u32, LineSweep>,
    id: u32,
    edge: &Vector,
) -> Result<Option<LineSweep>, AllocError>
    ensures sweep { (c : SpecCell) (keys : List SpecKey) → N.tells near.now c keys → IsAskedEdge c keys (edge_name id) edge.now → HoldsSweeps c known.old
        → IfOk result (λ sweep. sweep ≡ spec_sweep_named c (edge_name id)) }
    ensures known { (c : SpecCell) (keys : List SpecKey) → N.tells near.now c keys → IsAskedEdge c keys (edge_name id) edge.now → HoldsSweeps c known.old
        → OnOk result (HoldsSweeps c known.new) }
{
    if let Some(sweep) = known.get(&id) {
        return Ok(Some(*sweep));
    }
    let Some(sweep) = sweep_of_edge(near, edge)? else {
        return Ok(None);
    };
    keep_sweep(known, id, sweep)?;
    Ok(Some(sweep))
}

/// What the edge of a name sweeps. There is nothing where the name isn't an edge's, where the edge hasn't exactly one
/// beginning node and one end node, or where one of these isn't a connected node with exactly one position (S-57 Part 2,
/// 2.2.1.2; Part 3, 7.7.1.4).
fn sweep_at<N: Near>(
    near: &N,
    known: &mut BTreeMap<u32, LineSweep>,
    name: RecName,
) -> Result<Option<LineSweep>, AllocError>
    ensures sweep { (c : SpecCell) (keys : List SpecKey) → N.tells near.now c keys → AsksForLine c keys name → HoldsSweeps c known.old
        → IfOk result (λ sweep. sweep ≡ spec_sweep_named c name) }
    ensures known { (c : SpecCell) (keys : List SpecKey) → N.tells near.now c keys → AsksForLine c keys name → HoldsSweeps c known.old
        → OnOk result (HoldsSweeps c known.new) }
{
    let Some(edge) = edge_named(near, name) else {
        return Ok(None);
    };
    match name.kind {
        Kind::Ve if edge.plane.len() > FEW_POINTS => kept_sweep(near, known, name.id, edge),
        _ => sweep_of_edge(near, edge),
    }
}

fn part_along(place: u32, spot: &Spot, sweep: LineSweep) -> Result<BoundaryEdge, AllocError>
    ensures { IfOk result (λ part. part ≡ spec_part_along place spot.now sweep) }
{
    let sweep = sweep_along(spot.ornt, sweep)?;
    Ok(BoundaryEdge {
        place,
        usag: spot.usag,
        sweep,
    })
}

/// The part of a boundary that a spatial pointer makes, if it names an edge with points.
fn part_at<N: Near>(
    near: &N,
    known: &mut BTreeMap<u32, LineSweep>,
    place: u32,
    spot: &Spot,
) -> Result<Option<BoundaryEdge>, AllocError>
    ensures part { (c : SpecCell) (keys : List SpecKey) → N.tells near.now c keys → AsksForLine c keys spot.now.to → HoldsSweeps c known.old
        → IfOk result (λ part. part ≡ spec_part_at c (place, spot.now)) }
    ensures known { (c : SpecCell) (keys : List SpecKey) → N.tells near.now c keys → AsksForLine c keys spot.now.to → HoldsSweeps c known.old
        → OnOk result (HoldsSweeps c known.new) }
{
    let Some(sweep) = sweep_at(near, known, spot.to)? else {
        return Ok(None);
    };
    let part = part_along(place, spot, sweep)?;
    Ok(Some(part))
}

/// The parts of a boundary in the order of its spatial pointers, if each of these names an edge with points. A long edge
/// that is named more than once is summed once.
fn parts_of<N: Near>(
    alloc: Global,
    near: &N,
    places: &[Spot],
) -> Result<Option<Vec<BoundaryEdge>>, AllocError>
    ensures { (c : SpecCell) (keys : List SpecKey) → N.tells near.now c keys → All (λ (s : SpecSpot). AsksForLine c keys s.to) places.now
        → IfOk result (λ parts. option_map (λ list. list.items) parts ≡ spec_parts_of c places.now) }
{
    let mut known = BTreeMap::new(alloc);
    let mut parts = Vec::with_capacity(alloc, places.len())?;
    for (k, spot) in places.iter().enumerate() {
        let place = number(k + 1)?;
        let Some(part) = part_at(near, &mut known, place, spot)? else {
            return Ok(None);
        };
        parts.push(part)?;
    }
    Ok(Some(parts))
}

/// The findings about the boundary of an area: OpenRing, MixedRing, OuterCount and WrongTurn, in the order of their
/// kinds and places (S-57 Part 3, 7.6.8; Appendix B.1). The feature is an area whose spatial pointers fit its
/// primitive, name records of the cell and have their codes; where one of these isn't an edge with points, nothing is
/// found. `near` holds what the cell answers to the feature's read set.
///
/// An `Err` means out of memory.
pub fn area_findings<N: Near>(
    alloc: Global,
    near: &N,
    feature: &Feature,
) -> Result<Vec<Finding>, AllocError>
    ensures { WhereNear (N.tells near.now) feature.now (λ c. (feature.now.prim == 3) ≡ true
        → prim_refs c feature.now ≡ [] → dangling_ref c feature.now ≡ [] → bad_codes c feature.now ≡ []
        → IfOk result (λ findings. findings.items ≡ map (finding OPEN_RING) (open_ring c feature.now)
        ++ (map (finding MIXED_RING) (mixed_ring c feature.now)
        ++ (map (finding OUTER_COUNT) (outer_count c feature.now) ++ map (finding WRONG_TURN) (wrong_turn c feature.now))))) }
{
    match parts_of(alloc, near, feature.places.as_slice())? {
        Some(parts) => ring_findings(alloc, &parts),
        None => Ok(Vec::new(alloc)),
    }
}
