//! The winding number of an area.

ghost use Rattle.std.specs.Prelude.{◌≡◌, ◌==◌, ◌+ℤ◌, ◌-ℤ◌, ℕ, IfOk, OnOk, Some, is_some, pos, true, if◌then◌else◌};
ghost use Rattle.std.specs.BTreeMap.{get};
ghost use Rattle.std.specs.Ordering.{nat_cmp};
ghost use Rattle.std.specs.Option.{option_map_or};
ghost use Rattle.rule_spec.specs.Records.{feature_named};
ghost use Rattle.skin_probe.specs.Kept.{HoldsWindings, edge_name, taken as spec_taken};
ghost use Rattle.skin_probe.specs.Winding.{crossing_of as crossing_at, edge_winding, pointer_winding as winding_of_pointer, sum_of, winding_number};

use crate::crossing::crossing_of;
use chain_topo::{Look, Steps, edge_points};
use check_words::{Segment, segments_of};
use geo_exact::Point;
use s57_types::{Feature, Kind, Rec, RecName, Spot};
use std::alloc::{AllocError, Global};
use std::collections::BTreeMap;
use std::sync::ledger::Ledger;

/// The orientations ORNT.
const FORWARD: u8 = 1;

const REVERSE: u8 = 2;

/// A sum of winding numbers. One that 64 bits don't hold would take 2^63 crossings, and is answered with out of memory.
pub(crate) fn plus(a: i64, b: i64) -> Result<i64, AllocError>
    ensures { IfOk result (λ sum. sum ≡ a +ℤ b) }
{
    a.checked_add(b).ok_or(AllocError)
}

fn negated(winding: i64) -> Result<i64, AllocError>
    ensures { IfOk result (λ other. other ≡ pos 0 -ℤ winding) }
{
    0i64.checked_sub(winding).ok_or(AllocError)
}

/// What the crossings of segments add up to.
fn winding_of(at: Point, segments: &[Segment]) -> Result<i64, AllocError>
    ensures { IfOk result (λ winding. winding ≡ sum_of (crossing_at at) segments.now) }
{
    let mut winding = 0;
    for segment in segments {
        winding = plus(winding, crossing_of(at, *segment))?;
    }
    Ok(winding)
}

/// What an edge adds where a spatial pointer goes along it forward.
#[derive(Clone, Copy)]
pub(crate) struct EdgeWinding {
    pub(crate) forward: i64,
}

/// What an edge adds where a spatial pointer of an orientation goes along it.
fn taken(ornt: u8, edge: EdgeWinding) -> Result<i64, AllocError>
    ensures { IfOk result (λ winding. winding ≡ spec_taken ornt edge.forward) }
{
    match ornt {
        FORWARD => Ok(edge.forward),
        REVERSE => negated(edge.forward),
        _ => Ok(0),
    }
}

fn keep_winding(
    known: &mut BTreeMap<u32, EdgeWinding>,
    id: u32,
    winding: EdgeWinding,
) -> Result<(), AllocError>
    ensures { OnOk result ((q : ℕ) → get nat_cmp known.new q ≡ (if id == q then Some winding else get nat_cmp known.old q)) }
{
    known.insert(id, winding)?;
    Ok(())
}

/// A point, latitude first, in integer coordinate units, and the cell whose areas may go round it.
#[derive(Drop)]
pub(crate) struct Probe<'a, B: Look> {
    pub(crate) alloc: Global,
    pub(crate) look: &'a B,
    pub(crate) at: Point,
}

impl<'a, B: Look> Probe<'a, B> {
    /// What the edge of a name adds, taken forward: nothing where there is none with points.
    fn edge<L: Ledger>(
        &self,
        name: RecName,
        steps: &mut Steps<L>,
    ) -> Result<EdgeWinding, AllocError>
        ensures { IfOk result (λ edge. edge.forward ≡ edge_winding (B.cell self.now.look.now) self.now.at name) }
    {
        let Some(points) = edge_points(self.alloc, self.look, name, steps)? else {
            return Ok(EdgeWinding { forward: 0 });
        };
        let segments = segments_of(self.alloc, points.as_slice())?;
        let forward = winding_of(self.at, &segments)?;
        Ok(EdgeWinding { forward })
    }

    /// The same for the edge of a number, which is worked out once and kept.
    fn kept<L: Ledger>(
        &self,
        known: &mut BTreeMap<u32, EdgeWinding>,
        id: u32,
        steps: &mut Steps<L>,
    ) -> Result<EdgeWinding, AllocError>
        requires { HoldsWindings (B.cell self.now.look.now) self.now.at known.old }
        ensures edge { IfOk result (λ edge. edge.forward ≡ edge_winding (B.cell self.now.look.now) self.now.at (edge_name id)) }
        ensures known { OnOk result (HoldsWindings (B.cell self.now.look.now) self.now.at known.new) }
    {
        if let Some(edge) = known.get(&id) {
            return Ok(*edge);
        }
        let name = RecName { kind: Kind::Ve, id };
        let edge = self.edge(name, steps)?;
        keep_winding(known, id, edge)?;
        Ok(edge)
    }

    /// The same for the edge of a name.
    fn edge_at<L: Ledger>(
        &self,
        known: &mut BTreeMap<u32, EdgeWinding>,
        name: RecName,
        steps: &mut Steps<L>,
    ) -> Result<EdgeWinding, AllocError>
        requires { HoldsWindings (B.cell self.now.look.now) self.now.at known.old }
        ensures edge { IfOk result (λ edge. edge.forward ≡ edge_winding (B.cell self.now.look.now) self.now.at name) }
        ensures known { OnOk result (HoldsWindings (B.cell self.now.look.now) self.now.at known.new) }
    {
        match name.kind {
            Kind::Ve => self.kept(known, name.id, steps),
            _ => self.edge(name, steps),
        }
    }

    /// What a spatial pointer adds: nothing where it names no edge with points.
    fn pointer<L: Ledger>(
        &self,
        known: &mut BTreeMap<u32, EdgeWinding>,
        spot: &Spot,
        steps: &mut Steps<L>,
    ) -> Result<i64, AllocError>
        requires { HoldsWindings (B.cell self.now.look.now) self.now.at known.old }
        ensures winding { IfOk result (λ winding. winding ≡ winding_of_pointer (B.cell self.now.look.now) self.now.at spot.now) }
        ensures known { OnOk result (HoldsWindings (B.cell self.now.look.now) self.now.at known.new) }
    {
        let edge = self.edge_at(known, spot.to, steps)?;
        let winding = taken(spot.ornt, edge)?;
        Ok(winding)
    }

    /// What spatial pointers add up to. An edge that is named more than once is gone along once.
    fn pointers<L: Ledger>(&self, spots: &[Spot], steps: &mut Steps<L>) -> Result<i64, AllocError>
        ensures { IfOk result (λ winding. winding ≡ sum_of (winding_of_pointer (B.cell self.now.look.now) self.now.at) spots.now) }
    {
        let mut known = BTreeMap::new(self.alloc);
        let mut winding = 0;
        for spot in spots {
            let more = self.pointer(&mut known, spot, steps)?;
            winding = plus(winding, more)?;
        }
        Ok(winding)
    }

    /// The winding number of an area.
    pub(crate) fn area<L: Ledger>(
        &self,
        area: &Feature,
        steps: &mut Steps<L>,
    ) -> Result<i64, AllocError>
        ensures { IfOk result (λ winding. winding ≡ winding_number (B.cell self.now.look.now) self.now.at area.now) }
    {
        self.pointers(area.places.as_slice(), steps)
    }
}

/// The winding number of an area round a point, its latitude `y` and its longitude `x` in integer coordinate units: how often the area's
/// boundary goes round the point clockwise. It is counted by the crossings of the ray that runs from the point to the east, exactly:
/// downwards 1, upwards -1; a segment has its lower end and not its upper one, and crosses only strictly east of the point. Edges are taken
/// as the spatial pointers (FSPT, S-57 Part 3, 7.6.8) go along them, and an edge without points adds nothing.
///
/// An `Err` means out of memory.
pub fn wind<B: Look, L: Ledger>(
    alloc: Global,
    look: &B,
    area: RecName,
    y: i32,
    x: i32,
    steps: &mut Steps<L>,
) -> Result<i64, AllocError>
    requires { is_some (feature_named (B.cell look.now) area) ≡ true }
    ensures { IfOk result (λ winding. winding ≡ option_map_or (winding_number (B.cell look.now) (y, x)) (feature_named (B.cell look.now) area) (pos 0)) }
{
    let at = (y, x);
    match look.get(area, steps) {
        Some(Rec::F(feature)) => Probe { alloc, look, at }.area(feature, steps),
        _ => Ok(0),
    }
}
