//! Where the mark of one of very many findings is held: the middle of the first stroke of its place, found without the strokes.

ghost use Rattle.std.specs.Prelude.{◌≡◌, [], IfOk, IfSome, flat_map, map};
ghost use Rattle.cell_spec.specs.Lookup.{lookup_record};
ghost use Rattle.s57_types.specs.declared.cell.Cell.{Cell as SpecCell};
ghost use Rattle.picture_places.specs.Holds.{IsHeld};
ghost use Rattle.picture_places.specs.Labels.{anchor_of as spec_anchor_of, middle_of as spec_middle_of};
ghost use Rattle.picture_places.specs.Page.{positions_of, without_depth};
ghost use Rattle.picture_places.specs.Places.{place_about, strokes_at_place};
ghost use Rattle.picture_places.specs.Strokes.{dot_at, drawn_points, stroke_of as spec_stroke_of, strokes_named, target_strokes, vector_strokes};

use crate::label::{anchor_of, half_way};
use crate::page::{PagePoint, page_point};
use crate::place::{is_at_place, is_contact, pointer_at};
use crate::view::View;
use cell_spec::{Finding, Subject};
use chain_topo::{Look, Steps, edge_points};
use check_words::is_edge_name;
use geometry_spec::{Box4, Point};
use rule_spec::{SELF_MEET, STACKED};
use s57_types::{Rec, RecName, Spot, Vector};
use std::alloc::AllocError;
use std::sync::ledger::Ledger;

/// Where a mark is held, if it is anywhere, or out of memory.
type Anchor = Result<Option<PagePoint>, AllocError>;

/// A record, and where a mark of all of it is held.
#[derive(Clone, Copy, Debug, PartialEq, Eq)]
pub struct Held {
    pub name: RecName,
    pub at: Option<PagePoint>,
}

/// The middle of the stroke through points.
fn middle_through(around: Box4, points: &[Point]) -> Option<PagePoint>
    ensures { result ≡ spec_middle_of (spec_stroke_of around points.now) }
{
    let n = points.len();
    if n == 0 {
        return None;
    }
    let first = page_point(around, points[(n - 1) / 2]);
    let second = page_point(around, points[n / 2]);
    Some(half_way(first, second))
}

/// The first of some points on the page.
#[tactic(auto, using(crate::proofs::Anchors::dot_first))]
fn first_point(around: Box4, points: &[Point]) -> Option<PagePoint>
    ensures { result ≡ spec_anchor_of (map (dot_at around) points.now) }
{
    match points {
        [point, ..] => Some(page_point(around, *point)),
        [] => None,
    }
}

fn position_of(sounding: &(i32, i32, i32)) -> Point
    ensures { result ≡ without_depth sounding.now }
{
    (sounding.0, sounding.1)
}

/// The first of some soundings on the page.
fn first_sounding(around: Box4, deep: &[(i32, i32, i32)]) -> Option<PagePoint>
    ensures { result ≡ spec_anchor_of (map (dot_at around) (map without_depth deep.now)) }
{
    match deep {
        [sounding, ..] => Some(page_point(around, position_of(sounding))),
        [] => None,
    }
}

/// Where a mark of a node is held: its first position.
#[tactic(auto, using(crate::proofs::Anchors::both_held))]
fn node_anchor(around: Box4, node: &Vector) -> Option<PagePoint>
    ensures { result ≡ spec_anchor_of (map (dot_at around) (positions_of node.now)) }
{
    match first_point(around, node.plane.as_slice()) {
        Some(at) => Some(at),
        None => first_sounding(around, node.deep.as_slice()),
    }
}

/// The record that a finding is about as a whole, if it is about one.
fn whole_of(subject: Subject, finding: Finding) -> Option<RecName>
    ensures { IfSome result (λ name. (c : SpecCell) → (box : _) → place_about c box subject finding ≡ strokes_named c box name) }
{
    match subject {
        Subject::Rec(name) => {
            if finding.kind == STACKED {
                return None;
            }
            if finding.kind == SELF_MEET {
                return None;
            }
            if is_at_place(finding.kind) {
                return None;
            }
            Some(name)
        }
        Subject::Side(name) => Some(name),
        Subject::Pair(a, _) => {
            if is_contact(finding.kind) {
                return None;
            }
            Some(a)
        }
        Subject::Ident(_) => None,
    }
}

impl<'a, 'b> View<'a, 'b> {
    /// Where a mark of an edge is held.
    fn edge<L: Ledger>(&self, edge: &Vector, steps: &mut Steps<L>) -> Anchor
        ensures { IfOk result (λ at. at ≡ spec_middle_of (spec_stroke_of self.now.around (drawn_points self.now.look.now edge.now))) }
    {
        match edge_points(self.alloc, self.look, edge.name, steps)? {
            Some(points) => Ok(middle_through(self.around, points.as_slice())),
            None => Ok(middle_through(self.around, edge.plane.as_slice())),
        }
    }

    /// Where a mark of a node or an edge is held.
    fn vector<L: Ledger>(&self, vector: &Vector, steps: &mut Steps<L>) -> Anchor
        ensures { IfOk result (λ at. at ≡ spec_anchor_of (vector_strokes self.now.look.now self.now.around vector.now)) }
    {
        if is_edge_name(vector.name) {
            return self.edge(vector, steps);
        }
        Ok(node_anchor(self.around, vector))
    }

    /// Where a mark of the vector record that a spatial pointer names is held.
    fn target<L: Ledger>(&self, spot: Spot, steps: &mut Steps<L>) -> Anchor
        ensures { IfOk result (λ at. at ≡ spec_anchor_of (target_strokes self.now.look.now self.now.around spot)) }
    {
        match self.look.get(spot.to, steps) {
            Some(Rec::V(vector)) => self.vector(vector, steps),
            _ => Ok(None),
        }
    }

    /// Where a mark of the vector records that spatial pointers name is held: at the first that is anywhere.
    fn targets<L: Ledger>(&self, spots: &[Spot], steps: &mut Steps<L>) -> Anchor
        ensures { IfOk result (λ at. at ≡ spec_anchor_of (flat_map (target_strokes self.now.look.now self.now.around) spots.now)) }
    {
        for spot in spots {
            let at = self.target(*spot, steps)?;
            if at.is_some() {
                return Ok(at);
            }
        }
        Ok(None)
    }

    /// Where a mark of the record of a name is held.
    fn named<L: Ledger>(&self, name: RecName, steps: &mut Steps<L>) -> Anchor
        ensures { IfOk result (λ at. at ≡ spec_anchor_of (strokes_named self.now.look.now self.now.around name)) }
    {
        match self.look.get(name, steps) {
            Some(Rec::V(vector)) => self.vector(vector, steps),
            Some(Rec::F(feature)) => self.targets(feature.places.as_slice(), steps),
            _ => Ok(None),
        }
    }

    /// The same, where findings on one record follow each other: it isn't looked at again.
    fn held<L: Ledger>(
        &self,
        name: RecName,
        held: &mut Option<Held>,
        steps: &mut Steps<L>,
    ) -> Anchor
        requires { IsHeld self.now.look.now self.now.around held.old }
        ensures at { IfOk result (λ at. at ≡ spec_anchor_of (strokes_named self.now.look.now self.now.around name)) }
        ensures held { IsHeld self.now.look.now self.now.around held.new }
    {
        if let Some(last) = *held {
            if last.name == name {
                return Ok(last.at);
            }
        }
        let at = self.named(name, steps)?;
        *held = Some(Held { name, at });
        Ok(at)
    }

    /// Where a mark of what the spatial pointer of a feature at a place from 1 names is held.
    fn at_place<L: Ledger>(&self, name: RecName, place: u32, steps: &mut Steps<L>) -> Anchor
        ensures { IfOk result (λ at. at ≡ spec_anchor_of
            (strokes_at_place self.now.look.now self.now.around place (lookup_record self.now.look.now name))) }
    {
        let Some(Rec::F(feature)) = self.look.get(name, steps) else {
            return Ok(None);
        };
        match pointer_at(feature, place) {
            Some(spot) => self.target(spot, steps),
            None => Ok(None),
        }
    }

    /// Where the mark of a finding is held that may be about a part of a record.
    fn part<L: Ledger>(&self, subject: Subject, finding: Finding, steps: &mut Steps<L>) -> Anchor
        ensures { IfOk result (λ at. at ≡ spec_anchor_of (place_about self.now.look.now self.now.around subject finding)) }
    {
        if let Subject::Rec(name) = subject {
            if finding.kind != STACKED && finding.kind != SELF_MEET && is_at_place(finding.kind) {
                return self.at_place(name, finding.nums[0], steps);
            }
        }
        let strokes = self.place_of(subject, finding, steps)?;
        Ok(anchor_of(strokes.as_slice()))
    }

    /// Where the mark of a finding on a subject is held, if it is anywhere. `held` is the record at which the last one was held that was about
    /// one as a whole: findings on one record follow each other. An `Err` means out of memory.
    pub fn mark_anchor<L: Ledger>(
        &self,
        subject: Subject,
        finding: Finding,
        held: &mut Option<Held>,
        steps: &mut Steps<L>,
    ) -> Result<Option<PagePoint>, AllocError>
        requires { IsHeld self.now.look.now self.now.around held.old }
        ensures at { IfOk result (λ at. at ≡ spec_anchor_of (place_about self.now.look.now self.now.around subject finding)) }
        ensures held { IsHeld self.now.look.now self.now.around held.new }
    {
        match whole_of(subject, finding) {
            Some(name) => self.held(name, held, steps),
            None => self.part(subject, finding, steps),
        }
    }
}
