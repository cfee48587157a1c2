//! Where a finding is.

ghost use Rattle.std.specs.Prelude.{◌≡◌, ◌++◌, ◌∷◌, [], IfOk, OnOk};
ghost use Rattle.cell_spec.specs.Lookup.{lookup_record};
ghost use Rattle.picture_places.specs.Places.{common_dots, is_at_place as spec_is_at_place, is_contact as spec_is_contact, pair_place, place_about};
ghost use Rattle.picture_places.specs.Places.{pointer_at as spec_pointer_at, record_place};
ghost use Rattle.picture_places.specs.Places.{segment_named as spec_segment_named, segment_of as spec_segment_of, strokes_at_place};
ghost use Rattle.picture_places.specs.Strokes.{stroke_of};

use crate::meet::push_common_dot;
use crate::stroke::Strokes;
use crate::view::View;
use cell_spec::{Finding, Subject};
use chain_topo::{Look, Steps, edge_points};
use geometry_spec::Point;
use rule_spec::{
    BAD_CODES, COINCIDE, CROSS, MIXED_RING, OPEN_RING, SELF_MEET, STACKED, TOUCH, WRONG_TURN,
};
use s57_types::{Feature, Rec, RecName, Spot};
use std::alloc::{AllocError, Global};
use std::sync::ledger::Ledger;

/// Whether a finding's number is the place of a spatial pointer of its feature.
pub(crate) fn is_at_place(kind: u8) -> bool
    ensures { result ≡ spec_is_at_place kind }
{
    kind == BAD_CODES || kind == OPEN_RING || kind == MIXED_RING || kind == WRONG_TURN
}

/// Whether a finding tells of two segments of two edges.
pub(crate) fn is_contact(kind: u8) -> bool
    ensures { result ≡ spec_is_contact kind }
{
    kind == CROSS || kind == TOUCH || kind == COINCIDE
}

/// The segment with a number from 1, as its two ends; fewer where there is none.
fn segment_of(alloc: Global, points: &[Point], number: u32) -> Result<Vec<Point>, AllocError>
    ensures { IfOk result (λ segment. segment.items ≡ spec_segment_of points.now number) }
{
    let before = number.saturating_sub(1) as usize;
    points.iter().copied().skip(before).take(2).collect(alloc)
}

/// The spatial pointer of a feature at a place from 1.
pub(crate) fn pointer_at(feature: &Feature, place: u32) -> Option<Spot>
    ensures { result ≡ spec_pointer_at feature.now place }
{
    let before = place.saturating_sub(1) as usize;
    feature.places.as_slice().get(before).copied()
}

impl<'a, 'b> View<'a, 'b> {
    /// The segment of an edge with a number from 1.
    fn segment_named<L: Ledger>(
        &self,
        name: RecName,
        number: u32,
        steps: &mut Steps<L>,
    ) -> Result<Vec<Point>, AllocError>
        ensures { IfOk result (λ segment. segment.items ≡ spec_segment_named self.now.look.now name number) }
    {
        match edge_points(self.alloc, self.look, name, steps)? {
            Some(points) => segment_of(self.alloc, points.as_slice(), number),
            None => Ok(Vec::new(self.alloc)),
        }
    }

    /// Appends a segment of an edge.
    fn push_segment<L: Ledger>(
        &self,
        strokes: &mut Strokes,
        name: RecName,
        number: u32,
        steps: &mut Steps<L>,
    ) -> Result<(), AllocError>
        ensures { OnOk result (strokes.new ≡ strokes.old ++ stroke_of self.now.around (spec_segment_named self.now.look.now name number) ∷ []) }
    {
        let segment = self.segment_named(name, number, steps)?;
        self.push_stroke(strokes, &segment)
    }

    /// Appends the common point of two segments of edges, by the numbers of the segments.
    fn push_contact<L: Ledger>(
        &self,
        strokes: &mut Strokes,
        names: (RecName, RecName),
        numbers: (u32, u32),
        steps: &mut Steps<L>,
    ) -> Result<(), AllocError>
        ensures { OnOk result (strokes.new ≡ strokes.old
            ++ common_dots self.now.around (spec_segment_named self.now.look.now names.0 numbers.0)
            (spec_segment_named self.now.look.now names.1 numbers.1)) }
    {
        let first = self.segment_named(names.0, numbers.0, steps)?;
        let second = self.segment_named(names.1, numbers.1, steps)?;
        push_common_dot(self.alloc, strokes, self.around, &first, &second)
    }

    /// Appends what the spatial pointer of a feature at a place from 1 names.
    fn push_at_place<L: Ledger>(
        &self,
        strokes: &mut Strokes,
        name: RecName,
        place: u32,
        steps: &mut Steps<L>,
    ) -> Result<(), AllocError>
        ensures { OnOk result (strokes.new ≡ strokes.old
            ++ strokes_at_place self.now.look.now self.now.around place (lookup_record self.now.look.now name)) }
    {
        let Some(Rec::F(feature)) = self.look.get(name, steps) else {
            return Ok(());
        };
        match pointer_at(feature, place) {
            Some(spot) => self.push_target(strokes, spot, steps),
            None => Ok(()),
        }
    }

    /// Appends where a finding about a record is.
    fn push_record_place<L: Ledger>(
        &self,
        strokes: &mut Strokes,
        name: RecName,
        finding: Finding,
        steps: &mut Steps<L>,
    ) -> Result<(), AllocError>
        ensures { OnOk result (strokes.new ≡ strokes.old ++ record_place self.now.look.now self.now.around name finding) }
    {
        let [first, second, ..] = finding.nums;
        if finding.kind == STACKED {
            return self.push_segment(strokes, name, first, steps);
        }
        if finding.kind == SELF_MEET {
            return self.push_contact(strokes, (name, name), (first, second), steps);
        }
        if is_at_place(finding.kind) {
            return self.push_at_place(strokes, name, first, steps);
        }
        self.push_named(strokes, name, steps)
    }

    /// Appends where a finding about two is.
    fn push_pair_place<L: Ledger>(
        &self,
        strokes: &mut Strokes,
        names: (RecName, RecName),
        finding: Finding,
        steps: &mut Steps<L>,
    ) -> Result<(), AllocError>
        ensures { OnOk result (strokes.new ≡ strokes.old ++ pair_place self.now.look.now self.now.around names.0 names.1 finding) }
    {
        let [first, second, ..] = finding.nums;
        if is_contact(finding.kind) {
            return self.push_contact(strokes, names, (first, second), steps);
        }
        self.push_named(strokes, names.0, steps)
    }

    /// Appends where a finding is.
    fn push_place<L: Ledger>(
        &self,
        strokes: &mut Strokes,
        subject: Subject,
        finding: Finding,
        steps: &mut Steps<L>,
    ) -> Result<(), AllocError>
        ensures { OnOk result (strokes.new ≡ strokes.old ++ place_about self.now.look.now self.now.around subject finding) }
    {
        match subject {
            Subject::Rec(name) => self.push_record_place(strokes, name, finding, steps),
            Subject::Side(name) => self.push_named(strokes, name, steps),
            Subject::Pair(a, b) => self.push_pair_place(strokes, (a, b), finding, steps),
            Subject::Ident(_) => Ok(()),
        }
    }

    /// Where a finding on a subject is: the strokes of a node, a segment, a common point, or of the nodes or edges of a record. A finding on
    /// an identifier is nowhere. An `Err` means out of memory.
    pub fn place_of<L: Ledger>(
        &self,
        subject: Subject,
        finding: Finding,
        steps: &mut Steps<L>,
    ) -> Result<Strokes, AllocError>
        ensures { IfOk result (λ strokes. strokes ≡ place_about self.now.look.now self.now.around subject finding) }
    {
        let mut strokes = Strokes::make(self.alloc);
        self.push_place(&mut strokes, subject, finding, steps)?;
        Ok(strokes)
    }
}
