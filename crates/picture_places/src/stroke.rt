//! The strokes that draw a record.

ghost use Rattle.std.specs.Prelude.{◌≡◌, ◌++◌, ◌∷◌, [], IfOk, OnOk, flat_map, map};
ghost use Rattle.picture_places.specs.Page.{positions_of};
ghost use Rattle.picture_places.specs.Strokes.{dot_at, drawn_points, stroke_of as spec_stroke_of, strokes_named, target_strokes, vector_strokes};

use crate::extent::push_positions;
use crate::page::{PagePoint, page_point};
use crate::view::View;
use chain_topo::{Look, Steps, edge_points};
use check_words::is_edge_name;
use geometry_spec::{Box4, Point};
use s57_types::{Items, Rec, RecName, Spot, Vector};
use std::alloc::{AllocError, Global};
use std::sync::ledger::Ledger;

/// Points that are joined, one after the other; a single one is a dot.
pub type Stroke = Items<PagePoint>;

/// Strokes one after the other.
pub type Strokes = Items<Stroke>;

/// The stroke through points.
pub fn stroke_of(alloc: Global, around: Box4, points: &[Point]) -> Result<Stroke, AllocError>
    ensures { IfOk result (λ stroke. stroke ≡ spec_stroke_of around points.now) }
{
    let mut stroke = Vec::with_capacity(alloc, points.len())?;
    for point in points {
        stroke.push(page_point(around, *point))?;
    }
    Ok(Stroke::of_vec(stroke))
}

impl<'a, 'b> View<'a, 'b> {
    /// Appends the stroke through points.
    pub(crate) fn push_stroke(
        &self,
        strokes: &mut Strokes,
        points: &[Point],
    ) -> Result<(), AllocError>
        ensures { OnOk result (strokes.new ≡ strokes.old ++ spec_stroke_of self.now.around points.now ∷ []) }
    {
        let stroke = stroke_of(self.alloc, self.around, points)?;
        strokes.push(stroke)
    }

    /// Appends a dot at each of some points.
    fn push_dots(&self, strokes: &mut Strokes, points: &[Point]) -> Result<(), AllocError>
        ensures { OnOk result (strokes.new ≡ strokes.old ++ map (dot_at self.now.around) points.now) }
    {
        for point in points {
            self.push_stroke(strokes, &[*point])?;
        }
        Ok(())
    }

    /// Appends the stroke of an edge: its points from node to node, or its own where it has no line.
    fn push_edge<L: Ledger>(
        &self,
        strokes: &mut Strokes,
        edge: &Vector,
        steps: &mut Steps<L>,
    ) -> Result<(), AllocError>
        ensures { OnOk result (strokes.new ≡ strokes.old ++ spec_stroke_of self.now.around (drawn_points self.now.look.now edge.now) ∷ []) }
    {
        match edge_points(self.alloc, self.look, edge.name, steps)? {
            Some(points) => self.push_stroke(strokes, points.as_slice()),
            None => self.push_stroke(strokes, edge.plane.as_slice()),
        }
    }

    /// Appends a dot at each position of a node.
    fn push_node(&self, strokes: &mut Strokes, node: &Vector) -> Result<(), AllocError>
        ensures { OnOk result (strokes.new ≡ strokes.old ++ map (dot_at self.now.around) (positions_of node.now)) }
    {
        let mut points = Vec::new(self.alloc);
        push_positions(&mut points, node)?;
        self.push_dots(strokes, &points)
    }

    /// Appends the strokes of a vector record.
    fn push_vector<L: Ledger>(
        &self,
        strokes: &mut Strokes,
        vector: &Vector,
        steps: &mut Steps<L>,
    ) -> Result<(), AllocError>
        ensures { OnOk result (strokes.new ≡ strokes.old ++ vector_strokes self.now.look.now self.now.around vector.now) }
    {
        if is_edge_name(vector.name) {
            return self.push_edge(strokes, vector, steps);
        }
        self.push_node(strokes, vector)
    }

    /// The strokes of a vector record: one of an edge, and of a node a dot at each of its positions. An `Err` means out of memory.
    pub fn vector_strokes_of<L: Ledger>(
        &self,
        vector: &Vector,
        steps: &mut Steps<L>,
    ) -> Result<Strokes, AllocError>
        ensures { IfOk result (λ strokes. strokes ≡ vector_strokes self.now.look.now self.now.around vector.now) }
    {
        let mut strokes = Strokes::make(self.alloc);
        self.push_vector(&mut strokes, vector, steps)?;
        Ok(strokes)
    }

    /// Appends the strokes of the vector record that a spatial pointer names.
    pub(crate) fn push_target<L: Ledger>(
        &self,
        strokes: &mut Strokes,
        spot: Spot,
        steps: &mut Steps<L>,
    ) -> Result<(), AllocError>
        ensures { OnOk result (strokes.new ≡ strokes.old ++ target_strokes self.now.look.now self.now.around spot) }
    {
        match self.look.get(spot.to, steps) {
            Some(Rec::V(vector)) => self.push_vector(strokes, vector, steps),
            _ => Ok(()),
        }
    }

    /// Appends the strokes of the vector records that spatial pointers name.
    fn push_targets<L: Ledger>(
        &self,
        strokes: &mut Strokes,
        spots: &[Spot],
        steps: &mut Steps<L>,
    ) -> Result<(), AllocError>
        ensures { OnOk result (strokes.new ≡ strokes.old ++ flat_map (target_strokes self.now.look.now self.now.around) spots.now) }
    {
        for spot in spots {
            self.push_target(strokes, *spot, steps)?;
        }
        Ok(())
    }

    /// Appends the strokes of the record of a name; a feature's are those of the nodes and edges that it names.
    pub(crate) fn push_named<L: Ledger>(
        &self,
        strokes: &mut Strokes,
        name: RecName,
        steps: &mut Steps<L>,
    ) -> Result<(), AllocError>
        ensures { OnOk result (strokes.new ≡ strokes.old ++ strokes_named self.now.look.now self.now.around name) }
    {
        match self.look.get(name, steps) {
            Some(Rec::V(vector)) => self.push_vector(strokes, vector, steps),
            Some(Rec::F(feature)) => self.push_targets(strokes, feature.places.as_slice(), steps),
            _ => Ok(()),
        }
    }
}
