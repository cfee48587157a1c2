//! Connected nodes and edges with the boxes around them.

ghost use Rattle.std.specs.Prelude.{◌≡◌, ◌≤◌, ◌+◌, All, IfOk, IfSome, IsPermutation, IsTrue};
ghost use Rattle.s57_types.specs.declared.cell.Cell.{Cell as SpecCell};
ghost use Rattle.s57_types.specs.declared.name.RecName.{RecName as SpecRecName};
ghost use Rattle.check_pairs.specs.Parts.{IsPart};
ghost use Rattle.rule_spec.specs.EdgePoints.{node_position};
ghost use Rattle.rule_spec.specs.Records.{is_chain_part, the_only};
ghost use Rattle.cell_findings.specs.Near.{leaves_in};
ghost use Rattle.cell_findings.specs.Parts.{AreParts, HaveParts, leaves_of_windows};

use crate::part_window::PartWindow;
use box_tree::{BoxTree, Leaf};
use chain_topo::{ListLook, Look, Steps};
use check_pairs::{ChainPart, part_named};
use check_words::{is_edge_name, the_only};
use geometry_spec::Point;
use s57_types::{Kind, Rec, RecName};
use std::alloc::{AllocError, Global};
use std::sync::ledger::Ledger;

/// The position of a connected node that has exactly one.
pub(crate) fn position_at<B: Look, L: Ledger>(
    look: &B,
    name: RecName,
    steps: &mut Steps<L>,
) -> Option<Point>
    ensures position { result ≡ node_position (B.cell look.now) name }
    ensures steps { steps.new ≤ steps.old + 1 }
{
    match look.get(name, steps) {
        Some(Rec::V(part)) => {
            if part.name.kind == Kind::Vc {
                the_only(part.plane.as_slice())
            } else {
                None
            }
        }
        _ => None,
    }
}

/// Where the connected nodes or the edges begin among ascending names: the place of the first one, and its number.
#[derive(Clone, Copy)]
struct Beginning {
    place: usize,
    id: u32,
}

impl Beginning {
    /// That of the names from a place on.
    fn at(names: &[RecName], place: usize) -> Beginning {
        let id = match names.get(place) {
            Some(name) => name.id,
            None => 0,
        };
        Beginning { place, id }
    }

    /// The place of a number where none is left out between it and the first one.
    fn place_of(self, id: u32) -> usize {
        let behind = id.saturating_sub(self.id) as usize;
        self.place.saturating_add(behind)
    }
}

/// Connected nodes and edges of a cell in the order of their names, in windows of which all but the last are equally long, and the
/// boxes around those that have a point.
pub(crate) struct PlacedParts<'a> {
    windows: Vec<PartWindow<'a>>,
    pub(crate) leaves: Vec<Leaf>,
    nodes: Beginning,
    edges: Beginning,
}

impl<'a> Drop for PlacedParts<'a> {
    fn drop(self) {
        let PlacedParts {
            windows: _,
            leaves: _,
            nodes: _,
            edges: _,
        } = self;
    }
}

/// The boxes of windows, one window after the other. There is memory for `count` of them.
fn leaves_of(alloc: Global, windows: &[PartWindow], count: usize) -> Result<Vec<Leaf>, AllocError>
    ensures { IfOk result (λ leaves. leaves.items ≡ leaves_of_windows windows.now) }
{
    let mut leaves = Vec::with_capacity(alloc, count)?;
    for window in windows {
        leaves.extend_from_slice(&window.leaves)?;
    }
    Ok(leaves)
}

/// The connected nodes and edges of some names, each looked up once, with the least box around the points of each.
pub(crate) fn parts_of<'a, L: Ledger>(
    alloc: Global,
    look: &'a ListLook,
    names: &[RecName],
    steps: &mut Steps<L>,
) -> Result<PlacedParts<'a>, AllocError>
    requires { All (λ (n : SpecRecName). IsTrue (is_chain_part look.now n)) names.now }
    ensures parts { IfOk result (AreParts look.now) }
    ensures leaves { IfOk result (λ placed. placed.leaves.items ≡ leaves_in look.now names.now) }
{
    let window = PartWindow::find(alloc, look, names, steps)?;
    PlacedParts::of_windows(alloc, vec![in alloc; window]?, names)
}

impl<'a> PlacedParts<'a> {
    /// The parts in windows of these names.
    ///
    /// An `Err` means out of memory.
    pub(crate) fn of_windows(
        alloc: Global,
        windows: Vec<PartWindow<'a>>,
        names: &[RecName],
    ) -> Result<PlacedParts<'a>, AllocError>
        ensures parts { IfOk result (λ placed. (c : SpecCell) → HaveParts c windows.entry.items → AreParts c placed) }
        ensures leaves { IfOk result (λ placed. placed.leaves.items ≡ leaves_of_windows windows.entry.items) }
    {
        let leaves = leaves_of(alloc, &windows, names.len())?;
        let first_edge = names.partition_point(|name| !is_edge_name(*name));
        Ok(PlacedParts {
            windows,
            leaves,
            nodes: Beginning::at(names, 0),
            edges: Beginning::at(names, first_edge),
        })
    }

    /// The tree of the boxes.
    pub(crate) fn tree(&self, alloc: Global) -> Result<BoxTree, AllocError>
        ensures { IfOk result (λ tree. IsPermutation self.now.leaves.items tree) }
    {
        BoxTree::make(alloc, self.leaves.to_vec(alloc)?)
    }

    /// The part at the place of a name where no number is left out between it and the first of its kind.
    fn likely_part(&self, name: RecName) -> Option<&ChainPart<'a>>
        ensures { (c : SpecCell) → AreParts c self.now → IfSome result (λ part. IsPart c part.now) }
    {
        let beginning = match name.kind {
            Kind::Ve => self.edges,
            _ => self.nodes,
        };
        let place = beginning.place_of(name.id);
        let len = self.windows.first()?.parts.len().max(1);
        let window = self.windows.get(place / len)?;
        window.parts.get(place % len)
    }

    /// The part of a name, sought by halves in the last window that doesn't begin above it.
    fn sought_part(&self, name: RecName) -> Option<&ChainPart<'a>>
        ensures named { IfSome result (λ part. part.now.name ≡ name) }
        ensures held { (c : SpecCell) → AreParts c self.now → IfSome result (λ part. IsPart c part.now) }
    {
        let behind = self
            .windows
            .partition_point(|window| window.begins_by(name));
        let window = self.windows.get(behind.saturating_sub(1))?;
        part_named(&window.parts, name)
    }

    /// The connected node or the edge of a name.
    pub(crate) fn part(&self, name: RecName) -> Option<&ChainPart<'a>>
        ensures named { IfSome result (λ part. part.now.name ≡ name) }
        ensures held { (c : SpecCell) → AreParts c self.now → IfSome result (λ part. IsPart c part.now) }
    {
        match self.likely_part(name) {
            Some(part) if part.name() == name => Some(part),
            _ => self.sought_part(name),
        }
    }
}
