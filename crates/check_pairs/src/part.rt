//! Connected nodes and edges: the parts of which chains are made (S-57 Part 2, 2.2.1.2).

ghost use Rattle.std.specs.Prelude.{◌≡◌, ◌≤◌, ◌+◌, All, IsTrue, IfOk, IfSome, Some, map, option_to_list};
ghost use Rattle.std.specs.List.{enumerate_from};
ghost use Rattle.geometry_spec.specs.Points.{Point as SpecPoint};
ghost use Rattle.line_boxes.specs.LineBoxes.{line_box};
ghost use Rattle.s57_types.specs.declared.cell.Cell.{Cell as SpecCell};
ghost use Rattle.s57_types.specs.declared.name.RecName.{RecName as SpecRecName};
ghost use Rattle.s57_types.specs.declared.record.Rec.TheVariants.{V as SpecV};
ghost use Rattle.cell_spec.specs.Lookup.{lookup_record};
ghost use Rattle.rule_spec.specs.EdgePoints.{edge_line_of, line_of as spec_line_of, node_position};
ghost use Rattle.rule_spec.specs.Records.{is_chain_part, is_edge_name};
ghost use Rattle.rule_spec.specs.Contacts.{names_node as spec_names_node};
ghost use Rattle.check_pairs.specs.Parts.{IsPart, extent_at};

use crate::ends::line_end;
use crate::line::SegmentedLine;
use chain_topo::{Look, Steps};
use check_words::{BEGINNING_NODE, END_NODE};
use geometry_spec::{Box4, Point};
use line_boxes::box_of_line;
use s57_types::{Kind, Rec, RecName, Vector};
use std::alloc::{AllocError, Global};
use std::sync::ledger::Ledger;

/// A connected node or an edge of a cell, with all that the rules on two of them ask of each: its record, and the line of an edge.
pub struct ChainPart<'a> {
    pub(crate) name: RecName,
    pub(crate) record: &'a Vector,
    pub(crate) line: Option<SegmentedLine>,
}

impl<'a> Drop for ChainPart<'a> {
    fn drop(self) {
        let ChainPart {
            name: _,
            record: _,
            line: _,
        } = self;
    }
}

/// The record of a connected node or an edge.
fn record_of<'a, B: Look, L: Ledger>(look: &'a B, name: RecName, steps: &mut Steps<L>) -> &'a Vector
    requires { IsTrue (is_chain_part (B.cell look.now) name) }
    ensures found { lookup_record (B.cell look.now) name ≡ Some (SpecV result.now) }
    ensures step { steps.new ≡ steps.old + 1 }
{
    match look.get(name, steps) {
        Some(Rec::V(part)) => part,
        _ => unreachable!(),
    }
}

/// The line of an edge of a cell with its segments, if it has one.
fn line_of<B: Look, L: Ledger>(
    alloc: Global,
    look: &B,
    edge: &Vector,
    steps: &mut Steps<L>,
) -> Result<Option<SegmentedLine>, AllocError>
    ensures line { IfOk result (λ line. line ≡ spec_line_of (B.cell look.now) edge.now) }
    ensures steps { steps.new ≤ steps.old + 2 }
    ensures counted { steps.old ≤ steps.new }
{
    let begins = line_end(look, BEGINNING_NODE, edge, steps);
    let ends = line_end(look, END_NODE, edge, steps);
    match (begins, ends) {
        (Some(begins), Some(ends)) => {
            let line = SegmentedLine::between(alloc, begins, edge.plane.as_slice(), ends)?;
            Ok(Some(line))
        }
        _ => Ok(None),
    }
}

/// The line of the name whose record is `part`, if that is an edge and has one.
fn line_of_part<B: Look, L: Ledger>(
    alloc: Global,
    look: &B,
    part: &Vector,
    steps: &mut Steps<L>,
) -> Result<Option<SegmentedLine>, AllocError>
    ensures line { (n : SpecRecName) → lookup_record (B.cell look.now) n ≡ Some (SpecV part.now)
        → IfOk result (λ line. line ≡ edge_line_of (B.cell look.now) n) }
    ensures steps { steps.new ≤ steps.old + 2 }
    ensures counted { steps.old ≤ steps.new }
{
    if !is_edge(part) {
        return Ok(None);
    }
    line_of(alloc, look, part, steps)
}

/// The least box around a position, if there is one.
fn box_of_place(place: Option<Point>) -> Option<Box4>
    ensures { result ≡ line_box (enumerate_from 1 (map (λ (p : SpecPoint). (p, p)) (option_to_list place))) }
{
    match place {
        Some(place) => box_of_line(&[(1, (place, place))]),
        None => None,
    }
}

impl<'a> ChainPart<'a> {
    /// The connected node or the edge of a name.
    ///
    /// It makes at most three look-ups: the name's, and those of an edge's two ends. An `Err` means out of memory.
    pub fn find<B: Look, L: Ledger>(
        alloc: Global,
        look: &'a B,
        name: RecName,
        steps: &mut Steps<L>,
    ) -> Result<ChainPart<'a>, AllocError>
        requires { IsTrue (is_chain_part (B.cell look.now) name) }
        ensures part { IfOk result (IsPart (B.cell look.now)) }
        ensures named { IfOk result (λ part. part.name ≡ name) }
        ensures steps { steps.new ≤ steps.old + 3 }
        ensures counted { steps.old ≤ steps.new }
    {
        let record = record_of(look, name, steps);
        let line = line_of_part(alloc, look, record, steps)?;
        Ok(ChainPart { name, record, line })
    }

    /// Its name.
    pub fn name(&self) -> RecName
        ensures { result ≡ self.now.name }
    {
        self.name
    }

    /// The least box around its points: the position of a connected node that has exactly one, or the line of an edge.
    pub fn extent(&self) -> Option<Box4>
        ensures { (c : SpecCell) → IsPart c self.now → result ≡ extent_at c self.now.name }
    {
        match &self.line {
            Some(line) => line.around(),
            None => box_of_place(position_of(self.record)),
        }
    }
}

pub(crate) fn is_edge(part: &Vector) -> bool
    ensures { result ≡ is_edge_name part.now.name }
{
    part.name.kind == Kind::Ve
}

/// The position of a connected node that has exactly one.
pub(crate) fn position_of(part: &Vector) -> Option<Point>
    ensures { (c : SpecCell) (n : SpecRecName) → lookup_record c n ≡ Some (SpecV part.now) → result ≡ node_position c n }
{
    if part.name.kind != Kind::Vc {
        return None;
    }
    match part.plane.as_slice() {
        [place] => Some(*place),
        _ => None,
    }
}

/// Whether an edge's ends name a node, whatever their topology indicators.
pub(crate) fn names_node(edge: &Vector, name: RecName) -> bool
    ensures { result ≡ spec_names_node edge.now name }
{
    for end in edge.ends.as_slice() {
        if name == end.to {
            return true;
        }
    }
    false
}

/// The part of a name at a place.
fn named_at<'a, 'b>(
    parts: &'b [ChainPart<'a>],
    place: usize,
    name: RecName,
) -> Option<&'b ChainPart<'a>>
    ensures named { IfSome result (λ part. part.now.name ≡ name) }
    ensures held { (c : SpecCell) → All (IsPart c) parts.now → IfSome result (λ part. IsPart c part.now) }
{
    match parts.get(place) {
        Some(part) if part.name == name => Some(part),
        _ => None,
    }
}

/// The part of a name among parts in the order of their names. Among parts in another order it may miss one.
pub fn part_named<'a, 'b>(parts: &'b [ChainPart<'a>], name: RecName) -> Option<&'b ChainPart<'a>>
    ensures named { IfSome result (λ part. part.now.name ≡ name) }
    ensures held { (c : SpecCell) → All (IsPart c) parts.now → IfSome result (λ part. IsPart c part.now) }
{
    named_at(parts, parts.partition_point(|part| part.name < name), name)
}
