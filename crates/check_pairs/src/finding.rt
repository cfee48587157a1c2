//! The findings about two edges, two nodes, or a node and an edge.

ghost use Rattle.std.specs.Prelude.{◌≡◌, ◌++◌, IfOk, OnOk, Some, map};
ghost use Rattle.std.specs.List.{position_from};
ghost use Rattle.s57_types.specs.declared.cell.Cell.{Cell as SpecCell};
ghost use Rattle.s57_types.specs.declared.name.RecName.{RecName as SpecRecName};
ghost use Rattle.s57_types.specs.declared.record.Rec.TheVariants.{V as SpecV};
ghost use Rattle.cell_spec.specs.Lookup.{lookup_record};
ghost use Rattle.rule_spec.specs.declared.kind.TheConstants.{NODE_ON_EDGE, SAME_PLACE};
ghost use Rattle.rule_spec.specs.Contacts.{is_on as spec_is_on, touch_at_an_end as spec_touch, kind_of_contact as spec_kind};
ghost use Rattle.rule_spec.specs.Contacts.{are_same_place as spec_same, same_place, segment_under, node_on_edge};
ghost use Rattle.rule_spec.specs.Findings.{finding};
ghost use Rattle.rule_spec.specs.Records.{edge_named};
ghost use Rattle.rule_spec.specs.Vectors.{Numbered as SpecNumbered};
ghost use Rattle.check_pairs.specs.Contacts.{contact_findings, edge_contacts};
ghost use Rattle.check_pairs.specs.Parts.{IsPart};
ghost use Rattle.check_pairs.specs.SharedPlaces.{first_contact as first_contact_of, shared_places};

use crate::contact::{first_contact, is_on, meeting_of_segments};
use crate::line::SegmentedLine;
use crate::part::{ChainPart, names_node, position_of};
use cell_spec::Finding;
use check_words::{Numbered, Segment, number, same_point};
use geometry_spec::{MeetCase, Point};
use rule_spec::{COINCIDE, CROSS, NODE_ON_EDGE, SAME_PLACE, TOUCH};
use s57_types::Vector;
use std::alloc::{AllocError, Global};

fn touch_at_an_end(s: Segment, t: Segment) -> bool
    ensures { result ≡ spec_touch s t }
{
    (is_on(t, s.0) || is_on(t, s.1)) || (is_on(s, t.0) || is_on(s, t.1))
}

/// The number of the kind of a contact, 0 where there is none.
fn kind_of_contact(s: Segment, t: Segment, case: MeetCase) -> u8
    ensures { result ≡ spec_kind s t case }
{
    match case {
        MeetCase::Apart => 0,
        MeetCase::At => { if touch_at_an_end(s, t) { TOUCH } else { CROSS } }
        MeetCase::Along => COINCIDE,
    }
}

fn push_contact(findings: &mut Vec<Finding>, a: Numbered, b: Numbered) -> Result<(), AllocError>
    ensures { OnOk result (findings.new.items ≡ findings.old.items ++ contact_findings (Some (a, b))) }
{
    let kind = kind_of_contact(a.1, b.1, meeting_of_segments(a.1, b.1));
    if kind != 0 {
        let nums = [number(a.0)?, number(b.0)?, 0, 0];
        findings.push(Finding { kind, nums })?;
    }
    Ok(())
}

/// The findings about two lines: Cross, Touch or Coincide by their first illegal contact.
fn line_pair(
    alloc: Global,
    first: &SegmentedLine,
    second: &SegmentedLine,
) -> Result<Vec<Finding>, AllocError>
    ensures { IfOk result (λ findings. findings.items ≡ contact_findings (first_contact_of (shared_places first.now second.now) first.now second.now)) }
{
    let mut findings = Vec::new(alloc);
    if let Some((s, t)) = first_contact(first, second) {
        push_contact(&mut findings, s, t)?;
    }
    Ok(findings)
}

/// The findings about two edges: those about their lines, if both have one.
pub(crate) fn edge_pair(
    alloc: Global,
    a: &ChainPart,
    b: &ChainPart,
) -> Result<Vec<Finding>, AllocError>
    ensures { (c : SpecCell) → IsPart c a.now → IsPart c b.now → IfOk result (λ findings. findings.items ≡ edge_contacts c a.now.name b.now.name) }
{
    match (&a.line, &b.line) {
        (Some(first), Some(second)) => line_pair(alloc, first, second),
        _ => Ok(Vec::new(alloc)),
    }
}

fn are_same_place(p: Option<Point>, q: Option<Point>) -> bool
    ensures { result ≡ spec_same p q }
{
    match (p, q) {
        (Some(p), Some(q)) => same_point(p, q),
        _ => false,
    }
}

/// The findings about two connected nodes: SamePlace.
pub(crate) fn node_pair(
    alloc: Global,
    first: &Vector,
    second: &Vector,
) -> Result<Vec<Finding>, AllocError>
    ensures { (c : SpecCell) (a b : SpecRecName) → lookup_record c a ≡ Some (SpecV first.now) → lookup_record c b ≡ Some (SpecV second.now)
        → IfOk result (λ findings. findings.items ≡ map (finding SAME_PLACE) (same_place c a b)) }
{
    let mut findings = Vec::new(alloc);
    if are_same_place(position_of(first), position_of(second)) {
        findings.push(Finding {
            kind: SAME_PLACE,
            nums: [0, 0, 0, 0],
        })?;
    }
    Ok(findings)
}

fn first_segment_under(w: Point, segments: &[Numbered]) -> Option<usize>
    ensures { result ≡ position_from (λ (s : SpecNumbered). spec_is_on s.1 w) 1 segments.now }
{
    for (k, segment) in segments.iter().enumerate() {
        if is_on(segment.1, w) {
            return Some(k + 1);
        }
    }
    None
}

fn push_segment_under(
    findings: &mut Vec<Finding>,
    w: Point,
    line: &SegmentedLine,
) -> Result<(), AllocError>
    ensures { OnOk result (findings.new.items ≡ findings.old.items ++ map (finding NODE_ON_EDGE) (segment_under (Some w) (Some line.now))) }
{
    if let Some(k) = first_segment_under(w, line.segments()) {
        let nums = [number(k)?, 0, 0, 0];
        findings.push(Finding {
            kind: NODE_ON_EDGE,
            nums,
        })?;
    }
    Ok(())
}

/// The findings about a connected node and an edge: NodeOnEdge by the first segment.
pub(crate) fn node_and_edge(
    alloc: Global,
    a: &ChainPart,
    b: &ChainPart,
) -> Result<Vec<Finding>, AllocError>
    ensures { (c : SpecCell) → IsPart c a.now → IsPart c b.now → edge_named c b.now.name ≡ Some b.now.record.now
        → IfOk result (λ findings. findings.items ≡ map (finding NODE_ON_EDGE) (node_on_edge c a.now.name b.now.name)) }
{
    let mut findings = Vec::new(alloc);
    if names_node(b.record, a.name) {
        return Ok(findings);
    }
    let Some(place) = position_of(a.record) else {
        return Ok(findings);
    };
    let Some(line) = &b.line else {
        return Ok(findings);
    };
    push_segment_under(&mut findings, place, line)?;
    Ok(findings)
}
