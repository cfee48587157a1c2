//! Segments of an edge that meet one another.

ghost use Rattle.std.specs.Prelude.{◌≡◌, ◌++◌, All, None, OnOk, find, map};
ghost use Rattle.rule_spec.specs.declared.kind.TheConstants.{SELF_MEET};
ghost use Rattle.rule_spec.specs.Findings.{finding};
ghost use Rattle.rule_spec.specs.Vectors.{is_bad_meeting as spec_bad_meeting, is_closed_line as spec_closed, meets_wrongly as spec_meets_wrongly};
ghost use Rattle.rule_spec.specs.Vectors.{first_wrong_meeting as spec_first_wrong, found_pair as spec_found_pair, self_meet_of};
ghost use Rattle.rule_spec.specs.Vectors.{stacked_segment as spec_stacked_segment};
ghost use Rattle.check_record.specs.Blocks.{IsBoxed, segments_in};

use crate::blocks::{Block, blocks_of};
use cell_spec::Finding;
use check_words::{Numbered, number, numbered, same_point, segments_of};
use geo_exact::meeting;
use geometry_spec::{MeetCase, Point};
use line_boxes::{are_disjoint, box_of_segment};
use rule_spec::SELF_MEET;
use std::alloc::{AllocError, Global};

fn is_bad_meeting(neighbours: bool, closing: bool, case: MeetCase) -> bool
    ensures { result ≡ spec_bad_meeting neighbours closing case }
{
    match case {
        MeetCase::Apart => false,
        MeetCase::At => !neighbours && !closing,
        MeetCase::Along => true,
    }
}

fn is_closed_line(points: &[Point]) -> bool
    ensures { result ≡ spec_closed points.now }
{
    match points {
        [] => false,
        [first, ..] => same_point(*first, points[points.len() - 1]),
    }
}

/// Whether the first of two numbered segments stands before the second and meets it as it may not.
fn meets_wrongly(closed: bool, count: usize, a: Numbered, b: Numbered) -> bool
    ensures { result ≡ spec_meets_wrongly closed count (a, b) }
{
    if b.0 <= a.0 {
        return false;
    }
    let closing = closed && a.0 == 1 && b.0 == count;
    is_bad_meeting(b.0 - a.0 == 1, closing, meeting(a.1.0, a.1.1, b.1.0, b.1.1))
}

fn first_in_row(
    closed: bool,
    count: usize,
    a: Numbered,
    row: &[Numbered],
) -> Option<(Numbered, Numbered)>
    ensures { result ≡ find (spec_meets_wrongly closed count) (map (λ b. (a, b)) row.now) }
{
    for b in row {
        if meets_wrongly(closed, count, a, *b) {
            return Some((a, *b));
        }
    }
    None
}

/// The same for a block of segments. Those of a block whose box is disjoint from the segment's are apart from it.
fn first_in_block(
    closed: bool,
    count: usize,
    a: Numbered,
    block: &Block,
) -> Option<(Numbered, Numbered)>
    requires { IsBoxed block.now }
    ensures { result ≡ find (spec_meets_wrongly closed count) (map (λ b. (a, b)) block.now.segments.now) }
{
    if are_disjoint(box_of_segment(a), block.around) {
        return None;
    }
    first_in_row(closed, count, a, block.segments)
}

fn first_in_blocks(
    closed: bool,
    count: usize,
    a: Numbered,
    blocks: &[Block],
) -> Option<(Numbered, Numbered)>
    requires { All IsBoxed blocks.now }
    ensures { result ≡ find (spec_meets_wrongly closed count) (map (λ b. (a, b)) (segments_in blocks.now)) }
{
    for block in blocks {
        if let Some(pair) = first_in_block(closed, count, a, block) {
            return Some(pair);
        }
    }
    None
}

/// The least two segments that meet as they may not, by the number of the first, then of the second.
fn first_wrong_meeting(
    closed: bool,
    segments: &[Numbered],
    blocks: &[Block],
) -> Option<(Numbered, Numbered)>
    requires boxed { All IsBoxed blocks.now }
    requires segments { segments_in blocks.now ≡ segments.now }
    ensures { result ≡ spec_first_wrong closed segments.now }
{
    for a in segments {
        if let Some(pair) = first_in_blocks(closed, segments.len(), *a, blocks) {
            return Some(pair);
        }
    }
    None
}

fn push_pair(
    findings: &mut Vec<Finding>,
    pair: Option<(Numbered, Numbered)>,
) -> Result<(), AllocError>
    ensures { OnOk result (findings.new.items ≡ findings.old.items ++ map (finding SELF_MEET) (spec_found_pair pair)) }
{
    if let Some((a, b)) = pair {
        let first = number(a.0)?;
        let second = number(b.0)?;
        findings.push(Finding {
            kind: SELF_MEET,
            nums: [first, second, 0, 0],
        })?;
    }
    Ok(())
}

/// SelfMeet: appends its finding about the points of an edge, none of which are stacked. One segment meets no other.
pub(crate) fn push_self_meet(
    alloc: Global,
    findings: &mut Vec<Finding>,
    points: &[Point],
) -> Result<(), AllocError>
    requires { spec_stacked_segment points.now ≡ None }
    ensures { OnOk result (findings.new.items ≡ findings.old.items ++ map (finding SELF_MEET) (self_meet_of points.now)) }
{
    if points.len() <= 2 {
        return Ok(());
    }
    let segments = segments_of(alloc, points)?;
    let segments = numbered(alloc, &segments)?;
    let blocks = blocks_of(alloc, &segments)?;
    let pair = first_wrong_meeting(is_closed_line(points), &segments, &blocks);
    push_pair(findings, pair)
}
