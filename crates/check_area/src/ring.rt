//! What is found of the loops that the parts of a boundary make.

ghost use Rattle.std.specs.Prelude.{◌≡◌, ◌++◌, ◌∷◌, [], IfOk, OnOk, map, filter, length};
ghost use Rattle.rule_spec.specs.declared.kind.TheConstants.{MIXED_RING, OPEN_RING, OUTER_COUNT, WRONG_TURN};
ghost use Rattle.rule_spec.specs.Boundary.{none_interior};
ghost use Rattle.rule_spec.specs.Findings.{finding};
ghost use Rattle.rule_spec.specs.Loops.{blocks_of};
ghost use Rattle.ring_build.specs.Partition.{length_of_block};
ghost use Rattle.check_area.specs.Parts.{arc_of_part, exterior_count as spec_exterior_count, findings_of_loops, findings_of_parts};
ghost use Rattle.check_area.specs.Parts.{mixed_loops, place_of_loop, usage_of_part, wrong_loops};

use crate::part::{BoundaryEdge, is_exterior, is_mixed, turns_wrongly};
use cell_spec::Finding;
use check_words::number;
use ring_build::{Block, RingCut, block_length, cut, split_loop};
use rule_spec::{MIXED_RING, OPEN_RING, OUTER_COUNT, WRONG_TURN};
use s57_types::RecName;
use std::alloc::{AllocError, Global};

fn arcs_of(alloc: Global, parts: &[BoundaryEdge]) -> Result<Vec<(RecName, RecName)>, AllocError>
    ensures { IfOk result (λ arcs. arcs.items ≡ map arc_of_part parts.now) }
{
    parts
        .iter()
        .map(|part| (part.sweep.begins, part.sweep.ends))
        .collect(alloc)
}

/// The lengths of loops that stand one after the other.
fn lengths_of(alloc: Global, blocks: &[Block]) -> Result<Vec<usize>, AllocError>
    ensures { IfOk result (λ lengths. lengths.items ≡ map length_of_block blocks.now) }
{
    blocks
        .iter()
        .map(|block| block_length(*block))
        .collect(alloc)
}

/// Appends a finding of a kind about a loop, by its first place.
fn push_loop(
    findings: &mut Vec<Finding>,
    kind: u8,
    parts: &[BoundaryEdge],
) -> Result<(), AllocError>
    ensures { OnOk result (findings.new.items ≡ findings.old.items ++ finding kind (place_of_loop parts.now) ∷ []) }
{
    let place = match parts {
        [] => 0,
        [part, ..] => part.place,
    };
    findings.push(Finding {
        kind,
        nums: [place, 0, 0, 0],
    })?;
    Ok(())
}

/// MixedRing: appends its findings about loops of these lengths.
fn push_mixed(
    findings: &mut Vec<Finding>,
    lengths: &[usize],
    parts: &[BoundaryEdge],
) -> Result<(), AllocError>
    ensures { OnOk result (findings.new.items ≡ findings.old.items ++ map (finding MIXED_RING) (mixed_loops (blocks_of lengths.now parts.now))) }
{
    let mut rest = parts;
    for n in lengths {
        let (front, after) = split_loop(rest, *n);
        rest = after;
        if is_mixed(front) {
            push_loop(findings, MIXED_RING, front)?;
        }
    }
    Ok(())
}

fn exterior_count(lengths: &[usize], parts: &[BoundaryEdge]) -> usize
    ensures { result ≡ length (filter (none_interior usage_of_part) (blocks_of lengths.now parts.now)) }
{
    let mut count = 0usize;
    let mut rest = parts;
    for n in lengths {
        let (front, after) = split_loop(rest, *n);
        rest = after;
        if is_exterior(front) {
            count += 1;
        }
    }
    count
}

/// OuterCount: appends its finding about loops of these lengths.
fn push_outer_count(
    findings: &mut Vec<Finding>,
    lengths: &[usize],
    parts: &[BoundaryEdge],
) -> Result<(), AllocError>
    ensures { OnOk result (findings.new.items ≡ findings.old.items ++ map (finding OUTER_COUNT) (spec_exterior_count (blocks_of lengths.now parts.now))) }
{
    let outer = number(exterior_count(lengths, parts))?;
    if outer != 1 {
        findings.push(Finding {
            kind: OUTER_COUNT,
            nums: [outer, 0, 0, 0],
        })?;
    }
    Ok(())
}

/// WrongTurn: appends its findings about loops of these lengths.
fn push_wrong_turns(
    findings: &mut Vec<Finding>,
    lengths: &[usize],
    parts: &[BoundaryEdge],
) -> Result<(), AllocError>
    ensures { OnOk result (findings.new.items ≡ findings.old.items ++ map (finding WRONG_TURN) (wrong_loops (blocks_of lengths.now parts.now))) }
{
    let mut rest = parts;
    for n in lengths {
        let (front, after) = split_loop(rest, *n);
        rest = after;
        if turns_wrongly(front)? {
            push_loop(findings, WRONG_TURN, front)?;
        }
    }
    Ok(())
}

/// MixedRing, or where no loop is mixed OuterCount and WrongTurn, of loops of these lengths.
fn loop_findings(
    alloc: Global,
    lengths: &[usize],
    parts: &[BoundaryEdge],
) -> Result<Vec<Finding>, AllocError>
    ensures { IfOk result (λ findings. findings.items ≡ findings_of_loops (blocks_of lengths.now parts.now)) }
{
    let mut findings = Vec::new(alloc);
    push_mixed(&mut findings, lengths, parts)?;
    if !findings.is_empty() {
        return Ok(findings);
    }
    push_outer_count(&mut findings, lengths, parts)?;
    push_wrong_turns(&mut findings, lengths, parts)?;
    Ok(findings)
}

fn open_ring(alloc: Global, place: u32) -> Result<Vec<Finding>, AllocError>
    ensures { IfOk result (λ findings. findings.items ≡ finding OPEN_RING (place ∷ []) ∷ []) }
{
    let mut findings = Vec::new(alloc);
    findings.push(Finding {
        kind: OPEN_RING,
        nums: [place, 0, 0, 0],
    })?;
    Ok(findings)
}

/// OpenRing, or what is found of the closed loops that the parts make one after the other.
///
/// An `Err` means out of memory.
pub(crate) fn ring_findings(
    alloc: Global,
    parts: &[BoundaryEdge],
) -> Result<Vec<Finding>, AllocError>
    ensures { IfOk result (λ findings. findings.items ≡ findings_of_parts parts.now) }
{
    let arcs = arcs_of(alloc, parts)?;
    let _count = number(arcs.len())?;
    match cut(alloc, &arcs)? {
        RingCut::OpenAt(place) => open_ring(alloc, place),
        RingCut::Whole(blocks) => {
            let lengths = lengths_of(alloc, blocks.as_slice())?;
            loop_findings(alloc, &lengths, parts)
        }
    }
}
