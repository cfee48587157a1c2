//! The findings about the two sides of an edge.

ghost use Rattle.std.specs.Prelude.{◌≡◌, ◌==◌, ◌++◌, [], IfOk, OnOk, length, map, not, if◌then◌else◌};
ghost use Rattle.s57_types.specs.declared.cell.Cell.{Cell as SpecCell};
ghost use Rattle.s57_types.specs.declared.name.RecName.{RecName as SpecRecName};
ghost use Rattle.rule_spec.specs.declared.kind.TheConstants.{FALSE_TRUNCATION, ORPHAN, SIDE_OVERLAP, SIDE_UNBALANCED};
ghost use Rattle.rule_spec.specs.Findings.{finding as finding_of, findings_of_rules};
ghost use Rattle.rule_spec.specs.Rule.{found_if};
ghost use Rattle.rule_spec.specs.Rules.{side_rules};
ghost use Rattle.rule_spec.specs.Sides.{found_use, is_balanced as are_balanced, numbers_of as counts_as_numbers};
ghost use Rattle.rule_spec.specs.Sides.{overlaps as do_overlap, uses_of as uses_in};

use crate::uses::{first_truncated, side_counts};
use cell_spec::Finding;
use rule_spec::{EdgeSideCounts, EdgeUse, FALSE_TRUNCATION, ORPHAN, SIDE_OVERLAP, SIDE_UNBALANCED};
use std::alloc::{AllocError, Global};

/// Orphan: no feature uses the edge.
fn push_orphan(findings: &mut Vec<Finding>, uses: &[EdgeUse]) -> Result<(), AllocError>
    ensures { OnOk result (findings.new.items ≡ findings.old.items ++ map (finding_of ORPHAN) (found_if (length uses.now == 0) [])) }
{
    if uses.is_empty() {
        findings.push(Finding {
            kind: ORPHAN,
            nums: [0, 0, 0, 0],
        })?;
    }
    Ok(())
}

fn numbers_of(n: EdgeSideCounts) -> [u32; 4]
    ensures { result ≡ counts_as_numbers n }
{
    [
        n.group1_forward,
        n.group1_reverse,
        n.coverage_forward,
        n.coverage_reverse,
    ]
}

fn overlaps(n: EdgeSideCounts) -> bool
    ensures { result ≡ do_overlap n }
{
    1 < n.group1_forward || 1 < n.group1_reverse
}

/// SideOverlap: two areas of Group 1 lie at one side of the edge.
fn push_overlap(findings: &mut Vec<Finding>, n: EdgeSideCounts) -> Result<(), AllocError>
    ensures { OnOk result (findings.new.items ≡ findings.old.items ++ map (finding_of SIDE_OVERLAP) (found_if (do_overlap n) (counts_as_numbers n))) }
{
    if overlaps(n) {
        findings.push(Finding {
            kind: SIDE_OVERLAP,
            nums: numbers_of(n),
        })?;
    }
    Ok(())
}

fn is_balanced(n: EdgeSideCounts) -> bool
    ensures { result ≡ are_balanced n }
{
    u64::from(n.group1_forward) + u64::from(n.coverage_reverse)
        == u64::from(n.coverage_forward) + u64::from(n.group1_reverse)
}

/// SideUnbalanced: Group 1 and the coverage don't change alike from one side of the edge to the other.
fn push_unbalanced(findings: &mut Vec<Finding>, n: EdgeSideCounts) -> Result<(), AllocError>
    ensures { OnOk result (findings.new.items ≡ findings.old.items ++ map (finding_of SIDE_UNBALANCED)
        (found_if (not (are_balanced n)) (counts_as_numbers n))) }
{
    if !is_balanced(n) {
        findings.push(Finding {
            kind: SIDE_UNBALANCED,
            nums: numbers_of(n),
        })?;
    }
    Ok(())
}

/// FalseTruncation: a boundary is said to be cut off by the data limit where the limit of the coverage isn't.
fn push_truncation(
    findings: &mut Vec<Finding>,
    n: EdgeSideCounts,
    first: Option<EdgeUse>,
) -> Result<(), AllocError>
    ensures { OnOk result (findings.new.items ≡ findings.old.items ++ map (finding_of FALSE_TRUNCATION)
        (if n.coverage_forward == n.coverage_reverse then found_use first else [])) }
{
    if n.coverage_forward != n.coverage_reverse {
        return Ok(());
    }
    match first {
        Some(found) => {
            findings.push(Finding {
                kind: FALSE_TRUNCATION,
                nums: [found.pointer.from.id, found.pointer.place, 0, 0],
            })?;
            Ok(())
        }
        None => Ok(()),
    }
}

/// The findings about the two sides of an edge, by its uses, ascending by kind.
pub(crate) fn side_findings(alloc: Global, uses: &[EdgeUse]) -> Result<Vec<Finding>, AllocError>
    ensures { (c : SpecCell) (n : SpecRecName) → uses.now ≡ uses_in c n
        → IfOk result (λ findings. findings.items ≡ findings_of_rules (λ rule. rule c n) side_rules) }
{
    let n = side_counts(uses)?;
    let first = first_truncated(uses);
    let mut findings = Vec::new(alloc);
    push_orphan(&mut findings, uses)?;
    push_overlap(&mut findings, n)?;
    push_unbalanced(&mut findings, n)?;
    push_truncation(&mut findings, n, first)?;
    Ok(findings)
}
