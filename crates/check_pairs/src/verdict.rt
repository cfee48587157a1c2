//! The verdict on two connected nodes or edges.

ghost use Rattle.std.specs.Prelude.{◌≡◌, ◌≤◌, ◌+◌, ◌*◌, IsTrue, IfOk, length, true};
ghost use Rattle.s57_types.specs.declared.cell.Cell.{Cell as SpecCell};
ghost use Rattle.cell_spec.specs.declared.key.Subject.TheVariants.{Pair as SpecPair};
ghost use Rattle.finding_laws.specs.Pairs.{are_apart as spec_are_apart};
ghost use Rattle.rule_spec.specs.Affected.{exact_row};
ghost use Rattle.rule_spec.specs.Findings.{is_subject, findings_of_subject};
ghost use Rattle.rule_spec.specs.Reads.{read_set};
ghost use Rattle.check_pairs.specs.Parts.{IsPart};

use crate::finding::{edge_pair, node_and_edge, node_pair};
use crate::part::{ChainPart, is_edge};
use crate::reads::pair_keys;
use cell_spec::{Finding, Row, Subject};
use chain_topo::{Look, Steps};
use finding_laws::apart_pairs_are_clean;
use geometry_spec::Box4;
use line_boxes::are_disjoint;
use s57_types::{Items, RecName};
use std::alloc::{AllocError, Global};
use std::sync::ledger::Ledger;

/// The findings about two connected nodes or edges of a cell, the lesser name first, as `verdict_pair` tells them.
///
/// An `Err` means out of memory.
pub fn pair_findings(
    alloc: Global,
    a: &ChainPart,
    b: &ChainPart,
) -> Result<Vec<Finding>, AllocError>
    ensures { (c : SpecCell) → IsPart c a.now → IsPart c b.now → is_subject c (SpecPair a.now.name b.now.name) ≡ true
        → IfOk result (λ findings. findings.items ≡ findings_of_subject c (SpecPair a.now.name b.now.name)) }
{
    match (is_edge(a.record), is_edge(b.record)) {
        (true, true) => edge_pair(alloc, a, b),
        (false, true) => node_and_edge(alloc, a, b),
        (false, false) => node_pair(alloc, a.record, b.record),
        (true, false) => Ok(Vec::new(alloc)),
    }
}

/// Whether two boxes have no point in common. What has no box has none.
fn are_apart(a: Option<Box4>, b: Option<Box4>) -> bool
    ensures { result ≡ spec_are_apart a b }
{
    match (a, b) {
        (Some(a), Some(b)) => are_disjoint(a, b),
        _ => true,
    }
}

/// The same findings. Two whose boxes have no point in common have none, and aren't looked at.
fn near_findings(alloc: Global, a: &ChainPart, b: &ChainPart) -> Result<Vec<Finding>, AllocError>
    ensures { (c : SpecCell) → IsPart c a.now → IsPart c b.now → is_subject c (SpecPair a.now.name b.now.name) ≡ true
        → IfOk result (λ findings. findings.items ≡ findings_of_subject c (SpecPair a.now.name b.now.name)) }
{
    apart_pairs_are_clean();
    if are_apart(a.extent(), b.extent()) {
        return Ok(Vec::new(alloc));
    }
    pair_findings(alloc, a, b)
}

/// The row of two connected nodes or edges of a cell, the lesser name first, as `verdict_pair` tells it: nothing is looked up.
///
/// An `Err` means out of memory.
pub fn pair_row(alloc: Global, a: &ChainPart, b: &ChainPart) -> Result<Row, AllocError>
    ensures { (c : SpecCell) → IsPart c a.now → IsPart c b.now → is_subject c (SpecPair a.now.name b.now.name) ≡ true
        → IfOk result (λ row. row ≡ exact_row c (SpecPair a.now.name b.now.name)) }
{
    let reads = pair_keys(alloc, a, b)?;
    let findings = near_findings(alloc, a, b)?;
    Ok(Row {
        subject: Subject::Pair(a.name, b.name),
        findings: Items::of_vec(findings),
        reads,
    })
}

/// The row of two connected nodes or edges of a cell, the lesser name first: its findings and its read set, which is
/// that of both records.
///
/// Two edges with points Cross, Touch or Coincide by the first illegal contact of their segments, in the order of the
/// numbers on the first edge, then on the second; they may meet at the place of a connected node that both name as a
/// beginning or end node (S-57 Part 2, 2.2.1.2). Two nodes with one position each are at SamePlace. A node with one
/// position is NodeOnEdge by the first segment of an edge whose ends don't name it.
///
/// It makes at most four look-ups for each key of the read set. An `Err` means out of memory.
pub fn verdict_pair<B: Look, L: Ledger>(
    alloc: Global,
    look: &B,
    a: RecName,
    b: RecName,
    steps: &mut Steps<L>,
) -> Result<Row, AllocError>
    requires { IsTrue (is_subject (B.cell look.now) (SpecPair a b)) }
    ensures subject { IfOk result (λ row. row.subject ≡ SpecPair a b) }
    ensures findings { IfOk result (λ row. row.findings ≡ findings_of_subject (B.cell look.now) (SpecPair a b)) }
    ensures reads { IfOk result (λ row. row.reads ≡ read_set (B.cell look.now) (SpecPair a b)) }
    ensures steps { steps.new ≤ steps.old + 4 * length (read_set (B.cell look.now) (SpecPair a b)) }
    ensures counted { steps.old ≤ steps.new }
{
    let first = ChainPart::find(alloc, look, a, steps)?;
    let second = ChainPart::find(alloc, look, b, steps)?;
    pair_row(alloc, &first, &second)
}
