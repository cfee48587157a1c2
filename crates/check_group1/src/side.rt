//! The check of the two sides of an edge.

ghost use Rattle.std.specs.Prelude.{◌≡◌, ◌+◌, ◌*◌, ◌≤◌, IfOk, List, is_some, length, true};
ghost use Rattle.s57_types.specs.declared.cell.Cell.{Cell as SpecCell};
ghost use Rattle.cell_spec.specs.{declared.key.Key.{Key as SpecKey}, declared.key.Key.TheVariants.{Name as KeyName}};
ghost use Rattle.cell_spec.specs.{declared.key.Subject.TheVariants.{Side as SubjectSide}, Lookup.{lookup_pointers}};
ghost use Rattle.near_records.specs.Near.{has_key};
ghost use Rattle.rule_spec.specs.{Findings.{findings_of_subject}, Reads.{read_set}, Records.{edge_named}};

use crate::finding::side_findings;
use crate::uses::uses_of;
use cell_spec::{Finding, Key, Keys, Ref, Row, Subject, ascending_keys};
use chain_topo::{ListLook, Look, Steps};
use near_records::{Near, gather};
use s57_types::{Items, Kind, Rec, RecName};
use std::alloc::{AllocError, Global};
use std::sync::ledger::Ledger;

/// The read set of a side: the edge, the pointers to it, and the records that have them.
#[tactic(auto, unfolding(rule_spec::specs::Reads::read_set))]
fn side_reads(alloc: Global, name: RecName, pointers: &[Ref]) -> Result<Keys, AllocError>
    ensures { (c : SpecCell) → pointers.now ≡ lookup_pointers c name → IfOk result (λ keys. keys ≡ read_set c (SubjectSide name)) }
{
    let mut keys = Vec::new(alloc);
    keys.push(Key::Name(name))?;
    keys.push(Key::Refs(name))?;
    for pointer in pointers {
        keys.push(Key::Name(pointer.from))?;
    }
    Ok(ascending_keys(keys))
}

/// Whether a cell has an edge of a name that is near.
fn is_edge<N: Near>(near: &N, name: RecName) -> bool
    ensures { (c : SpecCell) (keys : List SpecKey) → N.tells near.now c keys → has_key keys (KeyName name) ≡ true → result ≡ is_some (edge_named c name) }
{
    match near.record(name) {
        Some(Rec::V(edge)) => edge.name.kind == Kind::Ve,
        _ => false,
    }
}

/// The findings about a side, where what the cell answers to its read set is near and `pointers` are those to the edge; none where the name is
/// no edge's.
fn findings_near<N: Near>(
    alloc: Global,
    near: &N,
    name: RecName,
    pointers: &[Ref],
) -> Result<Vec<Finding>, AllocError>
    ensures { (c : SpecCell) (keys : List SpecKey) → N.tells near.now c keys → keys ≡ read_set c (SubjectSide name) → pointers.now ≡ lookup_pointers c name
        → IfOk result (λ findings. findings.items ≡ findings_of_subject c (SubjectSide name)) }
{
    if !is_edge(near, name) {
        return Ok(Vec::new(alloc));
    }
    let uses = uses_of(alloc, near, pointers)?;
    side_findings(alloc, &uses)
}

/// The findings about the two sides of an edge of a cell that is looked into, as `verdict_side` gives them. Their read set isn't made, and no
/// look-up is counted.
///
/// An `Err` means out of memory.
pub fn findings_of_side(
    alloc: Global,
    look: &ListLook,
    name: RecName,
) -> Result<Vec<Finding>, AllocError>
    ensures { IfOk result (λ findings. findings.items ≡ findings_of_subject look.now (SubjectSide name)) }
{
    findings_near(alloc, look, name, look.find_pointers(name))
}

/// The findings about the two sides of an edge, ascending by kind and numbers, and their read set: the edge, the pointers
/// to it and the records that have them. The kinds are Orphan, SideOverlap, SideUnbalanced and FalseTruncation. A name
/// that no edge has gives no finding.
///
/// It makes at most four look-ups for each key of the read set; each record that points to the edge is looked up once. An
/// `Err` means out of memory.
#[tactic(auto, using(crate::proofs::SideRows::some_side_key))]
pub fn verdict_side<B: Look, L: Ledger>(
    alloc: Global,
    look: &B,
    name: RecName,
    steps: &mut Steps<L>,
) -> Result<Row, AllocError>
    ensures subject { IfOk result (λ row. row.subject ≡ SubjectSide name) }
    ensures findings { IfOk result (λ row. row.findings ≡ findings_of_subject (B.cell look.now) (SubjectSide name)) }
    ensures reads { IfOk result (λ row. row.reads ≡ read_set (B.cell look.now) (SubjectSide name)) }
    ensures steps { steps.new ≤ steps.old + 4 * length (read_set (B.cell look.now) (SubjectSide name)) }
{
    let pointers = look.refs(name, steps);
    let reads = side_reads(alloc, name, pointers)?;
    let near = gather(alloc, look, reads.as_slice(), steps)?;
    let findings = findings_near(alloc, &near, name, pointers)?;
    Ok(Row {
        subject: Subject::Side(name),
        findings: Items::of_vec(findings),
        reads,
    })
}
