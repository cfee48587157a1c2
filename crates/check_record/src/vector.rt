//! The findings about a node or an edge.

ghost use Rattle.std.specs.Prelude.{◌≡◌, IfOk, List, Some, false, true};
ghost use Rattle.std.specs.List.{All};
ghost use Rattle.s57_types.specs.{declared.cell.Cell.{Cell as SpecCell}, declared.name.RecName.{RecName as SpecName}, declared.record.End.{End as SpecEnd}};
ghost use Rattle.s57_types.specs.declared.record.Rec.TheVariants.{V};
ghost use Rattle.cell_spec.specs.{declared.key.Key.{Key as SpecKey}, declared.key.Key.TheVariants.{Name as KeyName}};
ghost use Rattle.cell_spec.specs.{declared.key.Subject.TheVariants.{Rec as SubjectRec}, Lookup.{lookup_record}};
ghost use Rattle.near_records.specs.Near.{has_key};
ghost use Rattle.rule_spec.specs.{Findings.{findings_of_record}, Reads.{read_set}, Records.{is_edge_name, is_node_name}};

use crate::ends::push_end_count;
use crate::line::{line_of, push_line_findings};
use crate::shape::{push_bad_shape, push_node_pointer};
use cell_spec::Finding;
use check_feature::push_dangling;
use near_records::Near;
use rule_spec::DANGLING_END;
use s57_types::{Kind, Vector};
use std::alloc::{AllocError, Global};

/// Findings, or out of memory.
type Found = Result<Vec<Finding>, AllocError>;

/// The findings about a node.
fn node_findings(alloc: Global, node: &Vector) -> Found
    requires kind { is_node_name node.now.name ≡ true }
    ensures { (c : SpecCell) → IfOk result (λ findings. findings.items ≡ findings_of_record c (V node.now)) }
{
    let mut findings = Vec::new(alloc);
    push_bad_shape(&mut findings, node)?;
    push_node_pointer(&mut findings, node)?;
    Ok(findings)
}

/// The findings about a vector record that is neither a node nor an edge by its name.
fn shape_findings(alloc: Global, vector: &Vector) -> Found
    requires node { is_node_name vector.now.name ≡ false }
    requires edge { is_edge_name vector.now.name ≡ false }
    ensures { (c : SpecCell) → IfOk result (λ findings. findings.items ≡ findings_of_record c (V vector.now)) }
{
    let mut findings = Vec::new(alloc);
    push_bad_shape(&mut findings, vector)?;
    Ok(findings)
}

/// The findings about an edge, where what its ends name is near.
fn edge_findings<N: Near>(alloc: Global, near: &N, edge: &Vector) -> Found
    requires kind { is_edge_name edge.now.name ≡ true }
    ensures { (c : SpecCell) (keys : List SpecKey) → N.tells near.now c keys → All (λ (e : SpecEnd). has_key keys (KeyName e.to) ≡ true) edge.now.ends
        → IfOk result (λ findings. findings.items ≡ findings_of_record c (V edge.now)) }
{
    let line = line_of(alloc, near, edge)?;
    let mut findings = Vec::new(alloc);
    push_bad_shape(&mut findings, edge)?;
    push_end_count(&mut findings, edge)?;
    push_dangling(&mut findings, DANGLING_END, near, edge.ends.as_slice())?;
    push_line_findings(alloc, &mut findings, line.as_ref())?;
    Ok(findings)
}

/// The findings about a vector record. Those about a node are by its shape alone; for an edge, what the cell answers to its read set is near.
pub(crate) fn vector_findings<N: Near>(alloc: Global, near: &N, vector: &Vector) -> Found
    ensures { (c : SpecCell) (n : SpecName) (keys : List SpecKey) → (is_edge_name vector.now.name ≡ true → N.tells near.now c keys)
        → keys ≡ read_set c (SubjectRec n) → lookup_record c n ≡ Some (V vector.now)
        → IfOk result (λ findings. findings.items ≡ findings_of_record c (V vector.now)) }
{
    match vector.name.kind {
        Kind::Ve => edge_findings(alloc, near, vector),
        Kind::Vi | Kind::Vc => node_findings(alloc, vector),
        Kind::Fe | Kind::Head => shape_findings(alloc, vector),
    }
}
