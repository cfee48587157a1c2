//! The geometry of a vector record, and pointers that a node doesn't have.

ghost use Rattle.std.specs.Prelude.{◌≡◌, ◌++◌, OnOk, map};
ghost use Rattle.s57_types.specs.declared.cell.Cell.{Cell as SpecCell};
ghost use Rattle.rule_spec.specs.declared.kind.TheConstants.{BAD_SHAPE, NODE_POINTER};
ghost use Rattle.rule_spec.specs.Findings.{finding};
ghost use Rattle.rule_spec.specs.Vectors.{bad_shape, has_its_shape as spec_shape, node_pointer};

use cell_spec::Finding;
use rule_spec::{BAD_SHAPE, NODE_POINTER};
use s57_types::{Kind, Vector};
use std::alloc::AllocError;

fn has_its_shape(vector: &Vector) -> bool
    ensures { result ≡ spec_shape vector.now }
{
    let positions = vector.plane.len();
    let soundings = vector.deep.len();
    match vector.name.kind {
        Kind::Vi => (positions == 1 && soundings == 0) || (positions == 0 && 0 < soundings),
        Kind::Vc => positions == 1 && soundings == 0,
        _ => soundings == 0,
    }
}

/// BadShape: appends its finding about a vector record.
pub(crate) fn push_bad_shape(findings: &mut Vec<Finding>, vector: &Vector) -> Result<(), AllocError>
    ensures { (c : SpecCell) → OnOk result (findings.new.items ≡ findings.old.items ++ map (finding BAD_SHAPE) (bad_shape c vector.now)) }
{
    if !has_its_shape(vector) {
        findings.push(Finding {
            kind: BAD_SHAPE,
            nums: [0; 4],
        })?;
    }
    Ok(())
}

/// NodePointer: appends its finding about a node.
pub(crate) fn push_node_pointer(
    findings: &mut Vec<Finding>,
    node: &Vector,
) -> Result<(), AllocError>
    ensures { (c : SpecCell) → OnOk result (findings.new.items ≡ findings.old.items ++ map (finding NODE_POINTER) (node_pointer c node.now)) }
{
    if !node.ends.is_empty() {
        findings.push(Finding {
            kind: NODE_POINTER,
            nums: [0; 4],
        })?;
    }
    Ok(())
}
