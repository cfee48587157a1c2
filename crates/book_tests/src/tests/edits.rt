//! Edits of the cell of one square, and their sets.

ghost use Rattle.std.specs.Prelude.{◌≡◌};

use cell_bench::Bench;
use cell_spec::Edit;
use edit_sets::EditSet;
use s57_types::{Attrs, Deep, Ends, Kind, Plane, Rec, RecName, Vector};
use std::alloc::{AllocError, Global};
use std::process::Abort;

/// The name of a connected node.
pub(crate) fn node_name(id: u32) -> RecName {
    RecName { kind: Kind::Vc, id }
}

/// A connected node, of version 2.
pub(crate) fn node(alloc: Global, id: u32, position: (i32, i32)) -> Result<Rec, AllocError> {
    Ok(Rec::V(Vector {
        name: node_name(id),
        rver: 2,
        attrs: Attrs::make(alloc),
        ends: Ends::make(alloc),
        plane: Plane::of_vec(vec![in alloc; position]?),
        deep: Deep::make(alloc),
    }))
}

/// The deletions of connected nodes.
pub(crate) fn deletions(alloc: Global, nodes: &[u32]) -> Result<Vec<Edit>, AllocError> {
    let mut edits = Vec::new(alloc);
    for id in nodes {
        edits.push(Edit::Del(node_name(*id)))?;
    }
    Ok(edits)
}

/// The edit set of edits at the level of a bench.
pub(crate) fn set_for(rt: &impl Abort, alloc: Global, bench: &Bench, edits: &[Edit]) -> EditSet
    ensures { result.nall ≡ bench.now.head.nall }
{
    assert!(rt; edits.len() < 99);
    match EditSet::make(alloc, edits, &[], bench.head().nall) {
        Ok(set) => set,
        Err(_) => panic!(rt; "the form is wrong"),
    }
}
