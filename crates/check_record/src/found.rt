//! The findings about a record whose read set nobody asks for.

ghost use Rattle.std.specs.Prelude.{◌≡◌, IfOk};
ghost use Rattle.cell_spec.specs.declared.key.Subject.TheVariants.{Rec as SubjectRec};
ghost use Rattle.rule_spec.specs.Findings.{findings_of_subject};

use crate::vector::vector_findings;
use cell_spec::Finding;
use chain_topo::ListLook;
use check_feature::feature_findings;
use s57_types::{Rec, RecName};
use std::alloc::{AllocError, Global};

/// The findings about a record of a cell that is looked into, as `verdict_rec` gives them. Its read set isn't made, and no look-up is
/// counted.
///
/// An `Err` means out of memory.
#[tactic(auto, using(crate::proofs::ReadSets::findings_absent, crate::proofs::ReadSets::findings_at_head))]
pub fn findings_of_rec(
    alloc: Global,
    look: &ListLook,
    name: RecName,
) -> Result<Vec<Finding>, AllocError>
    ensures { IfOk result (λ findings. findings.items ≡ findings_of_subject look.now (SubjectRec name)) }
{
    match look.find_record(name) {
        Some(Rec::V(vector)) => vector_findings(alloc, look, vector),
        Some(Rec::F(feature)) => feature_findings(alloc, look, feature),
        Some(Rec::H(_)) | None => Ok(Vec::new(alloc)),
    }
}
