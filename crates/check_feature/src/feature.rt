//! The findings about a feature.

ghost use Rattle.std.specs.Prelude.{◌≡◌, IfOk};
ghost use Rattle.rule_spec.specs.Findings.{findings_of_rules};
ghost use Rattle.rule_spec.specs.Rules.{feature_rules};
ghost use Rattle.check_area.specs.NearFeature.{WhereNear};

use crate::boundary::push_boundary_findings;
use crate::codes::{push_bad_codes, push_bad_level};
use crate::group::push_wrong_group;
use crate::naming::push_dangling;
use crate::places::push_prim_refs;
use cell_spec::Finding;
use near_records::Near;
use rule_spec::{DANGLING_FEATURE, DANGLING_REF};
use s57_types::Feature;
use std::alloc::{AllocError, Global};

/// The findings about a feature, ascending by kind and numbers, where what its cell answers to the keys of its read set
/// is near. The kinds are PrimRefs, DanglingRef, BadCodes, OpenRing, MixedRing, OuterCount, WrongTurn, DanglingFeature,
/// WrongGroup and BadLevel (S-57 Part 3, 2.4 and 7.6; Appendix B.1).
///
/// An `Err` means out of memory.
pub fn feature_findings<N: Near>(
    alloc: Global,
    near: &N,
    feature: &Feature,
) -> Result<Vec<Finding>, AllocError>
    ensures { WhereNear (N.tells near.now) feature.now
        (λ c. IfOk result (λ found. found.items ≡ findings_of_rules (λ rule. rule c feature.now) feature_rules)) }
{
    let mut findings = Vec::new(alloc);
    push_prim_refs(&mut findings, feature)?;
    push_dangling(&mut findings, DANGLING_REF, near, feature.places.as_slice())?;
    push_bad_codes(&mut findings, feature)?;
    push_boundary_findings(alloc, &mut findings, near, feature)?;
    push_dangling(
        &mut findings,
        DANGLING_FEATURE,
        near,
        feature.partners.as_slice(),
    )?;
    push_wrong_group(&mut findings, feature)?;
    push_bad_level(&mut findings, near, feature)?;
    Ok(findings)
}
