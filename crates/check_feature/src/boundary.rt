//! The boundary of an area (S-57 Part 3, 7.6.8; Appendix B.1).

ghost use Rattle.std.specs.Prelude.{◌≡◌, ◌==◌, ◌&&◌, ◌++◌, OnOk, length};
ghost use Rattle.check_area.specs.NearFeature.{WhereNear};
ghost use Rattle.check_feature.specs.FeatureFindings.{boundary_findings, pointer_findings};

use cell_spec::Finding;
use check_area::area_findings;
use check_words::AREA;
use near_records::Near;
use s57_types::Feature;
use std::alloc::{AllocError, Global};

/// Whether a feature is an area and nothing is found about its spatial pointers.
fn may_be_judged(findings: &[Finding], feature: &Feature) -> bool
    ensures { result ≡ ((feature.now.prim == 3) && (length findings.now == 0)) }
{
    feature.prim == AREA && findings.is_empty()
}

/// OpenRing, MixedRing, OuterCount and WrongTurn: appends their findings about a feature, where the findings about its
/// spatial pointers are known. Only an area without those has a boundary to judge.
pub(crate) fn push_boundary_findings<N: Near>(
    alloc: Global,
    findings: &mut Vec<Finding>,
    near: &N,
    feature: &Feature,
) -> Result<(), AllocError>
    ensures { WhereNear (N.tells near.now) feature.now (λ c. findings.old.items ≡ pointer_findings c feature.now
        → OnOk result (findings.new.items ≡ findings.old.items ++ boundary_findings c feature.now)) }
{
    if !may_be_judged(findings.as_slice(), feature) {
        return Ok(());
    }
    let found = area_findings(alloc, near, feature)?;
    findings.extend_from_slice(&found)?;
    Ok(())
}
