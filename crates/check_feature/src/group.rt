//! The group of a feature (S-57 Appendix B.1, 3.10.1).

ghost use Rattle.std.specs.Prelude.{◌≡◌, ◌++◌, OnOk, map};
ghost use Rattle.s57_types.specs.declared.cell.Cell.{Cell as SpecCell};
ghost use Rattle.rule_spec.specs.declared.kind.TheConstants.{WRONG_GROUP};
ghost use Rattle.rule_spec.specs.Features.{wrong_group};
ghost use Rattle.rule_spec.specs.Findings.{finding};

use crate::found::push_if;
use cell_spec::Finding;
use check_words::is_group1_area;
use rule_spec::WRONG_GROUP;
use s57_types::Feature;
use std::alloc::AllocError;

/// The group GRUP of the skin of the earth (Group 1).
const GROUP_1: u8 = 1;

/// WrongGroup: appends its finding about a feature.
pub(crate) fn push_wrong_group(
    findings: &mut Vec<Finding>,
    feature: &Feature,
) -> Result<(), AllocError>
    ensures { (c : SpecCell) → OnOk result (findings.new.items ≡ findings.old.items ++ map (finding WRONG_GROUP) (wrong_group c feature.now)) }
{
    let has_group1 = feature.grup == GROUP_1;
    push_if(findings, WRONG_GROUP, is_group1_area(feature) != has_group1)
}
