//! Findings one after the other.

ghost use Rattle.std.specs.Prelude.{◌≡◌, ◌++◌, [], ◌∷◌, OnOk, map};
ghost use Rattle.rule_spec.specs.Findings.{finding};
ghost use Rattle.rule_spec.specs.Rule.{found_if};

use cell_spec::Finding;
use check_words::number;
use std::alloc::AllocError;

/// Appends a finding without numbers where a test holds.
pub(crate) fn push_if(findings: &mut Vec<Finding>, kind: u8, test: bool) -> Result<(), AllocError>
    ensures { OnOk result (findings.new.items ≡ findings.old.items ++ map (finding kind) (found_if test [])) }
{
    if test {
        findings.push(Finding { kind, nums: [0; 4] })?;
    }
    Ok(())
}

/// Appends a finding with a place where a test holds.
pub(crate) fn push_place_if(
    findings: &mut Vec<Finding>,
    kind: u8,
    test: bool,
    place: usize,
) -> Result<(), AllocError>
    ensures { OnOk result (findings.new.items ≡ findings.old.items ++ map (finding kind) (found_if test (place ∷ []))) }
{
    if test {
        let place = number(place)?;
        findings.push(Finding {
            kind,
            nums: [place, 0, 0, 0],
        })?;
    }
    Ok(())
}
