//! The codes of a feature: the orientation, usage and masking indicators of its spatial pointers (S-57 Part 3, 7.6.8;
//! Appendix B.1), and the bytes of its attributes' values (2.4).

ghost use Rattle.std.specs.Prelude.{◌≡◌, ◌==◌, ◌<◌, ◌++◌, IfSome, List, OnOk, length, map, position, true};
ghost use Rattle.s57_types.specs.declared.cell.Cell.{Cell as SpecCell};
ghost use Rattle.s57_types.specs.Heads.{head_name};
ghost use Rattle.cell_spec.specs.declared.key.Key.{Key as SpecKey};
ghost use Rattle.cell_spec.specs.declared.key.Key.TheVariants.{Name as KeyName};
ghost use Rattle.rule_spec.specs.declared.kind.TheConstants.{BAD_CODES, BAD_LEVEL};
ghost use Rattle.rule_spec.specs.Features.{bad_codes, bad_level, has_its_codes as spec_codes, is_beyond_ascii as spec_beyond};
ghost use Rattle.rule_spec.specs.Findings.{finding};
ghost use Rattle.near_records.specs.Near.{has_key};

use crate::found::push_place_if;
use crate::places::{LINE, POINT};
use cell_spec::Finding;
use check_words::AREA;
use near_records::Near;
use rule_spec::{BAD_CODES, BAD_LEVEL};
use s57_types::{Attr, Feature, Rec, RecName, Spot};
use std::alloc::AllocError;

/// No indicator.
const NULL: u8 = 255;

/// The orientation ORNT of a pointer that goes along its edge forward.
const FORWARD: u8 = 1;

/// The orientation ORNT of a pointer that goes along its edge in reverse.
const REVERSE: u8 = 2;

/// The usage USAG of an exterior boundary.
const EXTERIOR: u8 = 1;

/// The usage USAG of an interior boundary.
const INTERIOR: u8 = 2;

/// The usage USAG of an exterior boundary that is truncated by the data limit.
const TRUNCATED: u8 = 3;

/// The masking MASK of what isn't to be drawn.
const MASK: u8 = 1;

/// The masking MASK of what is to be drawn.
const SHOW: u8 = 2;

fn has_line_codes(spot: &Spot) -> bool
    ensures { result ≡ spec_codes 2 spot.now }
{
    let oriented = matches!(spot.ornt, FORWARD | REVERSE | NULL);
    oriented && spot.usag == NULL && matches!(spot.mask, MASK | SHOW | NULL)
}

fn has_area_codes(spot: &Spot) -> bool
    ensures { result ≡ spec_codes 3 spot.now }
{
    let whole = matches!(spot.usag, EXTERIOR | INTERIOR) && matches!(spot.mask, MASK | SHOW | NULL);
    let truncated = spot.usag == TRUNCATED && spot.mask == NULL;
    matches!(spot.ornt, FORWARD | REVERSE) && (whole || truncated)
}

/// Whether a spatial pointer has codes that its primitive PRIM may have.
fn has_its_codes(prim: u8, spot: &Spot) -> bool
    ensures { result ≡ spec_codes prim spot.now }
{
    match prim {
        POINT => spot.ornt == NULL && spot.usag == NULL && spot.mask == NULL,
        LINE => has_line_codes(spot),
        AREA => has_area_codes(spot),
        _ => true,
    }
}

/// BadCodes: appends its findings about a feature.
pub(crate) fn push_bad_codes(
    findings: &mut Vec<Finding>,
    feature: &Feature,
) -> Result<(), AllocError>
    ensures { (c : SpecCell) → OnOk result (findings.new.items ≡ findings.old.items ++ map (finding BAD_CODES) (bad_codes c feature.now)) }
{
    for (k, spot) in feature.places.as_slice().iter().enumerate() {
        let is_bad = !has_its_codes(feature.prim, spot);
        push_place_if(findings, BAD_CODES, is_bad, k + 1)?;
    }
    Ok(())
}

/// Whether general texts are at the lexical level 0 (AALL, S-57 Part 3, 2.4), where the head is near.
fn is_at_level_zero<N: Near>(near: &N) -> bool
    ensures { (c : SpecCell) (keys : List SpecKey) → N.tells near.now c keys → has_key keys (KeyName head_name) ≡ true → result ≡ (c.head.aall == 0) }
{
    match near.record(RecName::of_head()) {
        Some(Rec::H(head)) => head.aall == 0,
        _ => false,
    }
}

/// Whether a value has a byte beyond ASCII.
fn is_beyond_ascii(attr: &Attr) -> bool
    ensures { result ≡ spec_beyond attr.now }
{
    attr.value.as_slice().iter().any(|byte| *byte >= 0x80)
}

fn first_beyond_ascii(attrs: &[Attr]) -> Option<usize>
    ensures first { result ≡ position spec_beyond attrs.now }
    ensures within { IfSome result (λ k. k < length attrs.now) }
{
    attrs.iter().position(|attr| is_beyond_ascii(attr))
}

/// BadLevel: appends its finding about a feature, where the head is near.
#[tactic(auto, using(crate::proofs::FeatureFindings::first_place, crate::proofs::FeatureFindings::no_place))]
pub(crate) fn push_bad_level<N: Near>(
    findings: &mut Vec<Finding>,
    near: &N,
    feature: &Feature,
) -> Result<(), AllocError>
    ensures { (c : SpecCell) (keys : List SpecKey) → N.tells near.now c keys → has_key keys (KeyName head_name) ≡ true
        → OnOk result (findings.new.items ≡ findings.old.items ++ map (finding BAD_LEVEL) (bad_level c feature.now)) }
{
    if !is_at_level_zero(near) {
        return Ok(());
    }
    match first_beyond_ascii(feature.attf.as_slice()) {
        Some(k) => push_place_if(findings, BAD_LEVEL, true, k + 1),
        None => Ok(()),
    }
}
