//! The uses that features make of an edge.

ghost use Rattle.std.specs.Prelude.{◌≡◌, ◌-◌, ◌++◌, IfOk, List, OnOk, filter_map, find, option_and_then, option_map, option_to_list, slice_get, true};
ghost use Rattle.std.specs.List.{All};
ghost use Rattle.std.specs.Option.{option_copied};
ghost use Rattle.s57_types.specs.{declared.cell.Cell.{Cell as SpecCell}, declared.record.Feature.{Feature as SpecFeature}};
ghost use Rattle.cell_spec.specs.{declared.key.Key.{Key as SpecKey}, declared.key.Key.TheVariants.{Name as KeyName}, declared.key.Ref.{Ref as SpecRef}};
ghost use Rattle.near_records.specs.Near.{has_key};
ghost use Rattle.rule_spec.specs.Records.{feature_named as spec_feature};
ghost use Rattle.rule_spec.specs.Sides.{is_truncated, side_count, side_counts as counts_of, use_by as spec_use_by, use_of_row as use_at_row};

use cell_spec::Ref;
use check_words::{AREA, is_coverage_area, is_group1_area, number};
use near_records::Near;
use rule_spec::{EdgeSideCounts, EdgeUse};
use s57_types::{Feature, Rec, RecName, Spot};
use std::alloc::{AllocError, Global};

/// The usage indicator USAG of a boundary that is cut off by the data limit.
const TRUNCATED: u8 = 3;

/// The orientations ORNT.
const FORWARD: u8 = 1;

const REVERSE: u8 = 2;

fn use_of_row(pointer: Ref, feature: &Feature, row: &Spot) -> EdgeUse
    ensures { result ≡ use_at_row pointer feature.now row.now }
{
    let is_area = feature.prim == AREA;
    let is_group1 = is_group1_area(feature);
    let is_coverage = is_coverage_area(feature);
    EdgeUse {
        pointer,
        is_area,
        is_group1,
        is_coverage,
        ornt: row.ornt,
        usag: row.usag,
    }
}

/// The use that a pointer of a feature is.
fn use_by(pointer: Ref, feature: Option<&Feature>) -> Option<EdgeUse>
    ensures { result ≡ option_and_then (λ (f : SpecFeature). option_map (use_at_row pointer f) (slice_get f.places (pointer.place - 1)))
        (option_copied feature.entry) }
{
    let feature = feature?;
    let place = pointer.place.saturating_sub(1) as usize;
    match feature.places.as_slice().get(place) {
        Some(row) => Some(use_of_row(pointer, feature, row)),
        None => None,
    }
}

/// Appends the use that a pointer is, if a feature has it.
fn push_use(uses: &mut Vec<EdgeUse>, found: Option<EdgeUse>) -> Result<(), AllocError>
    ensures { OnOk result (uses.new.items ≡ uses.old.items ++ option_to_list found) }
{
    match found {
        Some(found) => {
            uses.push(found)?;
            Ok(())
        }
        None => Ok(()),
    }
}

/// The feature of a name that is near.
fn feature_named<N: Near>(near: &N, name: RecName) -> Option<&Feature>
    ensures { (c : SpecCell) (keys : List SpecKey) → N.tells near.now c keys → has_key keys (KeyName name) ≡ true → option_copied result ≡ spec_feature c name }
{
    match near.record(name) {
        Some(Rec::F(feature)) => Some(feature),
        _ => None,
    }
}

/// The uses that pointers are, in their order, where the records that have them are near.
pub(crate) fn uses_of<N: Near>(
    alloc: Global,
    near: &N,
    pointers: &[Ref],
) -> Result<Vec<EdgeUse>, AllocError>
    ensures { (c : SpecCell) (keys : List SpecKey) → N.tells near.now c keys → All (λ (r : SpecRef). has_key keys (KeyName r.from) ≡ true) pointers.now
        → IfOk result (λ uses. uses.items ≡ filter_map (spec_use_by c) pointers.now) }
{
    let mut uses = Vec::with_capacity(alloc, pointers.len())?;
    for pointer in pointers {
        let feature = feature_named(near, pointer.from);
        push_use(&mut uses, use_by(*pointer, feature))?;
    }
    Ok(uses)
}

fn group1_count(ornt: u8, uses: &[EdgeUse]) -> usize
    ensures { result ≡ side_count (λ u. u.is_group1) ornt uses.now }
{
    uses.iter()
        .filter(|u| u.is_group1 && u.ornt == ornt)
        .count()
}

fn coverage_count(ornt: u8, uses: &[EdgeUse]) -> usize
    ensures { result ≡ side_count (λ u. u.is_coverage) ornt uses.now }
{
    uses.iter()
        .filter(|u| u.is_coverage && u.ornt == ornt)
        .count()
}

/// How often Group 1 areas and coverage areas use an edge forward and in reverse: row by row.
///
/// An `Err` means out of memory.
pub(crate) fn side_counts(uses: &[EdgeUse]) -> Result<EdgeSideCounts, AllocError>
    ensures { IfOk result (λ counts. counts ≡ counts_of uses.now) }
{
    let group1_forward = number(group1_count(FORWARD, uses))?;
    let group1_reverse = number(group1_count(REVERSE, uses))?;
    let coverage_forward = number(coverage_count(FORWARD, uses))?;
    let coverage_reverse = number(coverage_count(REVERSE, uses))?;
    Ok(EdgeSideCounts {
        group1_forward,
        group1_reverse,
        coverage_forward,
        coverage_reverse,
    })
}

/// The first use of an area whose boundary is said to be cut off by the data limit.
pub(crate) fn first_truncated(uses: &[EdgeUse]) -> Option<EdgeUse>
    ensures { result ≡ find is_truncated uses.now }
{
    for found in uses {
        if found.is_area && found.usag == TRUNCATED {
            return Some(*found);
        }
    }
    None
}
