//! The areas of Group 1 and those of the coverage.

ghost use Rattle.std.specs.Prelude.{◌≡◌, ◌++◌, IfOk, OnOk, filter, map, option_to_list};
ghost use Rattle.rule_spec.specs.Records.{feature_of as feature_in};
ghost use Rattle.skin_probe.specs.Totals.{areas_of as areas_in};
ghost use Rattle.skin_probe.specs.Sorts.{is_of_sort};

use check_words::{is_coverage_area, is_group1_area};
use record_store::RecordStore;
use s57_types::{Feature, Kind, Rec};
use std::alloc::{AllocError, Global};

/// What areas a sum of winding numbers is taken over.
#[derive(Clone, Copy)]
pub(crate) enum AreaSort {
    /// The skin of the earth.
    Group1,
    /// Data coverage.
    Coverage,
}

impl AreaSort {
    /// Whether a feature is such an area.
    fn has(self, feature: &Feature) -> bool
        ensures { result ≡ is_of_sort self feature.now }
    {
        match self {
            AreaSort::Group1 => is_group1_area(feature),
            AreaSort::Coverage => is_coverage_area(feature),
        }
    }
}

/// Appends a record that is an area of a sort.
fn push_area<'a>(
    areas: &mut Vec<&'a Feature>,
    sort: AreaSort,
    rec: &'a Rec,
) -> Result<(), AllocError>
    ensures { OnOk result (map (λ f. f.now) areas.new.items ≡
        map (λ f. f.now) areas.old.items ++ filter (is_of_sort sort) (option_to_list (feature_in rec.now))) }
{
    if let Rec::F(feature) = rec {
        if sort.has(feature) {
            areas.push(feature)?;
        }
    }
    Ok(())
}

/// The areas of a sort in file order.
pub(crate) fn areas_of(
    alloc: Global,
    store: &RecordStore,
    sort: AreaSort,
) -> Result<Vec<&Feature>, AllocError>
    ensures { IfOk result (λ areas. map (λ f. f.now) areas.items ≡ areas_in (is_of_sort sort) store.now) }
{
    let mut areas = Vec::new(alloc);
    for rec in store.walk(Kind::Fe) {
        push_area(&mut areas, sort, rec)?;
    }
    Ok(areas)
}
