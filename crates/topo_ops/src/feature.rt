//! The features that point to edges, and their replacements.

ghost use Rattle.std.specs.Prelude.{◌≡◌, ◌++◌, All, IfOk, None, OnOk, filter_map, map, option_to_list};
ghost use Rattle.std.specs.Borrow.{Bor};
ghost use Rattle.std.specs.Option.{option_copied};
ghost use Rattle.s57_types.specs.declared.record.Feature.{Feature as SpecFeature};
ghost use Rattle.cell_spec.specs.declared.key.Ref.{Ref as SpecRef};
ghost use Rattle.rule_spec.specs.Records.{feature_named as feature_at};
ghost use Rattle.topo_ops.specs.Causes.{feature_version};
ghost use Rattle.topo_ops.specs.Features.{feature_edit, feature_with, features_at as features_pointing, names_pointing as all_pointing};

use cell_spec::{Edit, Names, Ref, ascending_names};
use chain_topo::{Look, Steps};
use s57_types::{Duplicate, Feature, Places, Rec, RecName, Spot};
use std::alloc::{AllocError, Global};
use std::sync::ledger::Ledger;

/// Appends the names of the records that have some pointers.
fn push_from(names: &mut Vec<RecName>, pointers: &[Ref]) -> Result<(), AllocError>
    ensures { OnOk result (names.new.items ≡ names.old.items ++ map (λ (r : SpecRef). r.from) pointers.now) }
{
    for pointer in pointers {
        names.push(pointer.from)?;
    }
    Ok(())
}

/// The names of the records that point to some names, ascending, each once.
fn names_pointing<B: Look, L: Ledger>(
    alloc: Global,
    look: &B,
    names: &[RecName],
    steps: &mut Steps<L>,
) -> Result<Names, AllocError>
    ensures { IfOk result (λ list. list ≡ all_pointing (B.cell look.now) names.now) }
{
    let mut list = Vec::new(alloc);
    for name in names {
        push_from(&mut list, look.refs(*name, steps))?;
    }
    Ok(ascending_names(list))
}

fn feature_named<'a, B: Look, L: Ledger>(
    look: &'a B,
    name: RecName,
    steps: &mut Steps<L>,
) -> Option<&'a Feature>
    ensures { option_copied result ≡ feature_at (B.cell look.now) name }
{
    match look.get(name, steps) {
        Some(Rec::F(feature)) => Some(feature),
        _ => None,
    }
}

/// The features of some names, in the order of the names.
fn features_named<'a, B: Look, L: Ledger>(
    alloc: Global,
    look: &'a B,
    names: &[RecName],
    steps: &mut Steps<L>,
) -> Result<Vec<&'a Feature>, AllocError>
    ensures { IfOk result (λ list. map (λ (f : Bor SpecFeature). f.now) list.items ≡ filter_map (feature_at (B.cell look.now)) names.now) }
{
    let mut list = Vec::new(alloc);
    for name in names {
        push_found(&mut list, feature_named(look, *name, steps))?;
    }
    Ok(list)
}

/// Appends a feature, if there is one.
fn push_found<'a>(list: &mut Vec<&'a Feature>, found: Option<&'a Feature>) -> Result<(), AllocError>
    ensures { OnOk result (map (λ (f : Bor SpecFeature). f.now) list.new.items ≡ map (λ (f : Bor SpecFeature). f.now) list.old.items
        ++ option_to_list (option_copied found.entry)) }
{
    if let Some(feature) = found {
        list.push(feature)?;
    }
    Ok(())
}

/// The features that point to some names, ascending by name, each looked up once.
#[tactic(auto, unfolding(crate::specs::Features::features_at))]
pub(crate) fn features_at<'a, B: Look, L: Ledger>(
    alloc: Global,
    look: &'a B,
    names: &[RecName],
    steps: &mut Steps<L>,
) -> Result<Vec<&'a Feature>, AllocError>
    ensures { IfOk result (λ list. map (λ (f : Bor SpecFeature). f.now) list.items ≡ features_pointing (B.cell look.now) names.now) }
{
    let pointing = names_pointing(alloc, look, names, steps)?;
    features_named(alloc, look, pointing.as_slice(), steps)
}

/// What becomes of a feature's spatial pointers (FSPT).
pub(crate) trait PlaceChange {
    ghost use Rattle.std.specs.Prelude.{List};
    ghost use Rattle.s57_types.specs.declared.record.Spot.{Spot as SpecSpot};

    ghost change: { Self → List SpecSpot → List SpecSpot };

    /// The spatial pointers that take the place of these.
    fn changed(&self, alloc: Global, places: &[Spot]) -> Result<Places, AllocError>
        ensures { IfOk result (λ list. list ≡ change self.now places.now) };
}

/// The feature with its spatial pointers changed, one version on.
fn changed_feature<C: PlaceChange>(
    alloc: Global,
    change: &C,
    feature: &Feature,
) -> Result<Feature, AllocError>
    requires { feature_version feature.now ≡ None }
    ensures { IfOk result (λ changed. changed ≡ feature_with (C.change change.now feature.now.places) feature.now) }
{
    Ok(Feature {
        name: feature.name,
        prim: feature.prim,
        grup: feature.grup,
        objl: feature.objl,
        rver: feature.rver + 1,
        foid: feature.foid,
        attf: feature.attf.copy(alloc)?,
        natf: feature.natf.copy(alloc)?,
        partners: feature.partners.copy(alloc)?,
        places: change.changed(alloc, feature.places.as_slice())?,
    })
}

/// Appends the replacements of features whose spatial pointers are changed.
pub(crate) fn push_feature_edits<C: PlaceChange>(
    alloc: Global,
    edits: &mut Vec<Edit>,
    change: &C,
    features: &[&Feature],
) -> Result<(), AllocError>
    requires { All (λ (f : Bor SpecFeature). feature_version f.now ≡ None) features.now }
    ensures { OnOk result (edits.new.items ≡ edits.old.items ++ map (feature_edit (C.change change.now)) (map (λ (f : Bor SpecFeature). f.now) features.now)) }
{
    for feature in features {
        let changed = changed_feature(alloc, change, feature)?;
        edits.push(Edit::Set(Rec::F(changed)))?;
    }
    Ok(())
}
