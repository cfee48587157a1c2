//! Causes of refusal that splitting and joining have in common.

ghost use Rattle.std.specs.Prelude.{◌≡◌, MatchResult, [], None, map};
ghost use Rattle.std.specs.Borrow.{Bor};
ghost use Rattle.s57_types.specs.declared.record.Feature.{Feature as SpecFeature};
ghost use Rattle.edit_sets.specs.FormFault.{IsSetOf};
ghost use Rattle.topo_ops.specs.Causes.{ended_version, form_refused, name_taken, version_end};
ghost use Rattle.topo_ops.specs.Refusals.{IsRefusal};

use crate::refusal::OpRefusal;
use cell_spec::Edit;
use chain_topo::{Look, Steps};
use check_words::number;
use edit_sets::EditSet;
use s57_types::{Feature, RecName, Vector};
use std::alloc::Global;
use std::sync::ledger::Ledger;

/// Refuses a name that is in use: that a record has, or that a pointer names.
pub(crate) fn check_free<B: Look, L: Ledger>(
    look: &B,
    name: RecName,
    steps: &mut Steps<L>,
) -> Result<(), OpRefusal>
    ensures { MatchResult result (λ _. name_taken (B.cell look.now) name ≡ None) (IsRefusal (name_taken (B.cell look.now) name)) }
{
    let has_record = look.get(name, steps).is_some();
    let is_free = look.refs(name, steps).is_empty();
    if has_record || !is_free {
        return Err(OpRefusal::NameTaken(name));
    }
    Ok(())
}

/// Refuses a record whose version can't rise.
fn check_version(name: RecName, rver: u16) -> Result<(), OpRefusal>
    ensures { MatchResult result (λ _. ended_version name rver ≡ None) (IsRefusal (ended_version name rver)) }
{
    if rver == u16::MAX {
        return Err(OpRefusal::VersionEnd(name));
    }
    Ok(())
}

/// Refuses the least of an edge and features, ascending by name, whose version can't rise.
pub(crate) fn check_versions(edge: &Vector, features: &[&Feature]) -> Result<(), OpRefusal>
    ensures { MatchResult result (λ _. version_end edge.now (map (λ (f : Bor SpecFeature). f.now) features.now) ≡ None)
        (IsRefusal (version_end edge.now (map (λ (f : Bor SpecFeature). f.now) features.now))) }
{
    check_version(edge.name, edge.rver)?;
    for feature in features {
        check_version(feature.name, feature.rver)?;
    }
    Ok(())
}

/// The edits as an edit set without guards, or the first fault of their form.
pub(crate) fn set_of(alloc: Global, edits: &[Edit], nall: u8) -> Result<EditSet, OpRefusal>
    ensures { MatchResult result (IsSetOf nall edits.now []) (IsRefusal (form_refused nall edits.now)) }
{
    let _counted = number(edits.len())?;
    Ok(EditSet::make(alloc, edits, &[], nall)?)
}
