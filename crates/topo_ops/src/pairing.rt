//! Whether features name two edges in pairs.

ghost use Rattle.std.specs.Prelude.{◌≡◌, MatchResult, None, map};
ghost use Rattle.std.specs.Borrow.{Bor};
ghost use Rattle.s57_types.specs.declared.record.Feature.{Feature as SpecFeature};
ghost use Rattle.topo_ops.specs.Join.{feature_unpaired, have_same_codes, name_in_order, names_either as either_named, unpaired_from, waiting_behind as behind};
ghost use Rattle.topo_ops.specs.Refusals.{IsRefusal, first_of};

use crate::operation::EdgeJoin;
use crate::refusal::OpRefusal;
use crate::splitting::REVERSE;
use check_words::number;
use s57_types::{Feature, Spot};

fn names_either(edges: EdgeJoin, spot: Spot) -> bool
    ensures { result ≡ either_named edges spot }
{
    spot.to == edges.edge || spot.to == edges.other
}

/// Whether two spatial pointers have the same orientation, usage and masking indicators.
fn same_codes(a: Spot, b: Spot) -> bool
    ensures { result ≡ have_same_codes a b }
{
    a.ornt == b.ornt && a.usag == b.usag && a.mask == b.mask
}

/// Whether two spatial pointers name the edges in the order in which they go along them.
fn follow(edges: EdgeJoin, first: Spot, second: Spot) -> bool
    ensures { result ≡ name_in_order edges first second }
{
    if first.ornt == REVERSE {
        first.to == edges.other && second.to == edges.edge
    } else {
        first.to == edges.edge && second.to == edges.other
    }
}

/// The place that waits for its pair behind a spatial pointer, if any; none at all where the one that waits isn't paired with it.
fn waiting_behind(edges: EdgeJoin, waiting: Option<Spot>, spot: Spot) -> Option<Option<Spot>>
    ensures { result ≡ behind edges waiting spot }
{
    match waiting {
        None if names_either(edges, spot) => Some(Some(spot)),
        None => Some(None),
        Some(first) if follow(edges, first, spot) && same_codes(first, spot) => Some(None),
        Some(_) => None,
    }
}

/// The first place, from 1, that names one of the edges and isn't paired.
fn first_unpaired(edges: EdgeJoin, places: &[Spot]) -> Option<usize>
    ensures { result ≡ unpaired_from edges 1 None places.now }
{
    let mut waiting = None;
    for (k, spot) in places.iter().enumerate() {
        let Some(next) = waiting_behind(edges, waiting, *spot) else {
            return Some(k);
        };
        waiting = next;
    }
    if waiting.is_some() {
        return Some(places.len());
    }
    None
}

/// Refuses a feature that names one of the edges without the other beside it.
fn check_feature(edges: EdgeJoin, feature: &Feature) -> Result<(), OpRefusal>
    ensures { MatchResult result (λ _. feature_unpaired edges feature.now ≡ None) (IsRefusal (feature_unpaired edges feature.now)) }
{
    match first_unpaired(edges, feature.places.as_slice()) {
        Some(place) => Err(OpRefusal::NotPaired(feature.name.id, number(place)?)),
        None => Ok(()),
    }
}

/// Refuses the first of features that names one of the edges without the other beside it.
pub(crate) fn check_pairs(edges: EdgeJoin, features: &[&Feature]) -> Result<(), OpRefusal>
    ensures { let rule = first_of (map (feature_unpaired edges) (map (λ (f : Bor SpecFeature). f.now) features.now)) in
        MatchResult result (λ _. rule ≡ None) (IsRefusal rule) }
{
    for feature in features {
        check_feature(edges, feature)?;
    }
    Ok(())
}
