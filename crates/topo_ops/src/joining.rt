//! Joining two edges.

ghost use Rattle.std.specs.Prelude.{◌≡◌, ◌++◌, ◌∷◌, [], ℕ, IfOk, MatchResult, None, OnOk, drop, find, map};
ghost use Rattle.std.specs.Borrow.{Bor};
ghost use Rattle.s57_types.specs.declared.record.Feature.{Feature as SpecFeature};
ghost use Rattle.topo_ops.specs.Causes.{ended_version, form_refused};
ghost use Rattle.topo_ops.specs.Chains.{chain_by};
ghost use Rattle.topo_ops.specs.Join.{attrs_differ, chains_fault, edits_by_join, features_fault, has_attributes as has_any, is_end_of as is_an_end};
ghost use Rattle.topo_ops.specs.Join.{is_other_pointer, join_by, join_edits as all_edits, join_refusal, joined_edge as edge_over};
ghost use Rattle.topo_ops.specs.Join.{joined_places as places_kept, node_used, not_a_chain};
ghost use Rattle.topo_ops.specs.Kept.{IsJoin};
ghost use Rattle.topo_ops.specs.Refusals.{IsRefusal};

use crate::attributes::same_attributes;
use crate::cause::{check_versions, set_of};
use crate::chain::{Chain, chain_named};
use crate::feature::{PlaceChange, features_at, push_feature_edits};
use crate::operation::EdgeJoin;
use crate::pairing::check_pairs;
use crate::refusal::OpRefusal;
use crate::splitting::moved_ends;
use cell_spec::{Edit, Ref};
use chain_topo::{Look, Steps};
use check_words::{BEGINNING_NODE, END_NODE};
use edit_sets::EditSet;
use geometry_spec::Point;
use s57_types::{Duplicate, Feature, Items, Kind, Places, Plane, Rec, RecName, Spot, Vector};
use std::alloc::{AllocError, Global};
use std::sync::ledger::Ledger;

/// Refuses edges that are one, or of which the second doesn't begin where the first ends.
fn check_order(first: &Chain, second: &Chain) -> Result<(), OpRefusal>
    ensures { let rule = not_a_chain (chain_by first.now.edge.now first.now.line) (chain_by second.now.edge.now second.now.line) in
        MatchResult result (λ _. rule ≡ None) (IsRefusal rule) }
{
    if first.edge.name == second.edge.name || first.line.ends != second.line.begins {
        return Err(OpRefusal::NotAChain);
    }
    Ok(())
}

/// Whether a pointer is an end of an edge with a topology indicator.
fn is_end_of(topi: u8, edge: &Vector, pointer: Ref) -> bool
    ensures { result ≡ is_an_end topi edge.now pointer }
{
    let place = pointer.place.saturating_sub(1) as usize;
    if pointer.from != edge.name {
        return false;
    }
    match edge.ends.as_slice().get(place) {
        Some(end) => end.topi == topi,
        None => false,
    }
}

/// The first of some pointers that isn't the end of the first edge nor the beginning of the second.
fn other_pointer(first: &Chain, second: &Chain, pointers: &[Ref]) -> Option<Ref>
    ensures { result ≡ find (is_other_pointer (chain_by first.now.edge.now first.now.line) (chain_by second.now.edge.now second.now.line)) pointers.now }
{
    for pointer in pointers {
        let ends_first = is_end_of(END_NODE, first.edge, *pointer);
        let begins_second = is_end_of(BEGINNING_NODE, second.edge, *pointer);
        if !(ends_first || begins_second) {
            return Some(*pointer);
        }
    }
    None
}

/// Refuses a node between the edges that another pointer names.
fn check_node<B: Look, L: Ledger>(
    look: &B,
    first: &Chain,
    second: &Chain,
    steps: &mut Steps<L>,
) -> Result<(), OpRefusal>
    ensures { let rule = node_used (B.cell look.now) (chain_by first.now.edge.now first.now.line) (chain_by second.now.edge.now second.now.line)
        in MatchResult result (λ _. rule ≡ None) (IsRefusal rule) }
{
    match other_pointer(first, second, look.refs(first.line.ends, steps)) {
        Some(pointer) => Err(OpRefusal::NodeUsed(pointer.from, pointer.place)),
        None => Ok(()),
    }
}

/// Whether a connected node has attributes.
fn has_attributes<B: Look, L: Ledger>(look: &B, name: RecName, steps: &mut Steps<L>) -> bool
    ensures { result ≡ has_any (B.cell look.now) name }
{
    match look.get(name, steps) {
        Some(Rec::V(node)) => node.name.kind == Kind::Vc && !node.attrs.is_empty(),
        _ => false,
    }
}

/// Refuses edges whose attributes differ, or with a node between them that has any.
fn check_attributes<B: Look, L: Ledger>(
    look: &B,
    first: &Chain,
    second: &Chain,
    steps: &mut Steps<L>,
) -> Result<(), OpRefusal>
    ensures { let rule = attrs_differ (B.cell look.now) (chain_by first.now.edge.now first.now.line)
        (chain_by second.now.edge.now second.now.line) in MatchResult result (λ _. rule ≡ None) (IsRefusal rule) }
{
    let same = same_attributes(first.edge.attrs.as_slice(), second.edge.attrs.as_slice());
    let has_any = has_attributes(look, first.line.ends, steps);
    if !same || has_any {
        return Err(OpRefusal::AttrsDiffer);
    }
    Ok(())
}

/// The points behind the first.
fn behind_first(points: &[Point]) -> &[Point]
    ensures { result.now ≡ drop 1 points.now }
{
    match points {
        [_, rest @ ..] => rest,
        [] => points,
    }
}

/// The points of two lists.
fn both(alloc: Global, first: &[Point], second: &[Point]) -> Result<Plane, AllocError>
    ensures { IfOk result (λ points. points ≡ first.now ++ second.now) }
{
    let mut points = Vec::with_capacity(alloc, first.len())?;
    points.extend_from_slice(first)?;
    points.extend_from_slice(second)?;
    Ok(Items::of_vec(points))
}

/// The first edge, gone on over the node to the end of the second.
fn joined_edge(alloc: Global, first: &Chain, second: &Chain) -> Result<Vector, AllocError>
    requires { ended_version first.now.edge.now.name first.now.edge.now.rver ≡ None }
    ensures { IfOk result (λ edge. edge ≡ edge_over (chain_by first.now.edge.now first.now.line) (chain_by second.now.edge.now second.now.line)) }
{
    let edge = first.edge;
    let points = behind_first(first.line.points.as_slice());
    Ok(Vector {
        name: edge.name,
        rver: edge.rver + 1,
        attrs: edge.attrs.copy(alloc)?,
        ends: moved_ends(alloc, second.line.ends, edge.ends.as_slice())?,
        plane: both(alloc, points, second.edge.plane.as_slice())?,
        deep: edge.deep.copy(alloc)?,
    })
}

/// Appends a spatial pointer, unless it names the second edge.
fn push_kept(list: &mut Vec<Spot>, edges: EdgeJoin, spot: Spot) -> Result<(), AllocError>
    ensures { OnOk result (list.new.items ≡ list.old.items ++ places_kept edges.other (spot ∷ [])) }
{
    if spot.to == edges.other {
        return Ok(());
    }
    list.push(spot)?;
    Ok(())
}

impl PlaceChange for EdgeJoin {
    ghost use Rattle.topo_ops.specs.Join.{joined_places};

    ghost change = { λ edges. joined_places edges.other };

    fn changed(&self, alloc: Global, places: &[Spot]) -> Result<Places, AllocError> {
        let mut list = Vec::new(alloc);
        for spot in places {
            push_kept(&mut list, *self, *spot)?;
        }
        Ok(Items::of_vec(list))
    }
}

/// The edits of a join: of the first edge, the second and the node, and of the features.
fn join_edits(
    alloc: Global,
    edges: EdgeJoin,
    first: &Chain,
    second: &Chain,
    features: &[&Feature],
) -> Result<Items<Edit>, AllocError>
    requires { features_fault edges first.now.edge.now (map (λ (f : Bor SpecFeature). f.now) features.now) ≡ None }
    ensures { IfOk result (λ edits. edits ≡ edits_by_join edges (chain_by first.now.edge.now first.now.line)
        (chain_by second.now.edge.now second.now.line) (map (λ (f : Bor SpecFeature). f.now) features.now)) }
{
    let mut edits = Vec::new(alloc);
    edits.push(Edit::Set(Rec::V(joined_edge(alloc, first, second)?)))?;
    edits.push(Edit::Del(edges.other))?;
    edits.push(Edit::Del(first.line.ends))?;
    push_feature_edits(alloc, &mut edits, &edges, features)?;
    Ok(Items::of_vec(edits))
}

/// Refuses the features that point to two edges where one of them names one edge alone, or where a version can't rise.
fn check_features(edges: EdgeJoin, edge: &Vector, features: &[&Feature]) -> Result<(), OpRefusal>
    ensures { let rule = features_fault edges edge.now (map (λ (f : Bor SpecFeature). f.now) features.now) in
        MatchResult result (λ _. rule ≡ None) (IsRefusal rule) }
{
    check_pairs(edges, features)?;
    check_versions(edge, features)
}

/// The edits of a join where the features that point to the edges don't refuse it.
fn checked_edits(
    alloc: Global,
    edges: EdgeJoin,
    first: &Chain,
    second: &Chain,
    features: &[&Feature],
) -> Result<Items<Edit>, OpRefusal>
    ensures { let fs = map (λ (f : Bor SpecFeature). f.now) features.now in let rule = features_fault edges first.now.edge.now fs in MatchResult result
        (λ edits. (rule ≡ None) × (edits ≡ edits_by_join edges (chain_by first.now.edge.now first.now.line)
        (chain_by second.now.edge.now second.now.line) fs)) (IsRefusal rule) }
{
    check_features(edges, first.edge, features)?;
    Ok(join_edits(alloc, edges, first, second, features)?)
}

/// Refuses two edges for what they and the node between them are.
fn check_chains<B: Look, L: Ledger>(
    look: &B,
    first: &Chain,
    second: &Chain,
    steps: &mut Steps<L>,
) -> Result<(), OpRefusal>
    ensures { let rule = chains_fault (B.cell look.now) (chain_by first.now.edge.now first.now.line)
        (chain_by second.now.edge.now second.now.line) in MatchResult result (λ _. rule ≡ None) (IsRefusal rule) }
{
    check_order(first, second)?;
    check_node(look, first, second, steps)?;
    check_attributes(look, first, second, steps)
}

/// The edits of a join, unless something but their form refuses it.
fn checked_join<B: Look, L: Ledger>(
    alloc: Global,
    look: &B,
    edges: EdgeJoin,
    steps: &mut Steps<L>,
) -> Result<Items<Edit>, OpRefusal>
    ensures { MatchResult result
        (λ edits. (edits ≡ all_edits (B.cell look.now) edges)
        × ((nall : ℕ) → join_refusal nall (B.cell look.now) edges ≡ form_refused nall (all_edits (B.cell look.now) edges)))
        (λ refusal. (nall : ℕ) → IsRefusal (join_refusal nall (B.cell look.now) edges) refusal) }
{
    let first = chain_named(alloc, look, edges.edge, steps)?;
    let second = chain_named(alloc, look, edges.other, steps)?;
    check_chains(look, &first, &second, steps)?;
    let features = features_at(alloc, look, &[edges.edge, edges.other], steps)?;
    checked_edits(alloc, edges, &first, &second, features.as_slice())
}

/// Joins two edges (S-57 Part 2, 2.2.1.2; Part 3, 7.7.1.4): the edge with the number `edge` (RCID) goes on over the connected node where it ends, and where
/// the edge `other` begins, to the end node of that. The edit set is at the level `nall`. It has the edge, the ends of the other edge and of the node,
/// and each feature that points to the edges, ascending: of two spatial pointers to them the one to the edge stays. The edge and these features
/// go one version on (RVER).
///
/// Every feature runs where it ran, and the edge is used by areas as each of the two was.
///
/// An `Err` is the first cause in this order: `NoEdge` of the edge, then of the other, `NotAChain`, `NodeUsed`, `AttrsDiffer`, `NotPaired`, `VersionEnd` and
/// `Form`; or out of memory.
pub fn join<B: Look, L: Ledger>(
    alloc: Global,
    look: &B,
    edge: u32,
    other: u32,
    nall: u8,
    steps: &mut Steps<L>,
) -> Result<EditSet, OpRefusal>
    ensures { let edges = join_by edge other in MatchResult result (IsJoin nall (B.cell look.now) edges)
        (IsRefusal (join_refusal nall (B.cell look.now) edges)) }
{
    look.known();
    let edges = EdgeJoin::of_numbers(edge, other);
    let edits = checked_join(alloc, look, edges, steps)?;
    let set = set_of(alloc, edits.as_slice(), nall)?;
    set.known();
    Ok(set)
}
