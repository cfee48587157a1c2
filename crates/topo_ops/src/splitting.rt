//! Splitting an edge.

ghost use Rattle.std.specs.Prelude.{◌≡◌, ◌<◌, ◌++◌, ℕ, IfOk, MatchResult, OnOk, None, length, map};
ghost use Rattle.std.specs.Borrow.{Bor};
ghost use Rattle.s57_types.specs.declared.record.Feature.{Feature as SpecFeature};
ghost use Rattle.topo_ops.specs.Causes.{ended_version, form_refused, version_end};
ghost use Rattle.topo_ops.specs.Chains.{chain_by};
ghost use Rattle.topo_ops.specs.Kept.{IsSplit};
ghost use Rattle.topo_ops.specs.Refusals.{IsRefusal};
ghost use Rattle.topo_ops.specs.Split.{bad_place, cut_fault, edits_by_split, end_moved as moved, first_part as part_before, new_end as end_of_new};
ghost use Rattle.topo_ops.specs.Split.{new_node as node_between, points_before, second_part as part_behind, split_by, split_edits as all_edits};
ghost use Rattle.topo_ops.specs.Split.{split_place as places_of_split, split_refusal};

use crate::cause::{check_free, check_versions, set_of};
use crate::chain::{Chain, chain_named};
use crate::feature::{PlaceChange, features_at, push_feature_edits};
use crate::operation::EdgeSplit;
use crate::refusal::OpRefusal;
use cell_spec::Edit;
use chain_topo::{Look, Steps};
use check_words::{BEGINNING_NODE, END_NODE, number};
use edit_sets::EditSet;
use s57_types::{
    Attrs, Deep, Duplicate, End, Ends, Feature, Items, Places, Plane, Rec, RecName, Spot, Vector,
};
use std::alloc::{AllocError, Global};
use std::sync::ledger::Ledger;

/// A new record's version (RVER).
const FIRST_VERSION: u16 = 1;

/// The orientation indicator (ORNT) of what goes along an edge in reverse.
pub(crate) const REVERSE: u8 = 2;

/// No indicator.
const NULL: u8 = 255;

/// Refuses a point that isn't between the ends of an edge.
fn check_place(cut: EdgeSplit, chain: &Chain) -> Result<(), OpRefusal>
    ensures { let rule = bad_place cut (chain_by chain.now.edge.now chain.now.line) in MatchResult result (λ _. rule ≡ None) (IsRefusal rule) }
{
    let segments = number(chain.line.points.len().saturating_sub(1))?;
    if cut.at < 2 || segments < cut.at {
        return Err(OpRefusal::BadPlace(segments));
    }
    Ok(())
}

fn end_moved(node: RecName, end: End) -> End
    ensures { result ≡ moved node end }
{
    if end.topi == END_NODE {
        End { to: node, ..end }
    } else {
        end
    }
}

/// Ends of which that at the end node names another node.
pub(crate) fn moved_ends(alloc: Global, node: RecName, ends: &[End]) -> Result<Ends, AllocError>
    ensures { IfOk result (λ list. list ≡ map (moved node) ends.now) }
{
    let mut list = Vec::with_capacity(alloc, ends.len())?;
    for end in ends {
        list.push(end_moved(node, *end))?;
    }
    Ok(Items::of_vec(list))
}

/// The edge up to the point.
fn first_part(alloc: Global, cut: EdgeSplit, edge: &Vector) -> Result<Vector, AllocError>
    requires version { ended_version edge.now.name edge.now.rver ≡ None }
    requires inside { points_before cut < length edge.now.plane }
    ensures { IfOk result (λ part. part ≡ part_before cut edge.now) }
{
    let (before, _) = edge
        .plane
        .as_slice()
        .split_at(cut.at.saturating_sub(2) as usize);
    Ok(Vector {
        name: edge.name,
        rver: edge.rver + 1,
        attrs: edge.attrs.copy(alloc)?,
        ends: moved_ends(alloc, cut.node, edge.ends.as_slice())?,
        plane: Items::copy_of(alloc, before)?,
        deep: edge.deep.copy(alloc)?,
    })
}

fn new_end(topi: u8, to: RecName) -> End
    ensures { result ≡ end_of_new topi to }
{
    End {
        to,
        ornt: NULL,
        usag: NULL,
        topi,
        mask: NULL,
    }
}

/// The new edge, from the point on.
fn second_part(alloc: Global, cut: EdgeSplit, chain: &Chain) -> Result<Vector, AllocError>
    requires { points_before cut < length chain.now.edge.now.plane }
    ensures { IfOk result (λ part. part ≡ part_behind cut (chain_by chain.now.edge.now chain.now.line)) }
{
    let (_, behind) = chain
        .edge
        .plane
        .as_slice()
        .split_at(cut.at.saturating_sub(2) as usize + 1);
    let ends = [
        new_end(BEGINNING_NODE, cut.node),
        new_end(END_NODE, chain.line.ends),
    ];
    Ok(Vector {
        name: cut.fresh,
        rver: FIRST_VERSION,
        attrs: chain.edge.attrs.copy(alloc)?,
        ends: Items::copy_of(alloc, &ends)?,
        plane: Items::copy_of(alloc, behind)?,
        deep: Deep::make(alloc),
    })
}

/// The new node, at the point.
fn new_node(alloc: Global, cut: EdgeSplit, edge: &Vector) -> Result<Vector, AllocError>
    requires { points_before cut < length edge.now.plane }
    ensures { IfOk result (λ node. node ≡ node_between cut edge.now) }
{
    let point = edge.plane.at(cut.at.saturating_sub(2) as usize);
    let mut plane = Plane::make(alloc);
    plane.push(*point)?;
    Ok(Vector {
        name: cut.node,
        rver: FIRST_VERSION,
        attrs: Attrs::make(alloc),
        ends: Ends::make(alloc),
        plane,
        deep: Deep::make(alloc),
    })
}

/// Appends what becomes of a spatial pointer: two to the parts of the split edge, in the order in which it goes along them.
fn push_split(list: &mut Vec<Spot>, cut: EdgeSplit, spot: Spot) -> Result<(), AllocError>
    ensures { OnOk result (list.new.items ≡ list.old.items ++ places_of_split cut.edge cut.fresh spot) }
{
    let fresh = Spot {
        to: cut.fresh,
        ..spot
    };
    if spot.to != cut.edge {
        list.push(spot)?;
        return Ok(());
    }
    let (first, second) = if spot.ornt == REVERSE {
        (fresh, spot)
    } else {
        (spot, fresh)
    };
    list.push(first)?;
    list.push(second)?;
    Ok(())
}

impl PlaceChange for EdgeSplit {
    ghost use Rattle.topo_ops.specs.Split.{split_places};

    ghost change = { λ cut. split_places cut.edge cut.fresh };

    fn changed(&self, alloc: Global, places: &[Spot]) -> Result<Places, AllocError> {
        let mut list = Vec::new(alloc);
        for spot in places {
            push_split(&mut list, *self, *spot)?;
        }
        Ok(Items::of_vec(list))
    }
}

/// The edits of a split: of the edge, the new edge, the new node, and the features.
fn split_edits(
    alloc: Global,
    cut: EdgeSplit,
    chain: &Chain,
    features: &[&Feature],
) -> Result<Items<Edit>, AllocError>
    requires versions { version_end chain.now.edge.now (map (λ (f : Bor SpecFeature). f.now) features.now) ≡ None }
    requires inside { points_before cut < length chain.now.edge.now.plane }
    ensures { IfOk result (λ edits. edits ≡ edits_by_split cut (chain_by chain.now.edge.now chain.now.line)
        (map (λ (f : Bor SpecFeature). f.now) features.now)) }
{
    let mut edits = Vec::new(alloc);
    edits.push(Edit::Set(Rec::V(first_part(alloc, cut, chain.edge)?)))?;
    edits.push(Edit::Add(Rec::V(second_part(alloc, cut, chain)?)))?;
    edits.push(Edit::Add(Rec::V(new_node(alloc, cut, chain.edge)?)))?;
    push_feature_edits(alloc, &mut edits, &cut, features)?;
    Ok(Items::of_vec(edits))
}

/// Refuses a cut of an edge that isn't between its ends, or by names that are in use.
fn check_cut<B: Look, L: Ledger>(
    look: &B,
    cut: EdgeSplit,
    chain: &Chain,
    steps: &mut Steps<L>,
) -> Result<(), OpRefusal>
    ensures { let rule = cut_fault (B.cell look.now) cut (chain_by chain.now.edge.now chain.now.line) in
        MatchResult result (λ _. rule ≡ None) (IsRefusal rule) }
{
    check_place(cut, chain)?;
    check_free(look, cut.node, steps)?;
    check_free(look, cut.fresh, steps)
}

/// The edits of a split where the edge and the features that point to it can go one version on.
fn checked_edits(
    alloc: Global,
    cut: EdgeSplit,
    chain: &Chain,
    features: &[&Feature],
) -> Result<Items<Edit>, OpRefusal>
    requires { points_before cut < length chain.now.edge.now.plane }
    ensures { let fs = map (λ (f : Bor SpecFeature). f.now) features.now in let rule = version_end chain.now.edge.now fs in MatchResult result
        (λ edits. (rule ≡ None) × (edits ≡ edits_by_split cut (chain_by chain.now.edge.now chain.now.line) fs)) (IsRefusal rule) }
{
    check_versions(chain.edge, features)?;
    Ok(split_edits(alloc, cut, chain, features)?)
}

/// The edits of a split, unless something but their form refuses it.
fn checked_split<B: Look, L: Ledger>(
    alloc: Global,
    look: &B,
    cut: EdgeSplit,
    steps: &mut Steps<L>,
) -> Result<Items<Edit>, OpRefusal>
    ensures { MatchResult result
        (λ edits. (edits ≡ all_edits (B.cell look.now) cut) ×
        ((nall : ℕ) → split_refusal nall (B.cell look.now) cut ≡ form_refused nall (all_edits (B.cell look.now) cut)))
        (λ refusal. (nall : ℕ) → IsRefusal (split_refusal nall (B.cell look.now) cut) refusal) }
{
    let chain = chain_named(alloc, look, cut.edge, steps)?;
    check_cut(look, cut, &chain, steps)?;
    let features = features_at(alloc, look, &[cut.edge], steps)?;
    checked_edits(alloc, cut, &chain, features.as_slice())
}

/// Splits an edge (S-57 Part 2, 2.2.1.2; Part 3, 7.7.1.4): the edge with the number `edge` (RCID) at its point `at`, counted from 1 at its beginning node,
/// by a new connected node `node` and a new edge `fresh`, which goes from there to the edge's end node. The edit set is at the level `nall`. It has
/// the edge, the new edge, the new node and each feature that points to the edge, ascending: its spatial pointer becomes two with the same codes, in the order
/// in which it goes along the edges. The edge and these features go one version on (RVER).
///
/// Every feature runs where it ran, and both edges are used by areas as the edge was.
///
/// An `Err` is the first cause in this order: `NoEdge`, `BadPlace`, `NameTaken` of the node, then of the new edge, `VersionEnd` and `Form`; or out
/// of memory.
pub fn split<B: Look, L: Ledger>(
    alloc: Global,
    look: &B,
    edge: u32,
    at: u32,
    node: u32,
    fresh: u32,
    nall: u8,
    steps: &mut Steps<L>,
) -> Result<EditSet, OpRefusal>
    ensures { let cut = split_by edge at node fresh in MatchResult result (IsSplit nall (B.cell look.now) cut)
        (IsRefusal (split_refusal nall (B.cell look.now) cut)) }
{
    look.known();
    let cut = EdgeSplit::of_numbers(edge, at, node, fresh);
    let edits = checked_split(alloc, look, cut, steps)?;
    let set = set_of(alloc, edits.as_slice(), nall)?;
    set.known();
    Ok(set)
}
