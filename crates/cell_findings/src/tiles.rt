//! The tiles of a cell that is looked into.

ghost use Rattle.std.specs.Prelude.{◌≡◌, ◌≤◌, ◌+◌, ◌*◌, ◌++◌, [], ◌∷◌, IfOk, OnOk, length, option_map};
ghost use Rattle.std.specs.List.{flat_map};
ghost use Rattle.rule_spec.specs.EdgePoints.{node_position};
ghost use Rattle.finding_laws.specs.Tables.{IsCoveringsOf};
ghost use Rattle.cell_findings.specs.Judged.{names_in};
ghost use Rattle.cell_findings.specs.Points.{changes_at, points_of};

use crate::part::position_at;
use chain_topo::{Look, Steps, edge_points};
use s57_types::{Items, Kind, Plane, RecName};
use std::alloc::{AllocError, Global};
use std::sync::ledger::Ledger;
use tile_index::{TileChange, TileIndex, changes_set_their_names};

/// The position of a connected node as the only point.
fn node_points<B: Look, L: Ledger>(
    alloc: Global,
    look: &B,
    name: RecName,
    steps: &mut Steps<L>,
) -> Result<Option<Plane>, AllocError>
    ensures points { IfOk result (λ points. points ≡ option_map (λ p. p ∷ []) (node_position (B.cell look.now) name)) }
    ensures steps { steps.new ≤ steps.old + 1 }
{
    match position_at(look, name, steps) {
        Some(place) => Ok(Some(Items::of_vec(vec![in alloc; place]?))),
        None => Ok(None),
    }
}

/// The points of a connected node with one position, or of an edge with a line.
fn points_at<B: Look, L: Ledger>(
    alloc: Global,
    look: &B,
    name: RecName,
    steps: &mut Steps<L>,
) -> Result<Option<Plane>, AllocError>
    ensures points { IfOk result (λ points. points ≡ points_of (B.cell look.now) name) }
    ensures steps { steps.new ≤ steps.old + 3 }
{
    match name.kind {
        Kind::Vc => node_points(alloc, look, name, steps),
        Kind::Ve => edge_points(alloc, look, name, steps),
        _ => Ok(None),
    }
}

fn push_change<B: Look, L: Ledger>(
    alloc: Global,
    changes: &mut Vec<TileChange>,
    look: &B,
    name: RecName,
    steps: &mut Steps<L>,
) -> Result<(), AllocError>
    ensures changes { OnOk result (changes.new.items ≡ changes.old.items ++ changes_at (B.cell look.now) name) }
    ensures steps { steps.new ≤ steps.old + 3 }
{
    if let Some(points) = points_at(alloc, look, name, steps)? {
        changes.push(TileChange {
            name,
            points: Some(points),
        })?;
    }
    Ok(())
}

/// Names are put at their points.
fn changes_of<B: Look, L: Ledger>(
    alloc: Global,
    look: &B,
    names: &[RecName],
    steps: &mut Steps<L>,
) -> Result<Vec<TileChange>, AllocError>
    ensures changes { IfOk result (λ changes. changes.items ≡ flat_map (changes_at (B.cell look.now)) names.now) }
    ensures steps { steps.new ≤ steps.old + 3 * length names.now }
{
    let mut changes = Vec::new(alloc);
    for name in names {
        push_change(alloc, &mut changes, look, *name, steps)?;
    }
    Ok(changes)
}

/// The index of the tiles under a cell's connected nodes and edges, from the ascending names of its records. It looks up at most three times
/// for each name.
///
/// An `Err` means out of memory.
pub fn tiles_of<B: Look, L: Ledger>(
    alloc: Global,
    look: &B,
    names: &[RecName],
    steps: &mut Steps<L>,
) -> Result<TileIndex, AllocError>
    requires { names.now ≡ names_in (B.cell look.now) }
    ensures tiles { IfOk result (λ tiles. IsCoveringsOf (B.cell look.now) tiles) }
    ensures steps { steps.new ≤ steps.old + 3 * length names.now }
{
    changes_set_their_names();
    let changes = changes_of(alloc, look, names, steps)?;
    let tiles = TileIndex::from_changes(alloc, changes)?;
    Ok(tiles)
}
