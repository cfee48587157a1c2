//! What the edges of a boundary sweep.

ghost use Rattle.std.specs.Prelude.{◌≡◌, IfOk, List, option_map, true};
ghost use Rattle.std.specs.List.{All};
ghost use Rattle.std.specs.Option.{option_copied};
ghost use Rattle.s57_types.specs.{declared.cell.Cell.{Cell as SpecCell}, declared.record.End.{End as SpecEnd}};
ghost use Rattle.cell_spec.specs.{declared.key.Key.{Key as SpecKey}, declared.key.Key.TheVariants.{Name as KeyName}};
ghost use Rattle.near_records.specs.Near.{has_key};
ghost use Rattle.rule_spec.specs.{EdgePoints.{line_of}, Records.{edge_named as spec_edge}};
ghost use Rattle.check_area.specs.Sweeps.{sweep_between as spec_sweep_between, sweep_of};

use crate::sweep::{LineSweep, way_along, way_to};
use chain_topo::edge_of;
use check_words::{BEGINNING_NODE, END_NODE};
use geo_exact::Point;
use near_records::{LineEnd, Near, line_end};
use s57_types::{RecName, Vector};
use std::alloc::AllocError;

/// What a line between two nodes sweeps along its points.
fn sweep_between(begins: LineEnd, points: &[Point], ends: LineEnd) -> Result<LineSweep, AllocError>
    ensures { IfOk result (λ sweep. sweep ≡ spec_sweep_between begins points.now ends) }
{
    let inner = way_along(begins.at, points)?;
    let whole = way_to(inner, ends.at)?;
    Ok(LineSweep {
        begins: begins.node,
        ends: ends.node,
        first: begins.at,
        last: ends.at,
        swept: whole.swept,
    })
}

/// What the line of an edge sweeps, if the edge has one.
pub(crate) fn sweep_of_edge<N: Near>(
    near: &N,
    edge: &Vector,
) -> Result<Option<LineSweep>, AllocError>
    ensures { (c : SpecCell) (keys : List SpecKey) → N.tells near.now c keys
        → All (λ (e : SpecEnd). has_key keys (KeyName e.to) ≡ true) edge.now.ends
        → IfOk result (λ sweep. sweep ≡ option_map sweep_of (line_of c edge.now)) }
{
    let begins = line_end(near, BEGINNING_NODE, edge);
    let ends = line_end(near, END_NODE, edge);
    match (begins, ends) {
        (Some(begins), Some(ends)) => {
            let sweep = sweep_between(begins, edge.plane.as_slice(), ends)?;
            Ok(Some(sweep))
        }
        _ => Ok(None),
    }
}

/// The edge of a name, if it is one's.
pub(crate) fn edge_named<N: Near>(near: &N, name: RecName) -> Option<&Vector>
    ensures { (c : SpecCell) (keys : List SpecKey) → N.tells near.now c keys → has_key keys (KeyName name) ≡ true → option_copied result ≡ spec_edge c name }
{
    edge_of(near.record(name)?)
}
