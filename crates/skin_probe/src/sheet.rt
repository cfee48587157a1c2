//! What is told of the areas round a point.

ghost use Rattle.std.specs.Prelude.{◌≡◌, IfOk, filter, map};
ghost use Rattle.skin_probe.specs.Sheet.{goes_round as round, wind_of, winds_round};
ghost use Rattle.skin_probe.specs.Sorts.{is_of_sort};
ghost use Rattle.skin_probe.specs.Totals.{winding_total};
ghost use Rattle.skin_probe.specs.Winding.{sum_of};

use crate::area::{AreaSort, areas_of};
use crate::winding::{Probe, plus};
use chain_topo::Steps;
use record_store::RecordStore;
use s57_types::{Feature, Items};
use std::alloc::{AllocError, Global};
use std::sync::ledger::Ledger;

/// Areas in file order, each by its number, with its winding number.
pub type Winds = Items<(u32, i64)>;

/// The areas that go round a point, which have a winding number other than 0.
#[derive(Debug, Drop)]
pub struct ProbeSheet {
    /// Those of Group 1.
    pub group1: Winds,
    /// Those of the coverage.
    pub cover: Winds,
    /// The sums of all winding numbers of areas of Group 1 and of areas of the coverage.
    pub sums: (i64, i64),
    /// How many findings SideUnbalanced the cell has.
    pub unbalanced: u32,
}

/// What is told of the areas of a sort: those that go round the point, and the sum of the winding numbers of all.
#[derive(Drop)]
pub(crate) struct SortWinds {
    pub(crate) rounds: Winds,
    pub(crate) total: i64,
}

/// An area with its winding number.
fn wind_at<L: Ledger>(
    probe: &Probe<'_, RecordStore>,
    area: &Feature,
    steps: &mut Steps<L>,
) -> Result<(u32, i64), AllocError>
    ensures { IfOk result (λ wind. wind ≡ wind_of probe.now.look.now probe.now.at area.now) }
{
    let winding = probe.area(area, steps)?;
    Ok((area.name.id, winding))
}

/// Each of some areas with its winding number.
fn winds_of<L: Ledger>(
    probe: &Probe<'_, RecordStore>,
    areas: &[&Feature],
    steps: &mut Steps<L>,
) -> Result<Vec<(u32, i64)>, AllocError>
    ensures { IfOk result (λ winds. winds.items ≡ map (wind_of probe.now.look.now probe.now.at) (map (λ f. f.now) areas.now)) }
{
    let mut winds = Vec::new(probe.alloc);
    for area in areas {
        winds.push(wind_at(probe, area, steps)?)?;
    }
    Ok(winds)
}

fn total_of(winds: &[(u32, i64)]) -> Result<i64, AllocError>
    ensures { IfOk result (λ total. total ≡ sum_of (λ wind. wind.1) winds.now) }
{
    let mut total = 0;
    for wind in winds {
        total = plus(total, wind.1)?;
    }
    Ok(total)
}

/// Those that go round the point.
fn going_round(alloc: Global, winds: &[(u32, i64)]) -> Result<Winds, AllocError>
    ensures { IfOk result (λ rounds. rounds ≡ filter round winds.now) }
{
    let mut rounds = Vec::new(alloc);
    for wind in winds {
        if wind.1 != 0 {
            rounds.push(*wind)?;
        }
    }
    Ok(Winds::of_vec(rounds))
}

/// The areas of a sort that go round a point, and the sum of the winding numbers of all of them.
pub(crate) fn probe_sort<L: Ledger>(
    probe: &Probe<'_, RecordStore>,
    sort: AreaSort,
    steps: &mut Steps<L>,
) -> Result<SortWinds, AllocError>
    ensures rounds { IfOk result (λ winds. winds.rounds ≡ winds_round (is_of_sort sort) probe.now.look.now probe.now.at) }
    ensures total { IfOk result (λ winds. winds.total ≡ winding_total (is_of_sort sort) probe.now.look.now probe.now.at) }
{
    let areas = areas_of(probe.alloc, probe.look, sort)?;
    let areas = areas.as_slice();
    let winds = winds_of(probe, areas, steps)?;
    let winds = winds.as_slice();
    let total = total_of(winds)?;
    let rounds = going_round(probe.alloc, winds)?;
    Ok(SortWinds { rounds, total })
}
