//! What the subjects of a generated cell read, kept in an index.

ghost use Rattle.std.specs.Prelude.{◌≡◌, ◌<◌, IsTrue};
ghost use Rattle.rule_spec.specs.Affected.{is_single};

use crate::indexes::readers_of_head;
use cell_make::make_cell;
use cell_spec::Subject;
use chain_topo::{Steps, edge_of};
use depend_map::{DependMap, ReadChange};
use look_counter::start_counter;
use record_store::RecordStore;
use s57_types::{Kind, Rec};
use std::alloc::{AllocError, Global};
use std::marker::Brand;
use std::sync::ledger::{Blank, Ledger};
use subject_rows::row_of;

/// The most squares on a side of a cell.
const SIDE_LIMIT: u32 = 100;

/// Appends what a subject reads.
fn push_reads<L: Ledger>(
    alloc: Global,
    store: &RecordStore,
    subject: Subject,
    changes: &mut Vec<ReadChange>,
    steps: &mut Steps<L>,
) -> Result<(), AllocError>
    requires { IsTrue (is_single subject) }
{
    let row = row_of(alloc, store, subject, steps)?;
    let reads = Some(row.reads);
    Ok(changes.push(ReadChange { subject, reads })?)
}

/// Appends what a record reads, its side if it is an edge, and its identifier if it is a feature.
fn push_all_reads<L: Ledger>(
    alloc: Global,
    store: &RecordStore,
    rec: &Rec,
    changes: &mut Vec<ReadChange>,
    steps: &mut Steps<L>,
) -> Result<(), AllocError> {
    let name = rec.name();
    push_reads(alloc, store, Subject::Rec(name), changes, steps)?;
    if edge_of(rec).is_some() {
        push_reads(alloc, store, Subject::Side(name), changes, steps)?;
    }
    if let Rec::F(feature) = rec {
        push_reads(alloc, store, Subject::Ident(feature.foid), changes, steps)?;
    }
    Ok(())
}

fn reads_of<L: Ledger>(
    alloc: Global,
    store: &RecordStore,
    blank: Blank,
) -> Result<Vec<ReadChange>, AllocError>
    requires name { blank.name ≡ L.name }
    requires parts { blank.parts ≡ L.parts }
    requires some_part { 0 < L.parts }
{
    let mut steps = start_counter::<L>(blank);
    let mut changes = Vec::new(alloc);
    for kind in [Kind::Vc, Kind::Ve, Kind::Fe] {
        for rec in store.walk(kind) {
            push_all_reads(alloc, store, rec, &mut changes, &mut steps)?;
        }
    }
    Ok(changes)
}

/// How many subjects a generated cell of so many squares on a side has and, if they are kept, how many of them read the head; or 0
/// where there is no such cell.
pub fn outcome(alloc: Global, are_kept: bool, side: u32) -> Result<u64, AllocError> {
    if side == 0 || side > SIDE_LIMIT {
        return Ok(0);
    }
    let store = RecordStore::load(alloc, make_cell(alloc, side)?)?;
    let changes = reads_of::<Brand>(alloc, &store, Blank::new(1))?;
    let mut map = DependMap::make();
    if are_kept {
        map.install(map.plan(alloc, &changes)?);
    }
    Ok(readers_of_head(&map).wrapping_add(changes.len() as u64))
}
