//! The indexes of read sets and of tiles: filled, then changed at one subject or name at a time.

use crate::held::{copies_of, hold};
use crate::lookups::number_below;
use crate::squares;
use crate::table::next_number;
use cell_spec::{Key, Keys, Subject, ascending_keys, orders_are_by_parts};
use depend_map::{DependMap, ReadChange};
use row_table::is_ascending;
use s57_types::{Duplicate, Kind, Plane, RecName};
use std::alloc::{AllocError, Global};
use tile_index::{TileChange, TileIndex};

/// How many changes a case makes.
const CHANGES: u32 = 100_000;

/// How many older indexes live beside the last, in the cases that hold some.
const HELD: usize = 16;

/// How far two neighbouring nodes lie apart, and how many lie in a row.
const STEP: u32 = 40_000;

const ROW: u32 = 512;

/// What is done with an index.
#[derive(Clone, Copy)]
pub enum Work {
    /// Features that each read themselves, two random edges and the head are kept, and changes are made, each of which gives one feature
    /// two other edges.
    Reads,
    /// Then each is planned and installed, while sixteen older indexes are held.
    ReadPlans,
    /// Nodes on a grid are kept, and changes are made, each of which moves one node into a neighbouring tile.
    Tiles,
    /// Then each is planned and installed, while sixteen older indexes are held.
    TilePlans,
    /// After `Tiles`, the mates of each of these nodes are asked for.
    Mates,
    /// What the subjects of a generated cell read is found out; the size is how many squares lie on a side.
    Squares,
    /// Then an index keeps it.
    Load,
}

impl Work {
    /// The work of a name within the group.
    pub fn of(name: &str) -> Option<Work> {
        match name {
            "reads" => Some(Work::Reads),
            "read_plans" => Some(Work::ReadPlans),
            "tiles" => Some(Work::Tiles),
            "tile_plans" => Some(Work::TilePlans),
            "mates" => Some(Work::Mates),
            "squares" => Some(Work::Squares),
            "load" => Some(Work::Load),
            _ => None,
        }
    }
}

fn name_key(kind: Kind, id: u32) -> Key {
    Key::Name(RecName { kind, id })
}

/// What a feature reads: itself, two edges and the head.
fn keys_of(alloc: Global, id: u32, seed: u64, size: u32) -> Result<Keys, AllocError> {
    let first = name_key(Kind::Ve, number_below(seed, size));
    let last = name_key(Kind::Ve, number_below(next_number(seed), size));
    let own = name_key(Kind::Fe, id);
    let head = Key::Name(RecName::of_head());
    Ok(ascending_keys(vec![in alloc; first, last, own, head]?))
}

fn read_rows(alloc: Global, size: u32) -> Result<Vec<(Subject, Keys)>, AllocError> {
    let mut rows = Vec::with_capacity(alloc, size as usize)?;
    for id in 0..size {
        let subject = Subject::Rec(RecName { kind: Kind::Fe, id });
        rows.push((
            subject,
            keys_of(alloc, id, next_number(u64::from(id)), size)?,
        ))?;
    }
    Ok(rows)
}

fn map_of(alloc: Global, size: u32) -> Result<DependMap, AllocError> {
    orders_are_by_parts();
    let rows = read_rows(alloc, size)?;
    if !is_ascending(&rows) {
        return Ok(DependMap::make());
    }
    DependMap::from_rows(alloc, rows)
}

fn read_changes(alloc: Global, size: u32) -> Result<Vec<ReadChange>, AllocError> {
    let mut changes = Vec::new(alloc);
    let mut seed = 6;
    for _ in 0..CHANGES {
        seed = next_number(seed);
        let id = number_below(seed, size);
        changes.push(ReadChange {
            subject: Subject::Rec(RecName { kind: Kind::Fe, id }),
            reads: Some(keys_of(alloc, id, next_number(seed), size)?),
        })?;
    }
    Ok(changes)
}

/// Plans and installs changes, and gives the map before them.
fn change_map(
    alloc: Global,
    map: &mut DependMap,
    changes: &[ReadChange],
) -> Result<DependMap, AllocError> {
    let last = map.copy(alloc)?;
    map.install(last.plan(alloc, changes)?);
    Ok(last)
}

fn change_reads(
    alloc: Global,
    map: &mut DependMap,
    changes: &[ReadChange],
    held: &mut [DependMap],
) -> Result<(), AllocError> {
    for round in 0..changes.len() {
        let last = change_map(alloc, map, &changes[round..round + 1])?;
        hold(held, round, last);
    }
    Ok(())
}

/// Makes the changes while the last maps are held.
fn change_beside_held(
    alloc: Global,
    map: &mut DependMap,
    changes: &[ReadChange],
) -> Result<(), AllocError> {
    let mut held = copies_of(alloc, map, HELD)?;
    change_reads(alloc, map, changes, &mut held)
}

/// How many subjects read the head.
pub fn readers_of_head(map: &DependMap) -> u64 {
    let mut count = 0u64;
    for _ in map.readers(Key::Name(RecName::of_head())) {
        count = count.wrapping_add(1);
    }
    count
}

fn outcome_of_reads(alloc: Global, plans: bool, size: u32) -> Result<u64, AllocError> {
    let mut map = map_of(alloc, size)?;
    let changes = read_changes(alloc, size)?;
    if plans {
        change_beside_held(alloc, &mut map, &changes)?;
    }
    Ok(readers_of_head(&map).wrapping_add(changes.len() as u64))
}

/// A coordinate of a node by its number in a row or in a column.
fn coordinate(place: u32) -> i32 {
    (place % 40_000 * STEP) as i32
}

/// A change that puts a node at its place on the grid, or so many units further north.
fn node_at(alloc: Global, id: u32, north: u32) -> Result<TileChange, AllocError> {
    let point = (
        coordinate(id / ROW).wrapping_add((north % 100_000) as i32),
        coordinate(id % ROW),
    );
    Ok(TileChange {
        name: RecName { kind: Kind::Vc, id },
        points: Some(Plane::of_vec(vec![in alloc; point]?)),
    })
}

fn nodes(alloc: Global, size: u32) -> Result<Vec<TileChange>, AllocError> {
    let mut changes = Vec::with_capacity(alloc, size as usize)?;
    for id in 0..size {
        changes.push(node_at(alloc, id, 0)?)?;
    }
    Ok(changes)
}

fn grid(alloc: Global, size: u32) -> Result<TileIndex, AllocError> {
    let mut index = TileIndex::make();
    change_tiles(alloc, &mut index, &nodes(alloc, size)?)?;
    Ok(index)
}

fn moves(alloc: Global, size: u32) -> Result<Vec<TileChange>, AllocError> {
    let mut changes = Vec::new(alloc);
    let mut seed = 7;
    for _ in 0..CHANGES {
        seed = next_number(seed);
        changes.push(node_at(alloc, number_below(seed, size), 65_536)?)?;
    }
    Ok(changes)
}

/// Plans and installs changes, and gives the index before them.
fn change_tiles(
    alloc: Global,
    index: &mut TileIndex,
    changes: &[TileChange],
) -> Result<TileIndex, AllocError> {
    let last = index.copy(alloc)?;
    index.install(last.plan(alloc, changes)?);
    Ok(last)
}

fn move_nodes(
    alloc: Global,
    index: &mut TileIndex,
    changes: &[TileChange],
    held: &mut [TileIndex],
) -> Result<(), AllocError> {
    for round in 0..changes.len() {
        let last = change_tiles(alloc, index, &changes[round..round + 1])?;
        hold(held, round, last);
    }
    Ok(())
}

/// Moves the nodes while the last indexes are held.
fn move_beside_held(
    alloc: Global,
    index: &mut TileIndex,
    changes: &[TileChange],
) -> Result<(), AllocError> {
    let mut held = copies_of(alloc, index, HELD)?;
    move_nodes(alloc, index, changes, &mut held)
}

fn sum_of_mates(
    alloc: Global,
    index: &TileIndex,
    changes: &[TileChange],
) -> Result<u64, AllocError> {
    let mut sum = 0u64;
    for change in changes {
        sum = sum.wrapping_add(index.mates(alloc, change.name)?.len() as u64);
    }
    Ok(sum)
}

fn outcome_of_tiles(alloc: Global, work: Work, size: u32) -> Result<u64, AllocError> {
    let mut index = grid(alloc, size)?;
    let changes = moves(alloc, size)?;
    if matches!(work, Work::Mates) {
        return sum_of_mates(alloc, &index, &changes);
    }
    if matches!(work, Work::TilePlans) {
        move_beside_held(alloc, &mut index, &changes)?;
    }
    Ok(changes.len() as u64)
}

/// What the work answers of an index of so many features or nodes, or of a cell of so many squares on a side.
pub fn outcome(alloc: Global, work: Work, size: u32) -> Result<u64, AllocError> {
    match work {
        Work::Reads => outcome_of_reads(alloc, false, size),
        Work::ReadPlans => outcome_of_reads(alloc, true, size),
        Work::Tiles | Work::TilePlans | Work::Mates => outcome_of_tiles(alloc, work, size),
        Work::Squares => squares::outcome(alloc, false, size),
        Work::Load => squares::outcome(alloc, true, size),
    }
}
