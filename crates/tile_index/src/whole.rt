//! The index of many names at once.

ghost use Rattle.std.specs.Prelude.{◌≡◌, ◌&&◌, ◌||◌, [], IfOk, OnOk, map, true};
ghost use Rattle.std.specs.List.{list_all};
ghost use Rattle.std.specs.List.Sorted.{IsStrictlySortedBy};
ghost use Rattle.std.specs.Ordering.{is_eq};
ghost use Rattle.s57_types.specs.declared.name.RecName.{RecName as SpecRecName};
ghost use Rattle.cell_spec.specs.Names.{name_order};
ghost use Rattle.finding_laws.specs.Tables.{Covering};
ghost use Rattle.tile_index.specs.Changes.{after_changes, coverings_given, oversized_in};
ghost use Rattle.tile_index.specs.Tilings.{Tile as SpecTile, covers, has_some_tile, is_paired, is_row_under};
ghost use Rattle.tile_index.specs.declared.change.TileChange.{TileChange as SpecChange};

use crate::change::TileChange;
use crate::cover::Cover;
use crate::index::{TileIndex, covering_given};
use crate::range::Tile;
use cell_spec::{distinct, orders_are_by_parts};
use pair_set::{PairRow, PairSet};
use s57_types::RecName;
use shared_table::{Shared, SharedTable};
use std::alloc::{AllocError, Global};

// A name with its covering, as a row of an index.
type CoverRow = (RecName, Shared<Cover>);

impl TileIndex {
    /// The index after changes of different names, in ascending order of these, of one that keeps no name. All names are put at once, which
    /// costs far less than one after the other.
    ///
    /// An `Err` means out of memory.
    pub fn from_changes(alloc: Global, changes: Vec<TileChange>) -> Result<TileIndex, AllocError>
        requires { IsStrictlySortedBy name_order (map (λ (change : SpecChange). change.name) changes.items) }
        ensures { IfOk result (λ index. index ≡ after_changes [] changes.items) }
    {
        orders_are_by_parts();
        let rows = rows_of(alloc, changes)?;
        let in_tiles = PairSet::from_ascending(alloc, distinct(pairs_of(alloc, &rows)?))?;
        let oversized = SharedTable::from_ascending(alloc, oversized_of(alloc, &rows)?)?;
        let kept = SharedTable::from_ascending(alloc, rows)?;
        Ok(TileIndex {
            kept,
            in_tiles,
            oversized,
        })
    }
}

// The coverings that changes give, each with its name. The points go with their change.
fn rows_of(alloc: Global, changes: Vec<TileChange>) -> Result<Vec<CoverRow>, AllocError>
    ensures { IfOk result (λ rows. rows.items ≡ coverings_given changes.items) }
{
    let mut rows = Vec::new(alloc);
    for change in changes {
        if let Some(cover) = covering_given(alloc, &change)? {
            rows.push((change.name, Shared::make(alloc, cover)?))?;
        }
    }
    Ok(rows)
}

// Appends the tiles of a covering, each with the name.
fn push_pairs(
    alloc: Global,
    pairs: &mut Vec<PairRow<Tile, RecName>>,
    name: RecName,
    cover: &Cover,
) -> Result<(), AllocError>
    ensures ranges { list_all has_some_tile cover.now.ranges ≡ true }
    ensures pairs { OnOk result ((t : SpecTile) (n : SpecRecName) →
        is_paired pairs.new.items t n ≡ (is_paired pairs.old.items t n || (is_eq (name_order name n) && covers cover.now t))) }
{
    for tile in &cover.tiles(alloc)? {
        pairs.push(((*tile, name), ()))?;
    }
    Ok(())
}

// The tiles of all coverings, each with the name.
fn pairs_of(alloc: Global, rows: &[CoverRow]) -> Result<Vec<PairRow<Tile, RecName>>, AllocError>
    ensures ranges { IfOk result (λ pairs. list_all (λ (row : SpecRecName × Covering). list_all has_some_tile row.1.ranges) rows.now ≡ true) }
    ensures pairs { IfOk result (λ pairs. (t : SpecTile) (n : SpecRecName) → is_paired pairs.items t n ≡ is_row_under rows.now t n) }
{
    let mut pairs = Vec::new(alloc);
    for row in rows {
        push_pairs(alloc, &mut pairs, row.0, &row.1)?;
    }
    Ok(pairs)
}

// The names of oversized coverings.
fn oversized_of(alloc: Global, rows: &[CoverRow]) -> Result<Vec<(RecName, ())>, AllocError>
    ensures { IfOk result (λ names. names.items ≡ oversized_in rows.now) }
{
    let mut names = Vec::new(alloc);
    for row in rows {
        if row.1.is_oversized() {
            names.push((row.0, ()))?;
        }
    }
    Ok(names)
}
