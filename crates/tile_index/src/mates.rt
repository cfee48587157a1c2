//! Names that are gathered from tiles.

ghost use Rattle.std.specs.Prelude.{◌≡◌, ◌||◌, ◌++◌, IfOk, OnOk, filter, not};
ghost use Rattle.std.specs.List.{list_any};
ghost use Rattle.std.specs.Map.{keys_of};
ghost use Rattle.s57_types.specs.declared.name.RecName.{RecName as SpecRecName};
ghost use Rattle.cell_spec.specs.Names.{name_order};
ghost use Rattle.std.specs.Ordering.{is_eq};
ghost use Rattle.pair_set.specs.Pairs.{has_pair, is_among};
ghost use Rattle.tile_index.specs.Tilings.{Tile as SpecTile, tile_order};

use crate::range::Tile;
use cell_spec::orders_are_by_parts;
use pair_set::PairSet;
use s57_types::{Kind, RecName};
use shared_table::SharedTable;
use std::alloc::{AllocError, Global};

// No name is below this one.
const LEAST: RecName = RecName {
    kind: Kind::Vi,
    id: 0,
};

/// A name has mostly fewer mates than this in the tiles under it, so that their list seldom grows.
const ROOM: usize = 64;

/// Appends the names of rows.
pub(crate) fn push_names<V: Drop>(
    names: &mut Vec<RecName>,
    rows: &SharedTable<RecName, V>,
) -> Result<(), AllocError>
    ensures { OnOk result (names.new.items ≡ names.old.items ++ keys_of rows.now) }
{
    for row in rows.rows() {
        names.push(row.0)?;
    }
    Ok(())
}

// Appends the names under a tile.
fn push_under(
    names: &mut Vec<RecName>,
    in_tiles: &PairSet<Tile, RecName>,
    tile: Tile,
) -> Result<(), AllocError>
    ensures { OnOk result ((n : SpecRecName) → is_among name_order names.new.items n
        ≡ (is_among name_order names.old.items n || has_pair tile_order name_order in_tiles.now tile n)) }
{
    orders_are_by_parts();
    for name in in_tiles.seconds(tile, LEAST) {
        names.push(name)?;
    }
    Ok(())
}

/// The names under some tiles.
pub(crate) fn names_under(
    alloc: Global,
    in_tiles: &PairSet<Tile, RecName>,
    tiles: &[Tile],
) -> Result<Vec<RecName>, AllocError>
    ensures { IfOk result (λ names. (n : SpecRecName) → is_among name_order names.items n
        ≡ list_any (λ (t : SpecTile). has_pair tile_order name_order in_tiles.now t n) tiles.now) }
{
    let mut names = Vec::with_capacity(alloc, ROOM)?;
    for tile in tiles {
        push_under(&mut names, in_tiles, *tile)?;
    }
    Ok(names)
}

/// The names but one. It takes no memory.
pub(crate) fn without(mut names: Vec<RecName>, name: RecName) -> Vec<RecName>
    ensures { result.items ≡ filter (λ (m : SpecRecName). not (is_eq (name_order m name))) names.items }
{
    orders_are_by_parts();
    names.retain(|other| !other.cmp(&name).is_eq());
    names
}
