//! Ranges of tiles, and the tiles of one.

ghost use Rattle.std.specs.Prelude.{◌≡◌, ◌*◌, ◌&&◌, ◌||◌, OnOk, nat_lt};
ghost use Rattle.std.specs.Ordering.{int_cmp, is_eq};
ghost use Rattle.geometry_spec.specs.Tiles.{count_from_to as spec_count};
ghost use Rattle.finding_laws.specs.Tables.{is_oversized_range};
ghost use Rattle.pair_set.specs.Pairs.{is_among};
ghost use Rattle.tile_index.specs.Tilings.{Tile as SpecTile, has_tile, lies_within, tile_order};

use geometry_spec::TileRange;
use std::alloc::AllocError;

/// A tile by its row, counted northwards, and its column, counted eastwards.
pub(crate) type Tile = (i32, i32);

/// A range with more tiles than this one has so many that they aren't listed.
const LISTED_TILES: u64 = 64;

// How many numbers lie from one to another, both included.
fn count_from_to(low: i32, high: i32) -> u64
    ensures { result ≡ spec_count low high }
{
    if high < low {
        return 0;
    }
    u64::from(high.abs_diff(low)) + 1
}

// Whether so many rows and columns have over 64 tiles. The product is cut off at the greatest number, far over the limit.
#[tactic(auto, using(crate::proofs::Counts::over_cut))]
fn are_over_limit(rows: u64, columns: u64) -> bool
    ensures { result ≡ nat_lt 64 (rows * columns) }
{
    rows.saturating_mul(columns) > LISTED_TILES
}

/// Whether a range has over 64 tiles.
pub(crate) fn is_oversized(range: TileRange) -> bool
    ensures { result ≡ is_oversized_range range }
{
    are_over_limit(
        count_from_to(range.row_from, range.row_to),
        count_from_to(range.col_from, range.col_to),
    )
}

// Appends a tile.
fn push_tile(tiles: &mut Vec<Tile>, row: i32, column: i32) -> Result<(), AllocError>
    ensures { OnOk result ((t : SpecTile) → is_among tile_order tiles.new.items t
        ≡ (is_among tile_order tiles.old.items t || (is_eq (int_cmp t.0 row) && is_eq (int_cmp t.1 column)))) }
{
    tiles.push((row, column))?;
    Ok(())
}

// Appends the tiles of a row from a column to another. The last one is put by itself, since no column may come after it.
fn push_row(tiles: &mut Vec<Tile>, row: i32, from: i32, to: i32) -> Result<(), AllocError>
    ensures { OnOk result ((t : SpecTile) → is_among tile_order tiles.new.items t
        ≡ (is_among tile_order tiles.old.items t || (is_eq (int_cmp t.0 row) && lies_within from to t.1))) }
{
    if to < from {
        return Ok(());
    }
    for column in from..to {
        push_tile(tiles, row, column)?;
    }
    push_tile(tiles, row, to)
}

// Appends the tiles from a row to another and from a column to another.
fn push_rows(
    tiles: &mut Vec<Tile>,
    south: i32,
    north: i32,
    west: i32,
    east: i32,
) -> Result<(), AllocError>
    ensures { OnOk result ((t : SpecTile) → is_among tile_order tiles.new.items t
        ≡ (is_among tile_order tiles.old.items t || (lies_within south north t.0 && lies_within west east t.1))) }
{
    if north < south {
        return Ok(());
    }
    for row in south..north {
        push_row(tiles, row, west, east)?;
    }
    push_row(tiles, north, west, east)
}

/// Appends the tiles of a range.
pub(crate) fn push_tiles(tiles: &mut Vec<Tile>, range: TileRange) -> Result<(), AllocError>
    ensures { OnOk result ((t : SpecTile) → is_among tile_order tiles.new.items t
        ≡ (is_among tile_order tiles.old.items t || has_tile range t)) }
{
    push_rows(
        tiles,
        range.row_from,
        range.row_to,
        range.col_from,
        range.col_to,
    )
}
