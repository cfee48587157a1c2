//! What lies under a connected node or an edge.

ghost use Rattle.std.specs.Prelude.{◌≡◌, IfOk, map, option_to_list, true};
ghost use Rattle.std.specs.List.{list_all, list_any};
ghost use Rattle.std.specs.List.Sorted.{IsStrictlySortedBy};
ghost use Rattle.cell_spec.specs.Ascending.{ascending};
ghost use Rattle.geometry_spec.specs.Points.{Point as SpecPoint};
ghost use Rattle.rule_spec.specs.Candidates.{tiles_under};
ghost use Rattle.rule_spec.specs.Records.{the_only};
ghost use Rattle.finding_laws.specs.Tables.{covering_of, range_order};
ghost use Rattle.pair_set.specs.Pairs.{is_among};
ghost use Rattle.tile_index.specs.Extents.{box_of_all, box_with as spec_box_with};
ghost use Rattle.tile_index.specs.Changes.{covering_if_any, segments_with as spec_segments_with};
ghost use Rattle.tile_index.specs.Tilings.{Tile as SpecTile, covers, has_some_tile, has_tile, range_with, is_oversized as spec_is_oversized, tile_order};

use crate::range::{Tile, is_oversized, push_tiles};
use cell_spec::distinct;
use check_words::{Segment, segments_of, the_only};
use geo_exact::{box_of, tiles_of};
use geometry_spec::{Box4, Point, TileRange, tiles_are_floors};
use line_boxes::united;
use s57_types::{Kind, RecName};
use std::alloc::{AllocError, Global};
use std::marker::Model;

/// The ranges of tiles under the segments of a connected node or an edge, ascending, each once, and the least box around them. Each range
/// has a tile.
#[derive(Debug)]
pub(crate) struct Cover {
    ranges: Vec<TileRange>,
    extent: Option<Box4>,
}

impl Drop for Cover {
    fn drop(self) {
        let Cover {
            ranges: _,
            extent: _,
        } = self;
    }
}

impl Model for Cover {
    ghost use Rattle.std.specs.Prelude.{◌≡◌, true};
    ghost use Rattle.std.specs.List.{list_all};
    ghost use Rattle.finding_laws.specs.Tables.{Covering};
    ghost use Rattle.tile_index.specs.Tilings.{has_some_tile};

    ghost Value = { Covering };

    ghost view = { λ c. record { ranges = c.ranges.items; extent = c.extent } };

    ghost invariant = { λ c. list_all has_some_tile c.ranges.items ≡ true };
}

impl Cover {
    /// Of a name with points: of a connected node with one point, or an edge with two or more. Others have none.
    pub(crate) fn of_points(
        alloc: Global,
        name: RecName,
        points: &[Point],
    ) -> Result<Option<Cover>, AllocError>
        ensures { IfOk result (λ cover. cover ≡ covering_if_any (spec_segments_with name points.now)) }
    {
        let segments = segments_with(alloc, name, points)?;
        if segments.is_empty() {
            return Ok(None);
        }
        Ok(Some(Cover::of_segments(alloc, &segments)?))
    }

    // The ranges under segments, and the box around them.
    #[tactic(auto, using(crate::proofs::Extents::box_is))]
    fn of_segments(alloc: Global, segments: &[Segment]) -> Result<Cover, AllocError>
        ensures { IfOk result (λ cover. cover ≡ covering_of segments.now) }
    {
        // So that each range has a tile.
        tiles_are_floors();
        Ok(Cover {
            ranges: ranges_under(alloc, segments)?,
            extent: extent_of(segments),
        })
    }

    /// The least box around the segments.
    pub(crate) fn extent(&self) -> Option<Box4>
        ensures { result ≡ self.now.extent }
    {
        self.extent
    }

    /// Whether one of the ranges has over 64 tiles.
    pub(crate) fn is_oversized(&self) -> bool
        ensures { result ≡ spec_is_oversized self.now }
    {
        self.ranges.iter().any(|range| is_oversized(*range))
    }

    /// Whether another covering has the same ranges.
    pub(crate) fn has_ranges_of(&self, other: &Cover) -> bool
        ensures { result ≡ true → self.now.ranges ≡ other.now.ranges }
    {
        self.ranges == other.ranges
    }

    // The ranges.
    fn ranges(&self) -> &[TileRange]
        ensures ranges { result.now ≡ self.now.ranges }
        ensures tiles { list_all has_some_tile self.now.ranges ≡ true }
    {
        &self.ranges
    }

    /// The tiles, ascending, each once; none of an oversized one.
    pub(crate) fn tiles(&self, alloc: Global) -> Result<Vec<Tile>, AllocError>
        ensures sorted { IfOk result (λ tiles. IsStrictlySortedBy tile_order tiles.items) }
        ensures tiles { IfOk result (λ tiles. (t : SpecTile) → is_among tile_order tiles.items t ≡ covers self.now t) }
        ensures ranges { list_all has_some_tile self.now.ranges ≡ true }
    {
        let ranges = self.ranges();
        if self.is_oversized() {
            return Ok(Vec::new(alloc));
        }
        Ok(distinct(tiles_listed(alloc, ranges)?))
    }
}

// The least box that holds a box and those of segments.
fn box_with(start: Box4, segments: &[Segment]) -> Box4
    ensures { result ≡ spec_box_with start segments.now }
{
    let mut around = start;
    for segment in segments {
        around = united(around, box_of(segment.0, segment.1));
    }
    around
}

// The least box around segments, if there are any.
fn extent_of(segments: &[Segment]) -> Option<Box4>
    ensures { result ≡ box_of_all segments.now }
{
    match segments {
        [first, ..] => Some(box_with(box_of(first.0, first.1), segments)),
        [] => None,
    }
}

// The tiles of ranges, one range after the other.
fn tiles_listed(alloc: Global, ranges: &[TileRange]) -> Result<Vec<Tile>, AllocError>
    ensures { IfOk result (λ tiles. (t : SpecTile) → is_among tile_order tiles.items t ≡ list_any (λ r. has_tile r t) ranges.now) }
{
    let mut tiles = Vec::new(alloc);
    for range in ranges {
        push_tiles(&mut tiles, *range)?;
    }
    Ok(tiles)
}

// The segment from a point to it, if there is a point.
fn segment_at(alloc: Global, place: Option<Point>) -> Result<Vec<Segment>, AllocError>
    ensures { IfOk result (λ segments. segments.items ≡ map (λ (p : SpecPoint). (p, p)) (option_to_list place)) }
{
    match place {
        Some(place) => Ok(vec![in alloc; (place, place)]?),
        None => Ok(Vec::new(alloc)),
    }
}

// The segments of a name with points.
fn segments_with(alloc: Global, name: RecName, points: &[Point]) -> Result<Vec<Segment>, AllocError>
    ensures { IfOk result (λ segments. segments.items ≡ spec_segments_with name points.now) }
{
    match name.kind {
        Kind::Vc => segment_at(alloc, the_only(points)),
        Kind::Ve => segments_of(alloc, points),
        _ => Ok(Vec::new(alloc)),
    }
}

// The sides of a range: south, north, west, east. Ranges are ordered by them.
type Sides = (i32, i32, i32, i32);

// The sides of the range under a segment.
fn sides_of(segment: Segment) -> Sides
    ensures { range_with result ≡ tiles_under segment }
{
    let range = tiles_of(box_of(segment.0, segment.1));
    (range.row_from, range.row_to, range.col_from, range.col_to)
}

// The sides of the ranges under segments.
fn sides_under(alloc: Global, segments: &[Segment]) -> Result<Vec<Sides>, AllocError>
    ensures { IfOk result (λ sides. map range_with sides.items ≡ map tiles_under segments.now) }
{
    let mut sides = Vec::with_capacity(alloc, segments.len())?;
    for segment in segments {
        sides.push(sides_of(*segment))?;
    }
    Ok(sides)
}

// The ranges under segments, ascending, each once.
fn ranges_under(alloc: Global, segments: &[Segment]) -> Result<Vec<TileRange>, AllocError>
    ensures { IfOk result (λ ranges. ranges.items ≡ ascending range_order (map tiles_under segments.now)) }
{
    let sides = distinct(sides_under(alloc, segments)?);
    ranges_of(alloc, &sides)
}

// The range with these sides.
fn range_of(sides: Sides) -> TileRange
    ensures { result ≡ range_with sides }
{
    let (row_from, row_to, col_from, col_to) = sides;
    TileRange {
        row_from,
        row_to,
        col_from,
        col_to,
    }
}

// The ranges with these sides.
fn ranges_of(alloc: Global, sides: &[Sides]) -> Result<Vec<TileRange>, AllocError>
    ensures { IfOk result (λ ranges. ranges.items ≡ map range_with sides.now) }
{
    let mut ranges = Vec::with_capacity(alloc, sides.len())?;
    for side in sides {
        ranges.push(range_of(*side))?;
    }
    Ok(ranges)
}
