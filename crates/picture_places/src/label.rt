//! Where the number of a mark stands.

ghost use Rattle.std.specs.Prelude.{◌≡◌, ◌<◌, ◌≤◌, ◌+◌, ◌-◌, ◌/◌, min};
ghost use Rattle.picture_places.specs.Labels.{anchor_of as spec_anchor_of, field_of as spec_field_of, free_field as spec_free_field};
ghost use Rattle.picture_places.specs.Labels.{half_way as spec_half_way, is_free as spec_is_free, label_point as spec_label_point};
ghost use Rattle.picture_places.specs.Labels.{middle_of as spec_middle_of, turned as spec_turned};

use crate::page::{PAGE_LEFT, PAGE_TOP, PagePoint};
use crate::stroke::Stroke;

/// How wide a field is, in page units. A number of a mark has a field of its own.
pub const FIELD_WIDTH: u32 = 400;

/// How high a field is.
pub const FIELD_HEIGHT: u32 = 270;

/// How many fields a row has.
pub const COLUMNS: u32 = 27;

/// How many rows of fields there are.
pub const ROWS: u32 = 40;

/// How many fields there are.
pub const FIELDS: u32 = COLUMNS * ROWS;

fn half_of_sum(a: u32, b: u32) -> u32
    ensures { result ≡ (a + b) / 2 }
{
    ((u64::from(a) + u64::from(b)) / 2) as u32
}

pub(crate) fn half_way(p: PagePoint, q: PagePoint) -> PagePoint
    ensures { result ≡ spec_half_way p q }
{
    PagePoint {
        x: half_of_sum(p.x, q.x),
        y: half_of_sum(p.y, q.y),
    }
}

/// The middle of a stroke: half way between its two middle points.
fn middle_of(stroke: &[PagePoint]) -> Option<PagePoint>
    ensures { result ≡ spec_middle_of stroke.now }
{
    let n = stroke.len();
    if n == 0 {
        return None;
    }
    Some(half_way(stroke[(n - 1) / 2], stroke[n / 2]))
}

/// Where a mark is held: the middle of its first stroke that has a point.
pub fn anchor_of(strokes: &[Stroke]) -> Option<PagePoint>
    ensures { result ≡ spec_anchor_of strokes.now }
{
    for stroke in strokes {
        if let Some(middle) = middle_of(stroke.as_slice()) {
            return Some(middle);
        }
    }
    None
}

/// A column of a row. Rows run to and fro.
fn turned(row: u32, column: u32) -> u32
    requires { column < 27 }
    ensures value { result ≡ spec_turned row column }
    ensures within { result < 27 }
{
    if row % 2 == 0 {
        column
    } else {
        COLUMNS - 1 - column
    }
}

/// How many steps fit between a start and a place, up to a last number.
fn steps_before(place: u32, start: u32, step: u32, last: u32) -> u32
    requires { 0 < step }
    ensures value { result ≡ min ((place - start) / step) last }
    ensures within { result ≤ last }
{
    (place.saturating_sub(start) / step).min(last)
}

/// The number of the field that holds a point.
pub fn field_of(point: PagePoint) -> u32
    ensures value { result ≡ spec_field_of point }
    ensures within { result < 1080 }
{
    let row = steps_before(point.y, PAGE_TOP, FIELD_HEIGHT, ROWS - 1);
    let column = steps_before(point.x, PAGE_LEFT, FIELD_WIDTH, COLUMNS - 1);
    row * COLUMNS + turned(row, column)
}

/// The middle of a field, where a number is written.
pub fn label_point(field: u32) -> PagePoint
    requires { field < 1080 }
    ensures { result ≡ spec_label_point field }
{
    let row = field / COLUMNS;
    let column = turned(row, field % COLUMNS);
    PagePoint {
        x: PAGE_LEFT + column * FIELD_WIDTH + FIELD_WIDTH / 2,
        y: PAGE_TOP + row * FIELD_HEIGHT + FIELD_HEIGHT / 2,
    }
}

fn is_free(taken: &[u32], field: u32) -> bool
    ensures { result ≡ spec_is_free taken.now field }
{
    !taken.contains(&field)
}

/// The first field behind one that isn't taken. Where all are, it is that one.
pub fn free_field(taken: &[u32], home: u32) -> u32
    requires { home < 1080 }
    ensures value { result ≡ spec_free_field taken.now home }
    ensures within { result < 1080 }
{
    for k in 0..FIELDS {
        let field = (home + k + 1) % FIELDS;
        if is_free(taken, field) {
            return field;
        }
    }
    home
}
