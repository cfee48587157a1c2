//! Where a point of a cell stands on the page.

ghost use Rattle.std.specs.Prelude.{◌≡◌, ◌<◌, ◌≤◌, ◌-ℤ◌, unsigned_abs};
ghost use Rattle.picture_places.specs.Page.{height_of as spec_height_of, on_page as spec_on_page, page_point as spec_page_point, width_of as spec_width_of};

use geometry_spec::{Box4, Point};

/// How wide a page is, in page units. A browser shows ten of them as one pixel.
pub const PAGE_WIDTH: u32 = 12_000;

/// How far right of the page's left side the picture begins.
pub const PAGE_LEFT: u32 = 600;

/// How far below the page's top the picture begins.
pub const PAGE_TOP: u32 = 900;

/// How wide and how high the picture is.
pub const PAGE_SIDE: u32 = 10_790;

/// A point of the page: how far right of its left side and below its top it is, in page units.
#[derive(Clone, Copy, Debug, PartialEq, Eq)]
pub struct PagePoint {
    pub x: u32,
    pub y: u32,
}

/// How far apart two coordinates are, in integer coordinate units.
fn distance(a: i32, b: i32) -> u32
    ensures { result ≡ unsigned_abs (a -ℤ b) }
{
    a.abs_diff(b)
}

/// The height of a box, at least one coordinate unit.
fn height_of(around: Box4) -> u32
    ensures value { result ≡ spec_height_of around }
    ensures some { 0 < result }
{
    distance(around.north, around.south).max(1)
}

/// Its width, at least one coordinate unit.
fn width_of(around: Box4) -> u32
    ensures value { result ≡ spec_width_of around }
    ensures some { 0 < result }
{
    distance(around.east, around.west).max(1)
}

/// A distance of coordinate units on the page, where the span fills the side.
#[tactic(auto, using(crate::proofs::Scales::scaled_within))]
fn on_page(span: u32, distance: u32) -> u32
    requires { 0 < span }
    ensures value { result ≡ spec_on_page span distance }
    ensures within { result ≤ 10790 }
{
    let scaled = u64::from(distance.min(span)) * u64::from(PAGE_SIDE);
    (scaled / u64::from(span)) as u32
}

/// The page's place of a point, latitude first, in integer coordinate units: north is up and east to the right, and the box fills the
/// picture.
pub fn page_point(around: Box4, point: Point) -> PagePoint
    ensures { result ≡ spec_page_point around point }
{
    let right = on_page(width_of(around), distance(point.1, around.west));
    let down = on_page(height_of(around), distance(around.north, point.0));
    PagePoint {
        x: PAGE_LEFT + right,
        y: PAGE_TOP + down,
    }
}
