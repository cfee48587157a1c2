//! What stands around the picture: its names, its style, its key and its frame.

ghost use Rattle.std.specs.Prelude.{◌≡◌, ◌++◌, OnOk, codes};
ghost use Rattle.text_spec.specs.Lines.{spaced_words};
ghost use Rattle.cell_picture.specs.Picture.{corner_text, counted_text, description_head, description_tail, description_text, frame_text};
ghost use Rattle.cell_picture.specs.Picture.{hatch_text, head_text, heading_text, key_entry, key_text, names_text, north_west_text};
ghost use Rattle.cell_picture.specs.Picture.{opening_text, page_height as spec_page_height, side_words, south_east_text, style_text};
ghost use Rattle.cell_picture.specs.ShapeText.{text_at};

use crate::escape::push_escaped;
use crate::shape::{LIST_TOP, ROW_HEIGHT};
use crate::text::{push_pair, push_text_at};
use cell_findings::push_count;
use geometry_spec::Box4;
use itoa::Buffer;
use picture_places::{PAGE_LEFT, PAGE_WIDTH};
use s57_types::Cell;
use std::alloc::AllocError;
use text_lines::{push_text, push_word};

/// Where the heading stands, from the page's upper side down, in page units.
const HEADING: u64 = 330;

/// Where the coordinates of the frame's upper left corner stand, above the frame.
const UPPER_CORNER: u64 = 850;

/// Where those of its lower right corner stand, below the frame.
const LOWER_CORNER: u64 = 11_910;

/// How high the page is with `total` findings, in page units. A browser shows ten of them as a pixel.
fn page_height(total: u32) -> u64
    ensures { result ≡ spec_page_height total }
{
    u64::from(LIST_TOP) + (u64::from(total) + 2) * u64::from(ROW_HEIGHT)
}

/// Appends the beginning of the document.
fn push_svg(out: &mut Vec<u8>, total: u32) -> Result<(), AllocError>
    ensures { OnOk result (out.new.items ≡ out.old.items ++ opening_text total) }
{
    let height = page_height(total);
    let mut buffer = Buffer::new();
    push_text(
        out,
        "<svg xmlns='http://www.w3.org/2000/svg' width='1200' height='",
    )?;
    push_text(out, buffer.format(height / 10))?;
    push_text(out, "' viewBox='0 0")?;
    push_pair(out, PAGE_WIDTH, height)?;
    push_text(out, "'>\n")
}

/// Appends the name of the data set, and what was counted.
fn push_counted(out: &mut Vec<u8>, cell: &Cell, total: u32) -> Result<(), AllocError>
    ensures { OnOk result (out.new.items ≡ out.old.items ++ counted_text cell.now total) }
{
    push_escaped(out, cell.head.dsnm.as_slice())?;
    push_count(out, "vi", cell.vi.len())?;
    push_count(out, "vc", cell.vc.len())?;
    push_count(out, "ve", cell.ve.len())?;
    push_count(out, "fe", cell.fe.len())?;
    push_count(out, "findings", total as usize)
}

fn push_side(out: &mut Vec<u8>, side: &str, coordinate: i32) -> Result<(), AllocError>
    ensures { OnOk result (out.new.items ≡ out.old.items ++ spaced_words (side_words side.now coordinate)) }
{
    let mut buffer = Buffer::new();
    push_word(out, side)?;
    push_word(out, buffer.format(coordinate))
}

fn push_north_west(out: &mut Vec<u8>, around: Box4) -> Result<(), AllocError>
    ensures { OnOk result (out.new.items ≡ out.old.items ++ north_west_text around) }
{
    push_side(out, "north", around.north)?;
    push_side(out, "west", around.west)
}

fn push_south_east(out: &mut Vec<u8>, around: Box4) -> Result<(), AllocError>
    ensures { OnOk result (out.new.items ≡ out.old.items ++ south_east_text around) }
{
    push_side(out, "south", around.south)?;
    push_side(out, "east", around.east)
}

fn push_names(out: &mut Vec<u8>, cell: &Cell, total: u32) -> Result<(), AllocError>
    ensures { OnOk result (out.new.items ≡ out.old.items ++ names_text cell.now total) }
{
    push_text(out, "<title>")?;
    push_counted(out, cell, total)?;
    push_text(out, "</title>\n")
}

fn push_description_head(out: &mut Vec<u8>) -> Result<(), AllocError>
    ensures { OnOk result (out.new.items ≡ out.old.items ++ description_head) }
{
    push_text(
        out,
        "<desc>A chart cell and its findings, north up, in integer coordinate units:",
    )
}

fn push_description_tail(out: &mut Vec<u8>) -> Result<(), AllocError>
    ensures { OnOk result (out.new.items ≡ out.old.items ++ description_tail) }
{
    push_text(
        out,
        ". A finding that has a place is marked there, by its number where there are at most 500, else by a dot.",
    )?;
    push_text(
        out,
        " Each finding has a row with its number in the list below the picture.</desc>\n",
    )
}

/// Appends the description for those who don't see the picture.
fn push_description(out: &mut Vec<u8>, around: Box4) -> Result<(), AllocError>
    ensures { OnOk result (out.new.items ≡ out.old.items ++ description_text around) }
{
    push_description_head(out)?;
    push_north_west(out, around)?;
    push_south_east(out, around)?;
    push_description_tail(out)
}

/// Appends how all is drawn.
fn push_style(out: &mut Vec<u8>) -> Result<(), AllocError>
    ensures { OnOk result (out.new.items ≡ out.old.items ++ style_text) }
{
    push_text(
        out,
        "<style>svg{background:#fff}path{fill:none;stroke-linecap:round;stroke-linejoin:round}\n",
    )?;
    push_text(
        out,
        ".frame{stroke:#000;stroke-width:8}.edge{stroke:#666;stroke-width:14}.node{stroke:#004a80;stroke-width:56}\n",
    )?;
    push_text(
        out,
        ".isolated{stroke:#004a80;stroke-width:70;stroke-linecap:square}.sounding{stroke:#3b8fc4;stroke-width:50}\n",
    )?;
    push_text(
        out,
        ".group1,.coverage{fill-rule:evenodd}.group1{fill:#56b4e9;fill-opacity:.25}.coverage{fill:url(#hatch)}.hatch{stroke:#999;stroke-width:12}\n",
    )?;
    push_text(
        out,
        ".mark,.spot{stroke:#d55e00;stroke-width:100;stroke-opacity:.45}.spot{stroke-width:80;stroke-opacity:.85}\n",
    )?;
    push_text(
        out,
        ".lead{stroke:#8a3b00;stroke-width:12}text{font-family:sans-serif;font-size:150px}\n",
    )?;
    push_text(
        out,
        ".label{font-weight:bold;font-size:190px;text-anchor:middle;dominant-baseline:central;\n",
    )?;
    push_text(
        out,
        "paint-order:stroke;stroke:#fff;stroke-width:50}.heading{font-size:260px}</style>\n",
    )
}

/// Appends how coverage is filled.
fn push_hatch(out: &mut Vec<u8>) -> Result<(), AllocError>
    ensures { OnOk result (out.new.items ≡ out.old.items ++ hatch_text) }
{
    push_text(
        out,
        "<pattern id='hatch' patternUnits='userSpaceOnUse' width='180' height='180'><path class='hatch' d='M 0 180 180 0h0'/></pattern>\n",
    )
}

/// Appends an entry of the key: a sample of a class of shapes, and at a place behind it what these stand for.
fn push_key_entry(
    out: &mut Vec<u8>,
    class: &str,
    sample: &str,
    place: &str,
    name: &str,
) -> Result<(), AllocError>
    ensures { OnOk result (out.new.items ≡ out.old.items ++ key_entry class.now sample.now place.now name.now) }
{
    push_text(out, "<path class='")?;
    push_text(out, class)?;
    push_text(out, "' d='M ")?;
    push_text(out, sample)?;
    push_text(out, "h0'/><text transform='translate(")?;
    push_text(out, place)?;
    push_text(out, ")'>")?;
    push_text(out, name)?;
    push_text(out, "</text>\n")
}

/// Appends what each sort of shape stands for.
fn push_key(out: &mut Vec<u8>) -> Result<(), AllocError>
    ensures { OnOk result (out.new.items ≡ out.old.items ++ key_text) }
{
    push_key_entry(out, "edge", "600 590 850 590", "950 640", "edge")?;
    push_key_entry(out, "node", "1700 590", "1800 640", "connected node")?;
    push_key_entry(out, "isolated", "3300 590", "3400 640", "isolated node")?;
    push_key_entry(out, "sounding", "4750 590", "4850 640", "sounding")?;
    push_key_entry(
        out,
        "group1",
        "5800 500 6050 500 6050 680 5800 680",
        "6150 640",
        "Group 1 area",
    )?;
    push_key_entry(
        out,
        "coverage",
        "7450 500 7700 500 7700 680 7450 680",
        "7800 640",
        "coverage",
    )?;
    push_key_entry(
        out,
        "mark",
        "8800 590 9050 590",
        "9150 640",
        "finding, listed by its number",
    )
}

fn push_heading(out: &mut Vec<u8>, cell: &Cell, total: u32) -> Result<(), AllocError>
    ensures { OnOk result (out.new.items ≡ out.old.items ++ heading_text cell.now total) }
{
    push_text_at(out, "heading", PAGE_LEFT, HEADING)?;
    push_counted(out, cell, total)?;
    push_text(out, "</text>\n")
}

/// Appends what stands before the frame.
pub(crate) fn push_head(
    out: &mut Vec<u8>,
    around: Box4,
    cell: &Cell,
    total: u32,
) -> Result<(), AllocError>
    ensures { OnOk result (out.new.items ≡ out.old.items ++ head_text around cell.now total) }
{
    push_svg(out, total)?;
    push_names(out, cell, total)?;
    push_description(out, around)?;
    push_style(out)?;
    push_hatch(out)?;
    push_heading(out, cell, total)?;
    push_key(out)
}

fn push_corner_head(out: &mut Vec<u8>, y: u64) -> Result<(), AllocError>
    ensures { OnOk result (out.new.items ≡ out.old.items ++ text_at (codes "corner") PAGE_LEFT y) }
{
    push_text_at(out, "corner", PAGE_LEFT, y)
}

fn push_upper_corner(out: &mut Vec<u8>, around: Box4) -> Result<(), AllocError>
    ensures { OnOk result (out.new.items ≡ out.old.items ++ corner_text 850 (north_west_text around)) }
{
    push_corner_head(out, UPPER_CORNER)?;
    push_north_west(out, around)?;
    push_text(out, "</text>\n")
}

fn push_lower_corner(out: &mut Vec<u8>, around: Box4) -> Result<(), AllocError>
    ensures { OnOk result (out.new.items ≡ out.old.items ++ corner_text 11910 (south_east_text around)) }
{
    push_corner_head(out, LOWER_CORNER)?;
    push_south_east(out, around)?;
    push_text(out, "</text>\n")
}

fn push_list_head(out: &mut Vec<u8>) -> Result<(), AllocError>
    ensures { OnOk result (out.new.items ≡ out.old.items
        ++ corner_text 12290 (codes "Findings. One that has no place in the picture stands in this list alone.")) }
{
    push_corner_head(out, LIST_TOP as u64)?;
    push_text(
        out,
        "Findings. One that has no place in the picture stands in this list alone.",
    )?;
    push_text(out, "</text>\n")
}

/// Appends the frame around the picture, with the coordinates of its sides, and the head of the list.
pub(crate) fn push_frame(out: &mut Vec<u8>, around: Box4) -> Result<(), AllocError>
    ensures { OnOk result (out.new.items ≡ out.old.items ++ frame_text around) }
{
    push_text(
        out,
        "<path class='frame' d='M 600 900 11390 900 11390 11690 600 11690z'/>\n",
    )?;
    push_upper_corner(out, around)?;
    push_lower_corner(out, around)?;
    push_list_head(out)
}
