//! Shapes as SVG elements.

ghost use Rattle.std.specs.Prelude.{◌≡◌, ◌++◌, ◌∷◌, [], OnOk, codes, decimal, flat_map};
ghost use Rattle.text_spec.specs.Lines.{spaced, spaced_words};
ghost use Rattle.cell_picture.specs.ShapeText.{class_word, figure_text, mark_number_text, mark_place_text, mark_text, pair_text, path_text, point_words};
ghost use Rattle.cell_picture.specs.ShapeText.{record_title, row_text, spot_text, stroke_text, text_at, title_text};

use crate::escape::push_escaped;
use crate::shape::{Class, Figure, Mark, Row};
use itoa::Buffer;
use picture_places::{PAGE_LEFT, PagePoint, Stroke};
use s57_types::RecName;
use std::alloc::AllocError;
use text_lines::{push_name, push_number, push_text, push_word};

/// The class of a path.
fn word_of(class: Class) -> &'static str
    ensures { result.now ≡ class_word class }
{
    match class {
        Class::Group1 => "group1",
        Class::Coverage => "coverage",
        Class::Edge => "edge",
        Class::Node => "node",
        Class::Isolated => "isolated",
        Class::Sounding => "sounding",
    }
}

/// Appends a number behind a space.
fn push_whole(out: &mut Vec<u8>, number: u64) -> Result<(), AllocError>
    ensures { OnOk result (out.new.items ≡ out.old.items ++ spaced (decimal number)) }
{
    let mut buffer = Buffer::new();
    push_word(out, buffer.format(number))
}

/// Appends two numbers, each behind a space.
pub(crate) fn push_pair(out: &mut Vec<u8>, first: u32, second: u64) -> Result<(), AllocError>
    ensures { OnOk result (out.new.items ≡ out.old.items ++ pair_text first second) }
{
    push_number(out, first)?;
    push_whole(out, second)
}

fn push_plain(out: &mut Vec<u8>, number: u32) -> Result<(), AllocError>
    ensures { OnOk result (out.new.items ≡ out.old.items ++ decimal number) }
{
    let mut buffer = Buffer::new();
    push_text(out, buffer.format(number))
}

fn push_points(out: &mut Vec<u8>, points: &[PagePoint]) -> Result<(), AllocError>
    ensures { OnOk result (out.new.items ≡ out.old.items ++ spaced_words (flat_map point_words points.now)) }
{
    for point in points {
        push_number(out, point.x)?;
        push_number(out, point.y)?;
    }
    Ok(())
}

fn push_stroke(out: &mut Vec<u8>, points: &[PagePoint]) -> Result<(), AllocError>
    ensures { OnOk result (out.new.items ≡ out.old.items ++ stroke_text points.now) }
{
    if points.is_empty() {
        return Ok(());
    }
    push_text(out, "M")?;
    push_points(out, points)?;
    push_text(out, "h0")
}

fn push_strokes(out: &mut Vec<u8>, strokes: &[Stroke]) -> Result<(), AllocError>
    ensures { OnOk result (out.new.items ≡ out.old.items ++ flat_map stroke_text strokes.now) }
{
    for stroke in strokes {
        push_stroke(out, stroke.as_slice())?;
    }
    Ok(())
}

fn push_path_head(out: &mut Vec<u8>, class: &str) -> Result<(), AllocError>
    ensures { OnOk result (out.new.items ≡ out.old.items ++ codes "<path class='" ++ (class.now ++ codes "' d='")) }
{
    push_text(out, "<path class='")?;
    push_text(out, class)?;
    push_text(out, "' d='")
}

/// Appends the beginning of a path of a class through strokes.
fn push_path(out: &mut Vec<u8>, class: &str, strokes: &[Stroke]) -> Result<(), AllocError>
    ensures { OnOk result (out.new.items ≡ out.old.items ++ path_text class.now strokes.now) }
{
    push_path_head(out, class)?;
    push_strokes(out, strokes)?;
    push_text(out, "'")
}

/// The same through one stroke.
pub(crate) fn push_one_stroke(
    out: &mut Vec<u8>,
    class: &str,
    points: &[PagePoint],
) -> Result<(), AllocError>
    ensures { OnOk result (out.new.items ≡ out.old.items ++ path_text class.now (points.now ∷ [])) }
{
    push_path_head(out, class)?;
    push_stroke(out, points)?;
    push_text(out, "'")
}

/// Appends what a browser shows of an element on request, and reads aloud.
fn push_title(out: &mut Vec<u8>, text: &[u8]) -> Result<(), AllocError>
    ensures { OnOk result (out.new.items ≡ out.old.items ++ title_text text.now) }
{
    push_text(out, "<title>")?;
    push_escaped(out, text)?;
    push_text(out, "</title>")
}

/// Appends the beginning of a text of a class at a place on the page.
pub(crate) fn push_text_at(out: &mut Vec<u8>, class: &str, x: u32, y: u64) -> Result<(), AllocError>
    ensures { OnOk result (out.new.items ≡ out.old.items ++ text_at class.now x y) }
{
    push_text(out, "<text class='")?;
    push_text(out, class)?;
    push_text(out, "' transform='translate(")?;
    push_pair(out, x, y)?;
    push_text(out, ")'>")
}

/// Appends the words of a report for a record.
fn push_record_title(out: &mut Vec<u8>, name: RecName) -> Result<(), AllocError>
    ensures { OnOk result (out.new.items ≡ out.old.items ++ record_title name) }
{
    push_text(out, "rec")?;
    push_name(out, name)
}

/// Appends the title of a record.
fn push_name_title(out: &mut Vec<u8>, name: RecName) -> Result<(), AllocError>
    ensures { OnOk result (out.new.items ≡ out.old.items ++ title_text (record_title name)) }
{
    let mut title = Vec::new(*out.allocator());
    push_record_title(&mut title, name)?;
    push_title(out, &title)
}

/// Appends a record as it is drawn.
pub(crate) fn push_figure(out: &mut Vec<u8>, figure: &Figure) -> Result<(), AllocError>
    ensures { OnOk result (out.new.items ≡ out.old.items ++ figure_text figure.now) }
{
    push_path(out, word_of(figure.class), figure.strokes.as_slice())?;
    push_text(out, ">")?;
    push_name_title(out, figure.name)?;
    push_text(out, "</path>\n")
}

/// Appends where the finding of a mark is.
fn push_mark_place(out: &mut Vec<u8>, mark: &Mark) -> Result<(), AllocError>
    ensures { OnOk result (out.new.items ≡ out.old.items ++ mark_place_text mark.now) }
{
    push_text(out, "<g>")?;
    push_title(out, mark.line.as_slice())?;
    push_path(out, "mark", mark.strokes.as_slice())?;
    push_text(out, "/>")
}

/// Appends the number of a mark, with a line to it.
fn push_mark_number(out: &mut Vec<u8>, mark: &Mark) -> Result<(), AllocError>
    ensures { OnOk result (out.new.items ≡ out.old.items ++ mark_number_text mark.now) }
{
    push_one_stroke(out, "lead", &[mark.anchor, mark.label])?;
    push_text(out, "/>")?;
    push_text_at(out, "label", mark.label.x, u64::from(mark.label.y))?;
    push_plain(out, mark.number)?;
    push_text(out, "</text></g>\n")
}

/// Appends the mark of a finding.
pub(crate) fn push_mark(out: &mut Vec<u8>, mark: &Mark) -> Result<(), AllocError>
    ensures { OnOk result (out.new.items ≡ out.old.items ++ mark_text mark.now) }
{
    push_mark_place(out, mark)?;
    push_mark_number(out, mark)
}

/// Appends one of very many findings as a dot.
pub(crate) fn push_spot(out: &mut Vec<u8>, line: &[u8], at: PagePoint) -> Result<(), AllocError>
    ensures { OnOk result (out.new.items ≡ out.old.items ++ spot_text line.now at) }
{
    push_one_stroke(out, "spot", &[at])?;
    push_text(out, ">")?;
    push_title(out, line)?;
    push_text(out, "</path>\n")
}

/// Appends a row of the list.
pub(crate) fn push_row(out: &mut Vec<u8>, row: &Row) -> Result<(), AllocError>
    ensures { OnOk result (out.new.items ≡ out.old.items ++ row_text row.now) }
{
    push_text_at(out, "row", PAGE_LEFT, row.below)?;
    push_plain(out, row.number)?;
    push_text(out, " ")?;
    push_escaped(out, row.line.as_slice())?;
    push_text(out, "</text>\n")
}
