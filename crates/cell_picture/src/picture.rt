//! The picture of a cell and its findings.

ghost use Rattle.std.specs.Prelude.{◌≡◌, ◌<◌, ◌++◌, [], OnErr, OnOk, IfOk, flat_map};
ghost use Rattle.cell_findings.specs.Rows.{line_of as spec_line_of};
ghost use Rattle.cell_spec.specs.Writable.{IsWritable};
ghost use Rattle.chain_topo.specs.Readable.{IsReadable};
ghost use Rattle.s57_types.specs.declared.record.Rec.TheVariants.{V};
ghost use Rattle.picture_places.specs.Holds.{IsHeld};
ghost use Rattle.picture_places.specs.Labels.{anchor_of as spec_anchor_of};
ghost use Rattle.cell_picture.specs.Picture.{picture, picture_around};
ghost use Rattle.cell_picture.specs.ShapeText.{figure_text, mark_text, row_text, shape_text, spot_text};
ghost use Rattle.cell_picture.specs.Shapes.{area_figure, class_by, drawing_order, feature_shapes, finding_shapes, mark_at, mark_in, marks_from};
ghost use Rattle.cell_picture.specs.Shapes.{node_class, place_of as spec_place_of, record_shapes, row_of, rows_from, shapes, spot_at, spot_of, spots_of};
ghost use Rattle.cell_picture.specs.Shapes.{taken_with, vector_figure};

use crate::frame::{push_frame, push_head};
use crate::shape::{Class, Figure, LIST_TOP, MARK_LIMIT, Mark, ROW_HEIGHT, Row};
use crate::text::{push_figure, push_mark, push_row, push_spot};
use cell_findings::{SubjectFinding, push_findings};
use cell_spec::writable_cells_are_readable;
use chain_topo::{ListLook, Steps};
use check_words::{is_coverage_area, is_group1_area, number};
use geometry_spec::Box4;
use picture_places::{
    Held, PagePoint, Strokes, View, anchor_of, extent_of, field_of, free_field, label_point,
};
use s57_types::{Cell, Feature, Kind, Rec, Text, Vector};
use std::alloc::{AllocError, Global};
use std::sync::ledger::Ledger;
use text_lines::{push_bytes, push_text};

/// Nothing, or out of memory.
type Drawn = Result<(), AllocError>;

/// An isolated node with soundings, or without.
fn isolated_class(vector: &Vector) -> Class
    ensures { result ≡ node_class vector.now }
{
    if vector.deep.is_empty() {
        Class::Isolated
    } else {
        Class::Sounding
    }
}

fn class_of(vector: &Vector) -> Class
    ensures { result ≡ class_by vector.now.name.kind vector.now }
{
    match vector.name.kind {
        Kind::Vc => Class::Node,
        Kind::Ve => Class::Edge,
        _ => isolated_class(vector),
    }
}

/// The line of a finding in a report.
fn line_of(alloc: Global, found: SubjectFinding) -> Result<Text, AllocError>
    ensures { IfOk result (λ line. line ≡ spec_line_of found) }
{
    let mut line = Vec::new(alloc);
    push_findings(&mut line, &[found])?;
    Ok(Text::of_vec(line))
}

/// Appends the mark of a finding that is held at a point, with its number in a field.
fn push_mark_in(
    alloc: Global,
    out: &mut Vec<u8>,
    number: u32,
    found: SubjectFinding,
    strokes: Strokes,
    anchor: PagePoint,
    field: u32,
) -> Drawn
    requires { field < 1080 }
    ensures { OnOk result (out.new.items ≡ out.old.items ++ mark_text (mark_in number (spec_line_of found) strokes anchor field)) }
{
    let line = line_of(alloc, found)?;
    let mark = Mark {
        number,
        line,
        strokes,
        anchor,
        label: label_point(field),
    };
    push_mark(out, &mark)
}

/// Appends the mark of a finding that is held at a point, if it is anywhere, and takes a field for its number.
fn draw_mark_at(
    alloc: Global,
    out: &mut Vec<u8>,
    taken: &mut Vec<u32>,
    number: u32,
    found: SubjectFinding,
    strokes: Strokes,
    anchor: Option<PagePoint>,
) -> Drawn
    ensures text { OnOk result (out.new.items ≡ out.old.items ++ flat_map shape_text (mark_at number (spec_line_of found) strokes taken.old.items anchor)) }
    ensures taken { OnOk result (taken.new.items ≡ taken_with taken.old.items anchor) }
{
    let Some(anchor) = anchor else {
        return Ok(());
    };
    let field = free_field(taken, field_of(anchor));
    taken.push(field)?;
    push_mark_in(alloc, out, number, found, strokes, anchor, field)
}

/// Appends a finding as a dot at a point.
fn push_dot_at(alloc: Global, out: &mut Vec<u8>, found: SubjectFinding, point: PagePoint) -> Drawn
    ensures { OnOk result (out.new.items ≡ out.old.items ++ spot_text (spec_line_of found) point) }
{
    let line = line_of(alloc, found)?;
    push_spot(out, line.as_slice(), point)
}

/// Appends a finding as a dot at a point, if it is anywhere.
fn draw_spot_at(
    alloc: Global,
    out: &mut Vec<u8>,
    found: SubjectFinding,
    anchor: Option<PagePoint>,
) -> Drawn
    ensures { OnOk result (out.new.items ≡ out.old.items ++ flat_map shape_text (spot_at (spec_line_of found) anchor)) }
{
    let Some(anchor) = anchor else {
        return Ok(());
    };
    push_dot_at(alloc, out, found, anchor)
}

/// Appends a row of the list.
fn draw_row(alloc: Global, out: &mut Vec<u8>, number: u32, found: SubjectFinding) -> Drawn
    ensures { OnOk result (out.new.items ≡ out.old.items ++ row_text (row_of number found)) }
{
    let line = line_of(alloc, found)?;
    let below = u64::from(LIST_TOP) + u64::from(number) * u64::from(ROW_HEIGHT);
    push_row(
        out,
        &Row {
            number,
            line,
            below,
        },
    )
}

/// Appends the list.
fn draw_rows(alloc: Global, out: &mut Vec<u8>, findings: &[SubjectFinding]) -> Drawn
    ensures { OnOk result (out.new.items ≡ out.old.items ++ flat_map shape_text (rows_from 1 findings.now)) }
{
    for (k, found) in findings.iter().enumerate() {
        let serial = number(k + 1)?;
        draw_row(alloc, out, serial, *found)?;
    }
    Ok(())
}

/// What is drawn: the part of a cell that is shown.
#[derive(Drop)]
struct Scene<'a, 'b> {
    view: View<'a, 'b>,
}

impl<'a, 'b> Scene<'a, 'b> {
    /// A vector record as it is drawn.
    fn figure<L: Ledger>(&self, vector: &Vector, steps: &mut Steps<L>) -> Result<Figure, AllocError>
        ensures { IfOk result (λ figure. figure ≡ vector_figure self.now.view.look.now self.now.view.around vector.now) }
    {
        Ok(Figure {
            class: class_of(vector),
            name: vector.name,
            strokes: self.view.vector_strokes_of(vector, steps)?,
        })
    }

    /// Appends a vector record as it is drawn.
    fn vector<L: Ledger>(&self, out: &mut Vec<u8>, vector: &Vector, steps: &mut Steps<L>) -> Drawn
        ensures { OnOk result (out.new.items ≡ out.old.items
            ++ flat_map shape_text (record_shapes self.now.view.look.now self.now.view.around (V vector.now))) }
    {
        let figure = self.figure(vector, steps)?;
        push_figure(out, &figure)
    }

    /// Appends an area as it is drawn.
    fn area<L: Ledger>(
        &self,
        out: &mut Vec<u8>,
        class: Class,
        feature: &Feature,
        steps: &mut Steps<L>,
    ) -> Drawn
        ensures { OnOk result (out.new.items ≡ out.old.items ++ figure_text (area_figure self.now.view.look.now self.now.view.around class feature.now)) }
    {
        let strokes = self.view.area_strokes_of(feature, steps)?;
        let figure = Figure {
            class,
            name: feature.name,
            strokes,
        };
        push_figure(out, &figure)
    }

    /// Appends a feature, if it is an area of Group 1 or of coverage.
    fn feature<L: Ledger>(
        &self,
        out: &mut Vec<u8>,
        feature: &Feature,
        steps: &mut Steps<L>,
    ) -> Drawn
        ensures { OnOk result (out.new.items ≡ out.old.items ++ flat_map shape_text (feature_shapes self.now.view.look.now self.now.view.around feature.now)) }
    {
        if is_group1_area(feature) {
            return self.area(out, Class::Group1, feature, steps);
        }
        if is_coverage_area(feature) {
            return self.area(out, Class::Coverage, feature, steps);
        }
        Ok(())
    }

    /// Appends a record, if it is drawn.
    fn record<L: Ledger>(&self, out: &mut Vec<u8>, rec: &Rec, steps: &mut Steps<L>) -> Drawn
        ensures { OnOk result (out.new.items ≡ out.old.items ++ flat_map shape_text (record_shapes self.now.view.look.now self.now.view.around rec.now)) }
    {
        match rec {
            Rec::V(vector) => self.vector(out, vector, steps),
            Rec::F(feature) => self.feature(out, feature, steps),
            Rec::H(_) => Ok(()),
        }
    }

    /// Appends records, one after the other.
    #[tactic(auto, using(crate::proofs::Marks::nested_more))]
    fn records<L: Ledger>(&self, out: &mut Vec<u8>, recs: &[Rec], steps: &mut Steps<L>) -> Drawn
        ensures { OnOk result (out.new.items ≡ out.old.items
            ++ flat_map shape_text (flat_map (record_shapes self.now.view.look.now self.now.view.around) recs.now)) }
    {
        for rec in recs {
            self.record(out, rec, steps)?;
        }
        Ok(())
    }

    /// Appends the records of a cell in the order in which they are drawn.
    fn all_records<L: Ledger>(&self, out: &mut Vec<u8>, cell: &Cell, steps: &mut Steps<L>) -> Drawn
        ensures { OnOk result (out.new.items ≡ out.old.items
            ++ flat_map shape_text (flat_map (record_shapes self.now.view.look.now self.now.view.around) (drawing_order cell.now))) }
    {
        self.records(out, cell.fe.as_slice(), steps)?;
        self.records(out, cell.ve.as_slice(), steps)?;
        self.records(out, cell.vc.as_slice(), steps)?;
        self.records(out, cell.vi.as_slice(), steps)
    }

    /// Appends the mark of a finding, if it is anywhere, and takes a field for its number.
    fn mark<L: Ledger>(
        &self,
        out: &mut Vec<u8>,
        taken: &mut Vec<u32>,
        number: u32,
        found: SubjectFinding,
        steps: &mut Steps<L>,
    ) -> Drawn
        ensures text { OnOk result (out.new.items ≡ out.old.items
            ++ flat_map shape_text (mark_at number (spec_line_of found) (spec_place_of self.now.view.look.now self.now.view.around found) taken.old.items
            (spec_anchor_of (spec_place_of self.now.view.look.now self.now.view.around found)))) }
        ensures taken { OnOk result (taken.new.items
            ≡ taken_with taken.old.items (spec_anchor_of (spec_place_of self.now.view.look.now self.now.view.around found))) }
    {
        let strokes = self.view.place_of(found.subject, found.finding, steps)?;
        let anchor = anchor_of(strokes.as_slice());
        draw_mark_at(self.view.alloc, out, taken, number, found, strokes, anchor)
    }

    /// Appends the marks of findings.
    fn marks<L: Ledger>(
        &self,
        out: &mut Vec<u8>,
        findings: &[SubjectFinding],
        steps: &mut Steps<L>,
    ) -> Drawn
        ensures { OnOk result (out.new.items ≡ out.old.items
            ++ flat_map shape_text (marks_from self.now.view.look.now self.now.view.around [] 1 findings.now)) }
    {
        let mut taken = Vec::new(self.view.alloc);
        for (k, found) in findings.iter().enumerate() {
            let serial = number(k + 1)?;
            self.mark(out, &mut taken, serial, *found, steps)?;
        }
        Ok(())
    }

    /// Appends one of very many findings as a dot, if it is anywhere.
    fn spot<L: Ledger>(
        &self,
        out: &mut Vec<u8>,
        found: SubjectFinding,
        held: &mut Option<Held>,
        steps: &mut Steps<L>,
    ) -> Drawn
        requires { IsHeld self.now.view.look.now self.now.view.around held.old }
        ensures text { OnOk result (out.new.items ≡ out.old.items ++ flat_map shape_text (spot_of self.now.view.look.now self.now.view.around found)) }
        ensures held { IsHeld self.now.view.look.now self.now.view.around held.new }
    {
        let at = self
            .view
            .mark_anchor(found.subject, found.finding, held, steps)?;
        draw_spot_at(self.view.alloc, out, found, at)
    }

    /// Appends very many findings as dots.
    #[tactic(auto, using(crate::proofs::Marks::nested_more))]
    fn spots<L: Ledger>(
        &self,
        out: &mut Vec<u8>,
        findings: &[SubjectFinding],
        steps: &mut Steps<L>,
    ) -> Drawn
        ensures { OnOk result (out.new.items ≡ out.old.items ++ flat_map shape_text (spots_of self.now.view.look.now self.now.view.around findings.now)) }
    {
        let mut held = None;
        for found in findings {
            self.spot(out, *found, &mut held, steps)?;
        }
        Ok(())
    }

    /// Appends the findings where they are.
    fn findings<L: Ledger>(
        &self,
        out: &mut Vec<u8>,
        found: &[SubjectFinding],
        steps: &mut Steps<L>,
    ) -> Drawn
        ensures { OnOk result (out.new.items ≡ out.old.items ++ flat_map shape_text (finding_shapes self.now.view.look.now self.now.view.around found.now)) }
    {
        if found.len() <= MARK_LIMIT as usize {
            return self.marks(out, found, steps);
        }
        self.spots(out, found, steps)
    }

    /// Appends the shapes of the picture of a cell.
    fn shapes<L: Ledger>(
        &self,
        out: &mut Vec<u8>,
        cell: &Cell,
        findings: &[SubjectFinding],
        steps: &mut Steps<L>,
    ) -> Drawn
        requires { self.now.view.look.now ≡ cell.now }
        ensures { OnOk result (out.new.items ≡ out.old.items ++ flat_map shape_text (shapes cell.now self.now.view.around findings.now)) }
    {
        self.all_records(out, cell, steps)?;
        self.findings(out, findings, steps)?;
        draw_rows(self.view.alloc, out, findings)
    }
}

/// Appends the picture of what lies in a box.
fn draw_around<L: Ledger>(
    alloc: Global,
    out: &mut Vec<u8>,
    around: Box4,
    cell: &Cell,
    findings: &[SubjectFinding],
    steps: &mut Steps<L>,
) -> Drawn
    requires { IsReadable cell.now }
    ensures { OnOk result (out.new.items ≡ out.old.items ++ picture_around around cell.now findings.now) }
{
    let look = ListLook::make(alloc, cell)?;
    let scene = Scene {
        view: View {
            alloc,
            look: &look,
            around,
        },
    };
    let total = number(findings.len())?;
    push_head(out, around, cell, total)?;
    push_frame(out, around)?;
    scene.shapes(out, cell, findings, steps)?;
    push_text(out, "</svg>\n")
}

/// Appends the same as `push_picture`, and after an `Err` perhaps a beginning of it.
#[tactic(auto, unfolding(crate::specs::Picture::picture))]
fn draw<L: Ledger>(
    alloc: Global,
    out: &mut Vec<u8>,
    cell: &Cell,
    findings: &[SubjectFinding],
    steps: &mut Steps<L>,
) -> Drawn
    requires { IsReadable cell.now }
    ensures { OnOk result (out.new.items ≡ out.old.items ++ picture cell.now findings.now) }
{
    let around = extent_of(alloc, cell)?;
    draw_around(alloc, out, around, cell, findings, steps)
}

/// Appends the picture of a cell and its findings, an SVG document: each of its vector records and each of its areas of Group 1 and of
/// coverage is drawn once, and each finding has its mark, if it is anywhere, and its row in the list below the picture.
///
/// An `Err` means out of memory, and leaves the text as it was.
pub fn push_picture<L: Ledger>(
    out: &mut Vec<u8>,
    cell: &Cell,
    findings: &[SubjectFinding],
    steps: &mut Steps<L>,
) -> Result<(), AllocError>
    requires { IsWritable cell.now }
    ensures ok { OnOk result (out.new.items ≡ out.old.items ++ picture cell.now findings.now) }
    ensures err { OnErr result (out.new.items ≡ out.old.items) }
{
    writable_cells_are_readable();
    let alloc = *out.allocator();
    let mut text = Vec::new(alloc);
    draw(alloc, &mut text, cell, findings, steps)?;
    push_bytes(out, &text)
}
