//! What tells of an edited cell without a look-up.

ghost use Rattle.std.specs.Prelude.{◌≡◌, ◌+◌, ◌≤◌, IfOk, None, is_some, length, option_map, true, if◌then◌else◌};
ghost use Rattle.std.specs.Option.{option_copied};
ghost use Rattle.s57_types.specs.declared.name.Kind.TheVariants.{Vc};
ghost use Rattle.s57_types.specs.declared.record.Vector.{Vector as SpecVector};
ghost use Rattle.cell_spec.specs.Edits.{apply_edits, find_their_records, left_by, touched_keys};
ghost use Rattle.cell_spec.specs.Names.{is_of_kind, subject_order};
ghost use Rattle.cell_spec.specs.declared.key.Subject.TheVariants.{Ident, Rec as RecSubject};
ghost use Rattle.rule_spec.specs.declared.line.EdgeLine.{EdgeLine as SpecLine};
ghost use Rattle.rule_spec.specs.EdgePoints.{edge_points_of, line_of, node_position};
ghost use Rattle.rule_spec.specs.Findings.{is_subject};
ghost use Rattle.rule_spec.specs.Records.{edge_named, is_chain_part, node_named, the_only};
ghost use Rattle.row_spec.specs.Rows.{value_of};
ghost use Rattle.finding_laws.specs.Tables.{IsReadsOf};
ghost use Rattle.record_store.specs.Stores.{course_in, vector_of};
ghost use Rattle.affected_subjects.specs.EditedCells.{is_chain_name as spec_is_chain_name, is_listed_after as spec_is_listed, points_in};

use crate::borne::{Borne, borne_after};
use answer_laws::{edited_answers, formed_edits_find_their_records, untouched_keys_keep_answers};
use cell_spec::{Edit, Key, Subject, orders_are_by_parts, writable_cells_are_readable};
use chain_topo::{Steps, node_at};
use check_words::{BEGINNING_NODE, END_NODE, is_below, is_edge_name};
use depend_map::DependMap;
use edit_answers::{EditAnswers, edits_leave_their_records};
use edit_sets::EditSet;
use geometry_spec::Point;
use record_store::RecordStore;
use s57_types::{Duplicate, Items, Kind, Lnam, Plane, Rec, RecName, Vector};
use std::alloc::{AllocError, Global};
use std::marker::Model;
use std::sync::ledger::Ledger;

/// A cell after edits, of which is known where nodes and edges lie and which subjects it has. It is seen as the edited cell.
pub(crate) struct Edited<'a> {
    store: &'a RecordStore,
    map: &'a DependMap,
    edits: &'a EditSet,
    borne: Borne,
}

impl<'a> Drop for Edited<'a> {
    fn drop(self) {
        let Edited {
            store: _,
            map: _,
            edits: _,
            borne: _,
        } = self;
    }
}

impl<'a> Model for Edited<'a> {
    ghost use Rattle.s57_types.specs.declared.cell.Cell.{Cell};
    ghost use Rattle.cell_spec.specs.Edits.{apply_edits};
    ghost use Rattle.affected_subjects.specs.EditedCells.{IsEdited};

    ghost Value = { Cell };

    ghost view = { λ e. apply_edits e.edits.now.edits e.store.now };

    ghost invariant = { λ e. IsEdited e.store.now e.edits.now.edits e.map.now e.borne };
}

// The connected node or edge that an edit leaves under its name.
fn vector_under(edit: &Edit, name: RecName) -> Option<&Vector>
    ensures { option_copied result ≡ (if spec_is_chain_name name then vector_of (left_by edit.now) else None) }
{
    if !is_chain_name(name) {
        return None;
    }
    match edit.record() {
        Some(Rec::V(vector)) => Some(vector),
        Some(Rec::F(_) | Rec::H(_)) | None => None,
    }
}

/// Whether a name is one of a connected node or of an edge.
pub(crate) fn is_chain_name(name: RecName) -> bool
    ensures { result ≡ spec_is_chain_name name }
{
    matches!(name.kind, Kind::Vc | Kind::Ve)
}

// Whether a name is one of a connected node.
fn is_connected(name: RecName) -> bool
    ensures { result ≡ is_of_kind Vc name }
{
    name.kind == Kind::Vc
}

// The only place of a node, if it has exactly one.
fn only_place(node: &Vector) -> Option<Point>
    ensures { result ≡ the_only node.now.plane }
{
    match node.plane.as_slice() {
        [place] => Some(*place),
        _ => None,
    }
}

// Whether the cell before the edits has a record, a side or an identifier.
fn has_row(map: &DependMap, subject: Subject) -> bool
    ensures { result ≡ is_some (value_of subject_order map.now subject) }
{
    map.reads(&subject).is_some()
}

// Whether there is a record of a name after the edit of it, if there is one. The cell before the edits is asked only where that doesn't tell.
fn is_listed_after(edit: Option<&Edit>, map: &DependMap, name: RecName) -> bool
    ensures { result ≡ spec_is_listed (is_some (value_of subject_order map.now (RecSubject name))) (option_copied edit.entry) }
{
    match edit {
        Some(Edit::Add(_) | Edit::Set(_)) => true,
        Some(Edit::Del(_)) => false,
        Some(Edit::Head(_)) | None => has_row(map, Subject::Rec(name)),
    }
}

impl<'a> Edited<'a> {
    /// The cell after edits, from the keys that they touch. It looks up the bearers of each identifier among these.
    ///
    /// An `Err` is out of memory.
    pub(crate) fn make<L: Ledger>(
        alloc: Global,
        store: &'a RecordStore,
        map: &'a DependMap,
        edits: &'a EditSet,
        touched: &[Key],
        steps: &mut Steps<L>,
    ) -> Result<Edited<'a>, AllocError>
        requires level { edits.now.nall ≡ store.now.head.nall }
        requires found { find_their_records edits.now.edits store.now ≡ true }
        requires reads { IsReadsOf store.now map.now }
        requires touched { touched.now ≡ touched_keys edits.now.edits store.now }
        ensures edited { IfOk result (λ edited. edited ≡ apply_edits edits.now.edits store.now) }
        ensures steps { steps.new ≤ steps.old + length touched.now }
    {
        edits.known();
        store.known();
        writable_cells_are_readable();
        formed_edits_find_their_records();
        let answers = EditAnswers::make(alloc, edits)?;
        let borne = borne_after(alloc, store, &answers, touched, steps)?;
        Ok(Edited {
            store,
            map,
            edits,
            borne,
        })
    }

    // The connected node or edge of a name.
    fn vector(&self, name: RecName) -> Option<&Vector>
        ensures { option_copied result ≡ course_in self.now name }
    {
        edits_leave_their_records();
        match self.edits.find(name) {
            Some(edit) => vector_under(edit, name),
            None => self.store.course(name),
        }
    }

    // The connected node of a name.
    fn node(&self, name: RecName) -> Option<&Vector>
        ensures { option_copied result ≡ node_named self.now name }
    {
        if is_connected(name) {
            self.vector(name)
        } else {
            None
        }
    }

    // The edge of a name.
    fn edge(&self, name: RecName) -> Option<&Vector>
        ensures { option_copied result ≡ edge_named self.now name }
    {
        if is_edge_name(name) {
            self.vector(name)
        } else {
            None
        }
    }

    // The position of a connected node that has exactly one.
    fn position(&self, name: RecName) -> Option<Point>
        ensures { result ≡ node_position self.now name }
    {
        only_place(self.node(name)?)
    }

    // The points of an edge from its beginning node to its end node, where it has a line.
    fn line_points(&self, alloc: Global, edge: &Vector) -> Result<Option<Plane>, AllocError>
        ensures { IfOk result (λ points. points ≡ option_map (λ (line : SpecLine). line.points) (line_of self.now edge.now)) }
    {
        let Some(begins) = node_at(BEGINNING_NODE, edge) else {
            return Ok(None);
        };
        let Some(ends) = node_at(END_NODE, edge) else {
            return Ok(None);
        };
        let Some(first) = self.position(begins) else {
            return Ok(None);
        };
        let Some(last) = self.position(ends) else {
            return Ok(None);
        };
        let mut points = vec![in alloc; first]?;
        points.extend_from_slice(edge.plane.as_slice())?;
        points.push(last)?;
        Ok(Some(Items::of_vec(points)))
    }

    // The points of the edge of a name, from node to node.
    #[tactic(auto, unfolding(rule_spec::specs::EdgePoints::edge_line_of))]
    fn edge_points(&self, alloc: Global, name: RecName) -> Result<Option<Plane>, AllocError>
        ensures { IfOk result (λ points. points ≡ edge_points_of self.now name) }
    {
        match self.edge(name) {
            Some(edge) => self.line_points(alloc, edge),
            None => Ok(None),
        }
    }

    // The points of the connected node of a name.
    fn node_points(&self, alloc: Global, name: RecName) -> Result<Option<Plane>, AllocError>
        ensures { IfOk result (λ points. points ≡ option_map (λ (node : SpecVector). node.plane) (node_named self.now name)) }
    {
        match self.node(name) {
            Some(node) => Ok(Some(node.plane.copy(alloc)?)),
            None => Ok(None),
        }
    }

    /// Where a connected node or an edge lies: the node's points as they stand, those of an edge from node to node.
    ///
    /// An `Err` is out of memory.
    pub(crate) fn points(&self, alloc: Global, name: RecName) -> Result<Option<Plane>, AllocError>
        ensures { IfOk result (λ points. points ≡ points_in self.now name) }
    {
        if is_connected(name) {
            self.node_points(alloc, name)
        } else {
            self.edge_points(alloc, name)
        }
    }

    /// Whether a subject is one of the edited cell.
    pub(crate) fn has(&self, subject: Subject) -> bool
        ensures { result ≡ is_subject self.now subject }
    {
        match subject {
            Subject::Rec(name) => self.has_record(name),
            Subject::Side(name) => self.edge(name).is_some(),
            Subject::Pair(name, other) => {
                is_below(name, other) && self.is_part(name) && self.is_part(other)
            }
            Subject::Ident(foid) => self.has_identifier(foid),
        }
    }

    // Whether there is a record of a name.
    fn has_record(&self, name: RecName) -> bool
        ensures { result ≡ is_subject self.now (RecSubject name) }
    {
        edits_leave_their_records();
        is_listed_after(self.edits.find(name), self.map, name)
    }

    // Whether there is a connected node or an edge of a name.
    fn is_part(&self, name: RecName) -> bool
        ensures { result ≡ is_chain_part self.now name }
    {
        self.vector(name).is_some()
    }

    // Whether a feature bears an identifier.
    fn has_identifier(&self, foid: Lnam) -> bool
        ensures { result ≡ is_subject self.now (Ident foid) }
    {
        orders_are_by_parts();
        edited_answers();
        untouched_keys_keep_answers();
        match self.borne.get(&foid) {
            Some(known) => *known,
            None => has_row(self.map, Subject::Ident(foid)),
        }
    }
}
