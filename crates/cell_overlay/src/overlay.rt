//! A cell with edits laid over it.

ghost use Rattle.std.specs.Prelude.{◌≡◌, ◌+◌, ◌≤◌, IfOk, length, true};
ghost use Rattle.std.specs.Option.{option_copied};
ghost use Rattle.cell_spec.specs.Edits.{apply_edits, find_their_records, touched_keys};
ghost use Rattle.cell_spec.specs.Lookup.{all_records};
ghost use Rattle.cell_spec.specs.Writable.{record_limit};
ghost use Rattle.cell_overlay.specs.Laid.{left_under};

use crate::head::head_of;
use crate::keys::touched;
use crate::merged::Merged;
use answer_laws::{
    edited_answers, edited_cells_are_readable, formed_edits_find_their_records,
    untouched_keys_keep_answers,
};
use cell_spec::{Edit, Key, Ref, orders_are_by_parts};
use chain_topo::{Look, Steps};
use edit_answers::{EditAnswers, edits_leave_their_records};
use edit_sets::EditSet;
use s57_types::{Lnam, Rec, RecName};
use std::alloc::{AllocError, Global};
use std::marker::Model;
use std::sync::ledger::Ledger;

// What an edit leaves under its name, where this is the head that is left.
fn left_under<'a>(head: &'a Option<Rec>, edit: &'a Edit) -> Option<&'a Rec>
    ensures { option_copied result ≡ left_under head.now edit.now }
{
    match edit {
        Edit::Add(rec) | Edit::Set(rec) => Some(rec),
        Edit::Del(_) => None,
        Edit::Head(_) => head.as_ref(),
    }
}

/// A cell that is looked into, with edits laid over it: a look into the edited cell.
pub struct Overlay<'a, B: Look> {
    base: &'a B,
    edits: &'a EditSet,
    head: Option<Rec>,
    merged: Merged,
}

impl<'a, B: Look> Drop for Overlay<'a, B> {
    fn drop(self) {
        let Overlay {
            base: _,
            edits: _,
            head: _,
            merged: _,
        } = self;
    }
}

impl<'a, B: Look> Model for Overlay<'a, B> {
    ghost use Rattle.s57_types.specs.declared.cell.Cell.{Cell};
    ghost use Rattle.cell_spec.specs.Edits.{apply_edits};
    ghost use Rattle.cell_overlay.specs.Laid.{IsLaidOver};

    ghost Value = { Cell };

    ghost view = { λ o. apply_edits o.edits.now.edits (B.cell o.base.now) };

    ghost invariant = { λ o. IsLaidOver (B.cell o.base.now) o.edits.now.edits o.head o.merged.pointers o.merged.bearers };
}

impl<'a, B: Look> Overlay<'a, B> {
    /// The look into the cell that the edits leave. It merges the lists of the keys that they touch, with one look-up for each edit and one
    /// for each touched key at most.
    ///
    /// An `Err` means out of memory.
    pub fn make<L: Ledger>(
        alloc: Global,
        base: &'a B,
        edits: &'a EditSet,
        steps: &mut Steps<L>,
    ) -> Result<Overlay<'a, B>, AllocError>
        requires level { edits.now.nall ≡ (B.cell base.now).head.nall }
        requires found { find_their_records edits.now.edits (B.cell base.now) ≡ true }
        requires room { length (all_records (B.cell base.now)) ≤ record_limit }
        ensures over { IfOk result (λ over. over ≡ apply_edits edits.now.edits (B.cell base.now)) }
        ensures steps { steps.new ≤ steps.old + length edits.now.edits + length (touched_keys edits.now.edits (B.cell base.now)) }
    {
        let keys = touched(alloc, base, edits, steps)?;
        Overlay::over_keys(alloc, base, edits, keys.as_slice(), steps)
    }

    /// The same look, from the keys that the edits touch. It merges the lists of these, with one look-up for each key at most.
    ///
    /// An `Err` means out of memory.
    pub fn over_keys<L: Ledger>(
        alloc: Global,
        base: &'a B,
        edits: &'a EditSet,
        keys: &[Key],
        steps: &mut Steps<L>,
    ) -> Result<Overlay<'a, B>, AllocError>
        requires level { edits.now.nall ≡ (B.cell base.now).head.nall }
        requires found { find_their_records edits.now.edits (B.cell base.now) ≡ true }
        requires room { length (all_records (B.cell base.now)) ≤ record_limit }
        requires keys { keys.now ≡ touched_keys edits.now.edits (B.cell base.now) }
        ensures over { IfOk result (λ over. over ≡ apply_edits edits.now.edits (B.cell base.now)) }
        ensures steps { steps.new ≤ steps.old + length keys.now }
    {
        edits.known();
        base.known();
        formed_edits_find_their_records();
        edited_cells_are_readable();
        let head = head_of(alloc, base, edits, steps)?;
        let answers = EditAnswers::make(alloc, edits)?;
        let merged = Merged::make(alloc, base, &answers, keys, steps)?;
        Ok(Overlay {
            base,
            edits,
            head,
            merged,
        })
    }
}

impl<'a, B: Look> Look for Overlay<'a, B> {
    ghost cell = { λ over. over };

    fn known(&self) {
        let _ = &self.base;
    }

    fn get<L: Ledger>(&self, name: RecName, steps: &mut Steps<L>) -> Option<&Rec> {
        edits_leave_their_records();
        match self.edits.find(name) {
            Some(edit) => {
                steps.tick();
                left_under(&self.head, edit)
            }
            None => self.base.get(name, steps),
        }
    }

    fn refs<L: Ledger>(&self, name: RecName, steps: &mut Steps<L>) -> &[Ref] {
        orders_are_by_parts();
        edited_answers();
        untouched_keys_keep_answers();
        match self.merged.pointers.get(&name) {
            Some(refs) => {
                steps.tick();
                refs.as_slice()
            }
            None => self.base.refs(name, steps),
        }
    }

    fn bearers<L: Ledger>(&self, foid: Lnam, steps: &mut Steps<L>) -> &[RecName] {
        orders_are_by_parts();
        edited_answers();
        untouched_keys_keep_answers();
        match self.merged.bearers.get(&foid) {
            Some(names) => {
                steps.tick();
                names.as_slice()
            }
            None => self.base.bearers(foid, steps),
        }
    }
}
