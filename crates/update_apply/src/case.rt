//! A record of an update, with what it is read against.

ghost use Rattle.std.specs.Prelude.{◌≡◌, not};
ghost use Rattle.std.specs.Option.{option_or};
ghost use Rattle.s57_types.specs.declared.record.Rec.{Rec as SpecRec};
ghost use Rattle.cell_read.specs.KeptRecords.{IsKeptOf};
ghost use Rattle.file_spec.specs.RecordFaults.{demand};
ghost use Rattle.file_spec.specs.declared.fault.RecordFault.TheVariants.{TooLong};
ghost use Rattle.update_spec.specs.ControlFields.{has_controls};
ghost use Rattle.update_spec.specs.UpdateRecords.{is_new, is_short};
ghost use Rattle.update_spec.specs.declared.fault.UpdateFault.TheVariants.{BadControl, Record, TargetThere};
ghost use Rattle.update_apply.specs.Gives.{GivesUpdate};
ghost use Rattle.update_apply.specs.Kept.{added_unless_long};

use crate::refusal::StepRefusal;
use crate::tags::has_controls;
use crate::target::is_new;
use cell_spec::Edit;
use chain_topo::ListLook;
use file_spec::{RecordFault, RecordType};
use iso_frame::Frame;
use record_fit::is_short;
use s57_types::{Rec, RecName};
use std::alloc::Global;
use update_spec::UpdateFault;

/// A record of an update, with what it is read against.
#[derive(Drop)]
pub struct Case<'a> {
    pub alloc: Global,
    /// The cell.
    pub look: &'a ListLook<'a>,
    /// The lexical level NALL of the cell.
    pub nall: u8,
    /// The lexical level NALL of the update.
    pub level: u8,
    pub frame: &'a Frame<'a>,
}

impl<'a> Case<'a> {
    /// Why the record isn't inserted under a name, if it isn't: the cell has that name, or the record has control fields.
    pub fn insertion_fault(&self, name: RecName, kind: RecordType) -> Option<UpdateFault>
        ensures { result ≡ option_or (demand (is_new self.now.look.now name) TargetThere)
            (demand (not (has_controls kind self.now.frame.now.fields)) BadControl) }
    {
        if !is_new(self.look, name) {
            return Some(UpdateFault::TargetThere);
        }
        if has_controls(self.frame, kind) {
            return Some(UpdateFault::BadControl);
        }
        None
    }

    /// Why a record doesn't come out, if it doesn't: it would be too long in the cell's file.
    pub fn length_fault(&self, rec: &Rec) -> Option<UpdateFault>
        requires { self.now.nall ≡ self.now.look.now.head.nall }
        ensures { result ≡ demand (is_short self.now.look.now rec.now) (Record TooLong) }
    {
        if is_short(rec, self.nall) {
            return None;
        }
        Some(UpdateFault::Record(RecordFault::TooLong))
    }

    /// The edit that adds a record, of which all is kept, or so much that it is too long as the whole record is.
    pub fn addition(&self, rec: Rec) -> Result<Edit, StepRefusal>
        requires { self.now.nall ≡ self.now.look.now.head.nall }
        ensures { (whole : SpecRec) → IsKeptOf self.now.look.now.head.nall rec whole →
            GivesUpdate result (added_unless_long self.now.look.now whole) }
    {
        match self.length_fault(&rec) {
            Some(fault) => Err(StepRefusal::Fault(fault)),
            None => Ok(Edit::Add(rec)),
        }
    }
}
