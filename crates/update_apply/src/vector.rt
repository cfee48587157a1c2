//! Vector records of an update (S-57 Part 3, 8.4.3).

ghost use Rattle.std.specs.Prelude.{◌≡◌, ◌+◌, ◌==◌, ℕ, List, IfOk};
ghost use Rattle.frame_spec.specs.RecordFrame.{Field};
ghost use Rattle.cell_read.specs.KeptRecords.{IsKeptOf};
ghost use Rattle.update_spec.specs.ControlFields.{control_among};
ghost use Rattle.update_spec.specs.UpdatedRows.{updated_coordinates};
ghost use Rattle.update_spec.specs.UpdateRecords.{given_coordinates, inserted_vector, modified_vector, vector_edit};
ghost use Rattle.update_spec.specs.declared.control.ControlTag.TheVariants.{Sgcc};
ghost use Rattle.update_spec.specs.declared.control.Instruction.TheVariants.{Insert, Delete, Modify};
ghost use Rattle.update_apply.specs.Gives.{GivesUpdate};
ghost use Rattle.update_apply.specs.Kept.{AreKept};

use crate::attributes::modified_attributes;
use crate::case::Case;
use crate::control::control_among;
use crate::coordinates::updated_coordinates;
use crate::given::{kept_rows_of, rows_of};
use crate::refusal::StepRefusal;
use crate::rows::modified_rows;
use crate::target::target_vector;
use cell_spec::Edit;
use chain_topo::ListLook;
use file_spec::{FieldTag, RecordType};
use iso_frame::Frame;
use s57_types::{Deep, Plane, Rec, Vector, Vrid};
use std::alloc::{AllocError, Global};
use update_spec::{ControlTag, Instruction, UpdateFault};

/// What is kept of the record that a vector record inserts.
fn inserted_vector(alloc: Global, vrid: Vrid, frame: &Frame<'_>) -> Result<Rec, AllocError>
    ensures { (nall : ℕ) → IfOk result (λ rec. IsKeptOf nall rec (inserted_vector vrid frame.now.fields)) }
{
    let attrs = rows_of(alloc, frame, FieldTag::Attv, 0)?;
    let ends = kept_rows_of(alloc, frame, FieldTag::Vrpt)?;
    let plane = kept_rows_of(alloc, frame, FieldTag::Sg2d)?;
    let deep = kept_rows_of(alloc, frame, FieldTag::Sg3d)?;
    Ok(Rec::V(Vector {
        name: vrid.name,
        rver: vrid.rver,
        attrs,
        ends,
        plane,
        deep,
    }))
}

/// What is kept of the coordinates that a record gives.
fn given_coordinates(alloc: Global, frame: &Frame<'_>) -> Result<(Plane, Deep), AllocError>
    ensures { IfOk result (λ kept. AreKept (kept.0, kept.1) (given_coordinates frame.now.fields)) }
{
    let plane = kept_rows_of(alloc, frame, FieldTag::Sg2d)?;
    let deep = kept_rows_of(alloc, frame, FieldTag::Sg3d)?;
    Ok((plane, deep))
}

/// The coordinates of a modified vector record.
fn modified_coordinates(
    alloc: Global,
    target: &Vector,
    frame: &Frame<'_>,
) -> Result<(Plane, Deep), StepRefusal>
    ensures { GivesUpdate result
        (updated_coordinates (control_among Sgcc frame.now.fields) (given_coordinates frame.now.fields) (target.now.plane, target.now.deep)) }
{
    let given = given_coordinates(alloc, frame)?;
    let control = control_among(frame, ControlTag::Sgcc);
    updated_coordinates(alloc, control, given, &target.plane, &target.deep)
}

/// The record that a vector record makes of its target.
#[tactic(auto, using(crate::proofs::Steps::stops, crate::proofs::Steps::goes), unfolding(update_spec::specs::UpdateRecords::modified_vector))]
fn modified_vector(
    alloc: Global,
    target: &Vector,
    vrid: Vrid,
    frame: &Frame<'_>,
) -> Result<Rec, StepRefusal>
    ensures { GivesUpdate result (modified_vector target.now vrid frame.now.fields) }
{
    let ends = modified_rows(alloc, frame, FieldTag::Vrpt, ControlTag::Vrpc, &target.ends)?;
    let points = modified_coordinates(alloc, target, frame)?;
    let attrs = modified_attributes(alloc, frame, FieldTag::Attv, 0, &target.attrs)?;
    Ok(Rec::V(Vector {
        name: vrid.name,
        rver: vrid.rver,
        attrs,
        ends,
        plane: points.0,
        deep: points.1,
    }))
}

/// Whether a version RVER is the next one.
pub fn is_next_version(before: u16, after: u16) -> bool
    ensures { result ≡ (after == before + 1) }
{
    u32::from(after) == u32::from(before) + 1
}

/// The edit of a vector record that is inserted.
#[tactic(auto, unfolding(update_spec::specs::UpdateRecords::vector_edit))]
fn vector_insertion(case: &Case<'_>, vrid: Vrid) -> Result<Edit, StepRefusal>
    requires { case.now.nall ≡ case.now.look.now.head.nall }
    ensures { GivesUpdate result (vector_edit Insert case.now.look.now vrid case.now.frame.now.fields) }
{
    if let Some(fault) = case.insertion_fault(vrid.name, RecordType::Vector) {
        return Err(StepRefusal::Fault(fault));
    }
    let rec = inserted_vector(case.alloc, vrid, case.frame)?;
    case.addition(rec)
}

/// The edit of a vector record that is deleted.
#[tactic(auto, unfolding(update_spec::specs::UpdateRecords::vector_edit))]
fn vector_deletion(look: &ListLook<'_>, vrid: Vrid) -> Result<Edit, UpdateFault>
    ensures { (fields : List Field) → result ≡ vector_edit Delete look.now vrid fields }
{
    if target_vector(look, vrid.name).is_none() {
        return Err(UpdateFault::NoTarget);
    }
    Ok(Edit::Del(vrid.name))
}

/// The edit of a vector record that is modified.
#[tactic(auto, unfolding(update_spec::specs::UpdateRecords::vector_edit))]
fn vector_modification(case: &Case<'_>, vrid: Vrid) -> Result<Edit, StepRefusal>
    requires { case.now.nall ≡ case.now.look.now.head.nall }
    ensures { GivesUpdate result (vector_edit Modify case.now.look.now vrid case.now.frame.now.fields) }
{
    let Some(target) = target_vector(case.look, vrid.name) else {
        return Err(StepRefusal::Fault(UpdateFault::NoTarget));
    };
    if !is_next_version(target.rver, vrid.rver) {
        return Err(StepRefusal::Fault(UpdateFault::WrongVersion));
    }
    let rec = modified_vector(case.alloc, target, vrid, case.frame)?;
    match case.length_fault(&rec) {
        Some(fault) => Err(StepRefusal::Fault(fault)),
        None => Ok(Edit::Set(rec)),
    }
}

/// The edit of a vector record, by its instruction.
pub fn vector_edit(
    case: &Case<'_>,
    instruction: Instruction,
    vrid: Vrid,
) -> Result<Edit, StepRefusal>
    requires { case.now.nall ≡ case.now.look.now.head.nall }
    ensures { GivesUpdate result (vector_edit instruction case.now.look.now vrid case.now.frame.now.fields) }
{
    match instruction {
        Instruction::Insert => vector_insertion(case, vrid),
        Instruction::Delete => Ok(vector_deletion(case.look, vrid)?),
        Instruction::Modify => vector_modification(case, vrid),
    }
}
