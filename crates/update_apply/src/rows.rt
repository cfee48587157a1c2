//! Lists of a record after an update.

ghost use Rattle.std.specs.Prelude.{◌≡◌, ◌++◌, IfOk, None};
ghost use Rattle.file_spec.specs.RecordReading.{rows_of};
ghost use Rattle.update_spec.specs.ControlFields.{control_among, instruction_of};
ghost use Rattle.update_spec.specs.UpdatedRows.{changed_rows, has_place, updated_rows};
ghost use Rattle.update_apply.specs.Gives.{GivesUpdate};

use crate::control::control_among;
use crate::given::{Given, kept_rows_of};
use crate::refusal::StepRefusal;
use file_spec::FieldTag;
use iso_frame::Frame;
use s57_types::{Duplicate, Items};
use std::alloc::{AllocError, Global};
use update_spec::{Control, ControlTag, Instruction, UpdateFault};

/// The instruction of a number, as RUIN and the control fields have it.
pub fn instruction_of(number: u8) -> Option<Instruction>
    ensures { result ≡ instruction_of number }
{
    if number == 1 {
        Some(Instruction::Insert)
    } else if number == 2 {
        Some(Instruction::Delete)
    } else if number == 3 {
        Some(Instruction::Modify)
    } else {
        None
    }
}

/// Whether rows that a control field speaks of are there, and as many rows are given as are wanted.
fn has_place(removed: u16, wanted: u16, control: Control, given: usize, rows: usize) -> bool
    ensures { result ≡ has_place removed wanted control given rows }
{
    let front = usize::from(control.index).saturating_sub(1);
    control.index >= 1
        && control.count >= 1
        && front + usize::from(removed) <= rows
        && given == usize::from(wanted)
}

/// Copies of rows, given rows, and copies of further rows.
fn joined<T: Duplicate + Drop>(
    alloc: Global,
    front: &[T],
    given: Items<T>,
    back: &[T],
) -> Result<Items<T>, AllocError>
    ensures { IfOk result (λ rows. rows ≡ front.now ++ given ++ back.now) }
{
    let mut rows = Items::copy_of(alloc, front)?.into_vec();
    rows.append(&mut given.into_vec())?;
    rows.append(&mut Items::copy_of(alloc, back)?.into_vec())?;
    Ok(Items::of_vec(rows))
}

/// Rows of which so many, from the index of a control field on, go, and the given ones come in their place.
#[tactic(auto, unfolding(update_spec::specs::UpdatedRows::changed_rows))]
fn changed_rows<T: Duplicate + Drop>(
    alloc: Global,
    removed: u16,
    wanted: u16,
    control: Control,
    given: Items<T>,
    rows: &[T],
) -> Result<Items<T>, StepRefusal>
    ensures { GivesUpdate result (changed_rows removed wanted control given rows.now) }
{
    if !has_place(removed, wanted, control, given.len(), rows.len()) {
        return Err(StepRefusal::Fault(UpdateFault::BadControl));
    }
    let front = usize::from(control.index).saturating_sub(1);
    let (before, _) = rows.split_at(front);
    let (_, behind) = rows.split_at(front + usize::from(removed));
    Ok(joined(alloc, before, given, behind)?)
}

/// Copies of rows to which no row is given.
#[tactic(auto, unfolding(update_spec::specs::UpdatedRows::updated_rows))]
fn kept_rows<T: Duplicate + Drop>(
    alloc: Global,
    given: &Items<T>,
    rows: &[T],
) -> Result<Items<T>, StepRefusal>
    ensures { GivesUpdate result (updated_rows None given.now rows.now) }
{
    if !given.is_empty() {
        return Err(StepRefusal::Fault(UpdateFault::BadControl));
    }
    Ok(Items::copy_of(alloc, rows)?)
}

/// The rows of a list after an update, with the rows that it gives.
#[tactic(auto, unfolding(update_spec::specs::UpdatedRows::updated_rows))]
pub fn updated_rows<T: Duplicate + Drop>(
    alloc: Global,
    control: Option<Control>,
    given: Items<T>,
    rows: &[T],
) -> Result<Items<T>, StepRefusal>
    ensures { GivesUpdate result (updated_rows control given rows.now) }
{
    let Some(control) = control else {
        return kept_rows(alloc, &given, rows);
    };
    match instruction_of(control.instruction) {
        Some(Instruction::Insert) => changed_rows(alloc, 0, control.count, control, given, rows),
        Some(Instruction::Delete) => changed_rows(alloc, control.count, 0, control, given, rows),
        Some(Instruction::Modify) => {
            changed_rows(alloc, control.count, control.count, control, given, rows)
        }
        None => Err(StepRefusal::Fault(UpdateFault::BadControl)),
    }
}

/// The rows of a list after an update by a record that gives rows of a tag, and says in a control field where they come.
pub fn modified_rows<T: Given + Duplicate>(
    alloc: Global,
    frame: &Frame<'_>,
    tag: FieldTag,
    control: ControlTag,
    rows: &Items<T>,
) -> Result<Items<T>, StepRefusal>
    ensures { GivesUpdate result (updated_rows (control_among control frame.now.fields) (rows_of tag (T.content 0) frame.now.fields) rows.now) }
{
    let given = kept_rows_of(alloc, frame, tag)?;
    let control = control_among(frame, control);
    updated_rows(alloc, control, given, rows.as_slice())
}
