//! The head after edits.

ghost use Rattle.std.specs.Prelude.{◌≡◌, ◌+◌, ◌≤◌, IfOk, Some};
ghost use Rattle.s57_types.specs.Heads.{edited_head, head_name};
ghost use Rattle.s57_types.specs.declared.record.Rec.TheVariants.{H};
ghost use Rattle.cell_spec.specs.Edits.{edit_of};
ghost use Rattle.cell_overlay.specs.Laid.{head_left};

use cell_spec::Edit;
use chain_topo::{Look, Steps};
use edit_sets::EditSet;
use s57_types::{HeadEdit, Rec, RecName};
use std::alloc::{AllocError, Global};
use std::sync::ledger::Ledger;

// The head with the six values of an edit. The base is asked for its head.
fn with_values<B: Look, L: Ledger>(
    alloc: Global,
    base: &B,
    edit: &HeadEdit,
    steps: &mut Steps<L>,
) -> Result<Option<Rec>, AllocError>
    ensures head { IfOk result (λ head. head ≡ Some (H (edited_head edit.now (B.cell base.now).head))) }
    ensures steps { steps.new ≤ steps.old + 1 }
{
    match base.get(RecName::of_head(), steps) {
        Some(Rec::H(head)) => Ok(Some(Rec::of_head(alloc, head.edited(alloc, edit)?)?)),
        _ => Ok(None),
    }
}

/// The head that edits leave, if one of them is of it.
pub(crate) fn head_of<B: Look, L: Ledger>(
    alloc: Global,
    base: &B,
    edits: &EditSet,
    steps: &mut Steps<L>,
) -> Result<Option<Rec>, AllocError>
    ensures head { IfOk result (λ head. head ≡ head_left (B.cell base.now).head (edit_of head_name edits.now.edits)) }
    ensures steps { steps.new ≤ steps.old + 1 }
{
    match edits.find(RecName::of_head()) {
        Some(Edit::Head(edit)) => with_values(alloc, base, edit, steps),
        None | Some(Edit::Add(_) | Edit::Set(_) | Edit::Del(_)) => Ok(None),
    }
}
