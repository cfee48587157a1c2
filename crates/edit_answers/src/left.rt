//! The records that edits leave.

ghost use Rattle.std.specs.Prelude.{◌≡◌, ◌++◌, IfOk, OnOk, filter_map, map, option_to_list};
ghost use Rattle.cell_spec.specs.Edits.{left_by};

use cell_spec::Edit;
use s57_types::Rec;
use std::alloc::{AllocError, Global};

// Appends the record that an edit leaves, if it leaves one.
fn push_left<'a>(list: &mut Vec<&'a Rec>, edit: &'a Edit) -> Result<(), AllocError>
    ensures { OnOk result (map (λ r. r.now) list.new.items ≡ map (λ r. r.now) list.old.items ++ option_to_list (left_by edit.now)) }
{
    if let Some(rec) = edit.record() {
        list.push(rec)?;
    }
    Ok(())
}

/// The records that edits leave, in the order of the edits.
pub(crate) fn left_records(alloc: Global, edits: &[Edit]) -> Result<Vec<&Rec>, AllocError>
    ensures { IfOk result (λ list. map (λ r. r.now) list.items ≡ filter_map left_by edits.now) }
{
    let mut list = Vec::new(alloc);
    for edit in edits {
        push_left(&mut list, edit)?;
    }
    Ok(list)
}
