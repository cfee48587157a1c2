//! Names with boxes.

ghost use Rattle.std.specs.Prelude.{◌≡◌, ◌++◌, OnOk};
ghost use Rattle.box_tree.specs.Leaves.{box_with as spec_box_with, leaves_meeting, meets as spec_meets, names_meeting};

use geometry_spec::Box4;
use line_boxes::{are_disjoint, united};
use s57_types::RecName;
use std::alloc::AllocError;

/// A name with the box around what bears it, in integer coordinate units.
#[derive(Clone, Copy, Debug, PartialEq, Eq)]
pub struct Leaf {
    pub name: RecName,
    pub around: Box4,
}

impl Leaf {
    /// Whether the leaf's box has a point in common with a box.
    pub fn meets(&self, around: Box4) -> bool
        ensures { result ≡ spec_meets around self.now }
    {
        !are_disjoint(around, self.around)
    }
}

/// The least box that holds a box and those of leaves.
pub(crate) fn box_with(start: Box4, leaves: &[Leaf]) -> Box4
    ensures { result ≡ spec_box_with start leaves.now }
{
    let mut around = start;
    for leaf in leaves {
        around = united(around, leaf.around);
    }
    around
}

/// Appends the names of those leaves whose boxes meet a box.
pub(crate) fn push_names(
    out: &mut Vec<RecName>,
    around: Box4,
    leaves: &[Leaf],
) -> Result<(), AllocError>
    ensures { OnOk result (out.new.items ≡ out.old.items ++ names_meeting around leaves.now) }
{
    for leaf in leaves {
        if leaf.meets(around) {
            out.push(leaf.name)?;
        }
    }
    Ok(())
}

/// Appends those leaves whose boxes meet a box.
pub(crate) fn push_leaves(
    out: &mut Vec<Leaf>,
    around: Box4,
    leaves: &[Leaf],
) -> Result<(), AllocError>
    ensures { OnOk result (out.new.items ≡ out.old.items ++ leaves_meeting around leaves.now) }
{
    for leaf in leaves {
        if !leaf.meets(around) {
            continue;
        }
        out.push(*leaf)?;
    }
    Ok(())
}
