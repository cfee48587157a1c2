//! An edit of a record or of the head.

ghost use Rattle.std.specs.Prelude.{◌≡◌};
ghost use Rattle.std.specs.Option.{option_copied};

use s57_types::{Duplicate, HeadEdit, Rec, RecName};
use std::alloc::{AllocError, Global};

/// One edit of a cell: a new record, a record in place of the one that has its name, the end of a record, or new values of the head.
#[derive(Debug, Drop)]
pub enum Edit {
    Add(Rec),
    Set(Rec),
    Del(RecName),
    Head(HeadEdit),
}

impl Edit {
    ghost use Rattle.cell_spec.specs.Edits.{name_of_edit, left_by};

    /// The name of the record or head that the edit is about.
    pub fn name(&self) -> RecName
        ensures { result ≡ name_of_edit self.now }
    {
        match self {
            Edit::Add(rec) | Edit::Set(rec) => rec.name(),
            Edit::Del(name) => *name,
            Edit::Head(_) => RecName::of_head(),
        }
    }

    /// The record that the edit leaves under its name. A deletion leaves none, nor does an edit of the head.
    pub fn record(&self) -> Option<&Rec>
        ensures { option_copied result ≡ left_by self.now }
    {
        match self {
            Edit::Add(rec) | Edit::Set(rec) => Some(rec),
            Edit::Del(_) | Edit::Head(_) => None,
        }
    }
}

impl Duplicate for Edit {
    fn copy(&self, alloc: Global) -> Result<Edit, AllocError> {
        Ok(match self {
            Edit::Add(rec) => Edit::Add(rec.copy(alloc)?),
            Edit::Set(rec) => Edit::Set(rec.copy(alloc)?),
            Edit::Del(name) => Edit::Del(*name),
            Edit::Head(edit) => Edit::Head(edit.copy(alloc)?),
        })
    }
}
