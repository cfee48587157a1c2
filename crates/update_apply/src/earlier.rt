//! The edits of the records of an update that were read.

ghost use Rattle.std.specs.Prelude.{◌≡◌, ◌++◌, ◌∷◌, [], IfOk, length};
ghost use Rattle.edit_sets.specs.FormFault.{has_edit_of};

use cell_spec::{Edit, orders_are_by_parts};
use s57_types::{Items, RecName};
use std::alloc::{AllocError, Global};
use std::collections::BTreeSet;
use std::marker::Model;

/// Edits in the order of their records. They are seen as their list, and know in which names of records they are.
pub struct Earlier {
    edits: Items<Edit>,
    names: BTreeSet<RecName>,
}

impl Drop for Earlier {
    fn drop(self) {
        let Earlier { edits: _, names: _ } = self;
    }
}

impl Model for Earlier {
    ghost use Rattle.std.specs.Prelude.{◌≡◌, List};
    ghost use Rattle.std.specs.BTreeSet.{contains};
    ghost use Rattle.s57_types.specs.declared.name.RecName.{RecName as SpecName};
    ghost use Rattle.cell_spec.specs.declared.edit.Edit.{Edit as SpecEdit};
    ghost use Rattle.edit_sets.specs.FormFault.{has_edit_of};

    ghost Value = { List SpecEdit };

    ghost view = { λ earlier. earlier.edits };

    ghost invariant = { λ earlier. (n : SpecName) → contains ⟦<RecName as Ord>⟧.cmp earlier.names n ≡ has_edit_of n earlier.edits };
}

impl Earlier {
    /// No edit.
    pub fn none(alloc: Global) -> Earlier
        ensures { result ≡ [] }
    {
        Earlier {
            edits: Items::make(alloc),
            names: BTreeSet::new(alloc),
        }
    }

    /// Whether one of the edits is about what has a name.
    pub fn has(&self, name: RecName) -> bool
        ensures { result ≡ has_edit_of name self.now }
    {
        self.names.contains(&name)
    }

    /// How many edits there are.
    pub fn len(&self) -> usize
        ensures { result ≡ length self.now }
    {
        self.edits.len()
    }

    /// The edits.
    pub fn as_slice(&self) -> &[Edit]
        ensures { result.now ≡ self.now }
    {
        self.edits.as_slice()
    }

    /// The edits with one more behind them.
    ///
    /// An `Err` means out of memory.
    pub fn with(self, edit: Edit) -> Result<Earlier, AllocError>
        ensures { IfOk result (λ more. more ≡ self ++ (edit ∷ [])) }
    {
        orders_are_by_parts();
        let Earlier {
            mut edits,
            mut names,
        } = self;
        names.insert(edit.name())?;
        edits.push(edit)?;
        Ok(Earlier { edits, names })
    }
}
