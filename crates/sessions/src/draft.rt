//! What a session has put together for its next commit.

ghost use Rattle.std.specs.Prelude.{◌≡◌, ◌<◌, ◌^◌, MatchResult, length};
ghost use Rattle.edit_sets.specs.FormFault.{IsFormRefusal, IsSetOf};
ghost use Rattle.history_spec.specs.Served.{no_draft};

use cell_spec::Edit;
use edit_sets::{EditSet, FormRefusal};
use s57_types::RecName;
use std::alloc::Global;
use std::marker::Model;

/// The edits and the guards of a session's next commit.
#[derive(Debug)]
pub(crate) struct Draft {
    pub(crate) edits: Vec<Edit>,
    pub(crate) guards: Vec<RecName>,
}

impl Drop for Draft {
    fn drop(self) {
        let Draft {
            edits: _,
            guards: _,
        } = self;
    }
}

impl Model for Draft {
    ghost use Rattle.history_spec.specs.Served.{Draft as SpecDraft};

    ghost Value = { SpecDraft };

    ghost view = { λ d. record { edits = d.edits.items; guards = d.guards.items } };
}

impl Draft {
    /// The draft of nothing.
    pub(crate) fn make(alloc: Global) -> Draft
        ensures { result ≡ no_draft }
    {
        Draft {
            edits: Vec::new(alloc),
            guards: Vec::new(alloc),
        }
    }

    /// The edit set of the draft at a level, or the first fault of its form.
    pub(crate) fn set(&self, alloc: Global, nall: u8) -> Result<EditSet, FormRefusal>
        requires edits { length self.now.edits < 2 ^ 32 }
        requires guards { length self.now.guards < 2 ^ 32 }
        ensures { MatchResult result (IsSetOf nall self.now.edits self.now.guards) (IsFormRefusal nall self.now.edits self.now.guards) }
    {
        EditSet::make(alloc, &self.edits, &self.guards, nall)
    }
}
