//! A commit that was prepared.

ghost use Rattle.std.specs.Prelude.{◌≡◌, None};
ghost use Rattle.std.specs.Option.{option_copied};

use crate::plan::BenchPlan;
use cell_spec::Rows;
use edit_sets::EditSet;
use std::marker::Model;

/// A commit as it is prepared on a desk's copy of the cell: the base on which it rests, its edits with their guards, rows of
/// affected subjects on the edited cell, and the edited cell itself where it was built ahead.
pub struct Prepared {
    base: u32,
    edits: EditSet,
    rows: Rows,
    ahead: Option<BenchPlan>,
}

impl Drop for Prepared {
    fn drop(self) {
        let Prepared {
            base: _,
            edits: _,
            rows: _,
            ahead: _,
        } = self;
    }
}

impl Model for Prepared {
    ghost use Rattle.cell_bench.specs.Benches.{PreparedCommit};

    ghost Value = { PreparedCommit };

    ghost view = { λ p. record { base = p.base; edits = p.edits; rows = p.rows; ahead = p.ahead } };
}

impl Prepared {
    /// The commit of these edits on this base, with these rows. Nothing is built ahead.
    pub fn make(base: u32, edits: EditSet, rows: Rows) -> Prepared
        ensures base { result.base ≡ base }
        ensures edits { result.edits ≡ edits }
        ensures rows { result.rows ≡ rows }
        ensures ahead { result.ahead ≡ None }
    {
        Prepared::with_ahead(base, edits, rows, None)
    }

    /// The same, with the edited cell where it was built ahead.
    pub fn with_ahead(base: u32, edits: EditSet, rows: Rows, ahead: Option<BenchPlan>) -> Prepared
        ensures base { result.base ≡ base }
        ensures edits { result.edits ≡ edits }
        ensures rows { result.rows ≡ rows }
        ensures ahead { result.ahead ≡ ahead }
    {
        Prepared {
            base,
            edits,
            rows,
            ahead,
        }
    }

    /// The number of the accepted commit on which it rests.
    pub fn base(&self) -> u32
        ensures { result ≡ self.now.base }
    {
        self.base
    }

    /// The edits with their guards.
    pub fn edits(&self) -> &EditSet
        ensures { result.now ≡ self.now.edits }
    {
        &self.edits
    }

    /// The rows of affected subjects.
    pub fn rows(&self) -> &Rows
        ensures { result.now ≡ self.now.rows }
    {
        &self.rows
    }

    /// The edited cell, where it was built ahead.
    pub fn ahead(&self) -> Option<&BenchPlan>
        ensures { option_copied result ≡ self.now.ahead }
    {
        self.ahead.as_ref()
    }
}
