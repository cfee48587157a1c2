//! An accepted commit.

ghost use Rattle.std.specs.Prelude.{◌≡◌, ◌+◌, ◌≤◌, IfOk, drop, length};
ghost use Rattle.cell_spec.specs.Edits.{touched_keys};

use cell_bench::Bench;
use cell_overlay::touched;
use cell_spec::Keys;
use chain_topo::Steps;
use edit_sets::EditSet;
use s57_types::Duplicate;
use std::alloc::{AllocError, Global};
use std::sync::ledger::Ledger;

/// A commit that the cell took: the desk that made it, its edits with their guards, and the keys that these edits touched,
/// whose answers they could change.
#[derive(Debug, Drop)]
pub struct Accepted {
    pub desk: u32,
    pub set: EditSet,
    pub touched: Keys,
}

impl Accepted {
    /// The commit of a desk to the cell of a bench. It looks up the name of each edit.
    ///
    /// An `Err` means out of memory.
    pub(crate) fn make<L: Ledger>(
        alloc: Global,
        desk: u32,
        set: &EditSet,
        bench: &Bench,
        steps: &mut Steps<L>,
    ) -> Result<Accepted, AllocError>
        ensures desk { IfOk result (λ accepted. accepted.desk ≡ desk) }
        ensures set { IfOk result (λ accepted. accepted.set ≡ set.now) }
        ensures touched { IfOk result (λ accepted. accepted.touched ≡ touched_keys set.now.edits bench.now) }
        ensures steps { steps.new ≤ steps.old + length set.now.edits }
    {
        Ok(Accepted {
            desk,
            set: set.copy(alloc)?,
            touched: touched(alloc, bench.store(), set, steps)?,
        })
    }
}

/// The commits that were accepted after a base.
pub(crate) fn accepted_after(accepted: &[Accepted], base: u32) -> &[Accepted]
    requires { base ≤ length accepted.now }
    ensures newer { result.now ≡ drop base accepted.now }
    ensures len { length result.now + base ≡ length accepted.now }
{
    let (_, newer) = accepted.split_at(base as usize);
    newer
}
