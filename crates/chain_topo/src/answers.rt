//! What a cell answers.

ghost use Rattle.std.specs.Prelude.{◌≡◌, ◌+◌};
ghost use Rattle.std.specs.Option.{option_copied};
ghost use Rattle.s57_types.specs.declared.cell.Cell.{Cell};
ghost use Rattle.cell_spec.specs.Lookup.{lookup_record, lookup_pointers, lookup_identity};
ghost use Rattle.chain_topo.specs.Readable.{IsReadable};

use cell_spec::Ref;
use look_counter::Steps;
use s57_types::{Lnam, Rec, RecName};
use std::sync::ledger::Ledger;

/// A way to look into a cell: what it answers is what the cell answers. Each answer is counted as one step, and none
/// takes memory.
pub trait Look {
    ghost cell: { Self → Cell };

    /// The cell is one that can be looked into.
    fn known(&self)
        ensures { IsReadable (cell self.now) };

    /// The record of a name, or none.
    fn get<L: Ledger>(&self, name: RecName, steps: &mut Steps<L>) -> Option<&Rec>
        ensures found { option_copied result ≡ lookup_record (cell self.now) name }
        ensures step { steps.new ≡ steps.old + 1 };

    /// The pointers to a name, ascending by the record that has them, then by place.
    fn refs<L: Ledger>(&self, name: RecName, steps: &mut Steps<L>) -> &[Ref]
        ensures found { result.now ≡ lookup_pointers (cell self.now) name }
        ensures step { steps.new ≡ steps.old + 1 };

    /// The features that bear a feature object identifier, ascending.
    fn bearers<L: Ledger>(&self, foid: Lnam, steps: &mut Steps<L>) -> &[RecName]
        ensures found { result.now ≡ lookup_identity (cell self.now) foid }
        ensures step { steps.new ≡ steps.old + 1 };
}
