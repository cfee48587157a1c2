//! What is told of a cell without counting look-ups.

ghost use Rattle.std.specs.Prelude.{◌≡◌, List, length, nat_lt, true};
ghost use Rattle.std.specs.Option.{option_copied};
ghost use Rattle.s57_types.specs.declared.cell.Cell.{Cell as SpecCell};
ghost use Rattle.cell_spec.specs.declared.key.Key.{Key as SpecKey};
ghost use Rattle.cell_spec.specs.declared.key.Key.TheVariants.{Foid as KeyFoid, Name as KeyName};
ghost use Rattle.cell_spec.specs.Lookup.{lookup_identity, lookup_record};
ghost use Rattle.near_records.specs.Near.{has_key};

use chain_topo::ListLook;
use s57_types::{Lnam, Rec, RecName};

/// What tells a cell's answers to some keys: answers that were gathered, or a look over the whole cell. Nothing is counted.
pub trait Near {
    /// Whether it tells what a cell answers to keys.
    ghost tells: { Self → SpecCell → List SpecKey → Type 0 };

    /// The record of a name among the keys, or none.
    fn record(&self, name: RecName) -> Option<&Rec>
        ensures { (c : SpecCell) (keys : List SpecKey) → tells self.now c keys → has_key keys (KeyName name) ≡ true
            → option_copied result ≡ lookup_record c name };

    /// Whether a feature bears an identifier among the keys.
    fn is_borne(&self, foid: Lnam) -> bool
        ensures { (c : SpecCell) (keys : List SpecKey) → tells self.now c keys → has_key keys (KeyFoid foid) ≡ true
            → result ≡ nat_lt 0 (length (lookup_identity c foid)) };
}

impl<'a> Near for ListLook<'a> {
    ghost tells = { λ look c _. look ≡ c };

    fn record(&self, name: RecName) -> Option<&Rec> {
        self.find_record(name)
    }

    fn is_borne(&self, foid: Lnam) -> bool {
        !self.find_bearers(foid).is_empty()
    }
}
