//! Records that were looked up already.

ghost use Rattle.std.specs.Prelude.{◌≡◌, ◌<◌, All, IfSome};
ghost use Rattle.std.specs.Option.{option_copied};
ghost use Rattle.s57_types.specs.declared.cell.Cell.{Cell as SpecCell};
ghost use Rattle.cell_spec.specs.Lookup.{lookup_record};
ghost use Rattle.recheck.specs.Known.{IsFound};

use cell_spec::Ref;
use chain_topo::{Look, Steps};
use s57_types::{Kind, Lnam, Rec, RecName};
use std::marker::Model;
use std::sync::ledger::Ledger;

/// How many records are kept at most: more than a commit of one node or edge mostly has near it.
const PLACES: usize = 128;

/// A name with what was found under it.
#[derive(Clone, Copy)]
struct Found<'a> {
    name: RecName,
    record: Option<&'a Rec>,
}

/// A look that keeps what it found under a few names, each in the place that its number tells, so that it isn't sought again: the connected
/// nodes and edges of a commit's pairs are asked for by these pairs, by the ends of edges, and by the areas around.
pub(crate) struct KnownLook<'a, B: Look> {
    base: &'a B,
    found: [Option<Found<'a>>; PLACES],
}

impl<'a, B: Look> Drop for KnownLook<'a, B> {
    fn drop(self) {
        let KnownLook { base: _, found: _ } = self;
    }
}

impl<'a, B: Look> Model for KnownLook<'a, B> {
    ghost use Rattle.std.specs.Prelude.{All};
    ghost use Rattle.s57_types.specs.declared.cell.Cell.{Cell};
    ghost use Rattle.recheck.specs.Known.{IsFound};

    ghost Value = { Cell };

    ghost view = { λ k. B.cell k.base.now };

    ghost invariant = { λ k. All (IsFound (B.cell k.base.now)) k.found };
}

/// The place of a name. Nodes and edges near each other often have the same numbers.
fn place_of(name: RecName) -> usize
    ensures { result < 128 }
{
    let number = name.id as usize;
    if name.kind == Kind::Ve {
        (number + PLACES / 2) % PLACES
    } else {
        number % PLACES
    }
}

/// Nothing in each place.
fn nothing<'a>() -> [Option<Found<'a>>; PLACES]
    ensures { (c : SpecCell) → All (IsFound c) result }
{
    [None; PLACES]
}

impl<'a, B: Look> KnownLook<'a, B> {
    /// A look that keeps what these names give, each of which is looked up, if they are few. Where names have one place the last of them is kept.
    pub(crate) fn keeping<L: Ledger>(
        base: &'a B,
        names: &[RecName],
        steps: &mut Steps<L>,
    ) -> KnownLook<'a, B>
        ensures { result ≡ B.cell base.now }
    {
        let mut known = KnownLook {
            base,
            found: nothing(),
        };
        // More would put each other out.
        if names.len() <= PLACES {
            for name in names {
                known.keep(*name, steps);
            }
        }
        known
    }

    /// Keeps what a name gives.
    fn keep<L: Ledger>(&mut self, name: RecName, steps: &mut Steps<L>)
        ensures { self.new ≡ self.old }
    {
        let record = self.base.get(name, steps);
        let found = &mut self.found[..];
        found[place_of(name)] = Some(Found { name, record });
    }

    /// What a name gave, if it is kept.
    fn kept(&self, name: RecName) -> Option<Found<'a>>
        ensures { IfSome result (λ found. option_copied found.record ≡ lookup_record self.now name) }
    {
        let kept = &self.found[..];
        let found = kept[place_of(name)]?;
        if found.name != name {
            return None;
        }
        Some(found)
    }
}

impl<'a, B: Look> Look for KnownLook<'a, B> {
    ghost cell = { λ known. known };

    fn known(&self) {
        self.base.known();
    }

    fn get<L: Ledger>(&self, name: RecName, steps: &mut Steps<L>) -> Option<&Rec> {
        match self.kept(name) {
            Some(found) => {
                steps.tick();
                found.record
            }
            None => self.base.get(name, steps),
        }
    }

    fn refs<L: Ledger>(&self, name: RecName, steps: &mut Steps<L>) -> &[Ref] {
        self.base.refs(name, steps)
    }

    fn bearers<L: Ledger>(&self, foid: Lnam, steps: &mut Steps<L>) -> &[RecName] {
        self.base.bearers(foid, steps)
    }
}
