//! The second round: each record of the first one with those that may touch it.

ghost use Rattle.std.specs.Prelude.{◌≡◌, IfOk, OnOk, not, true, if◌then◌else◌};
ghost use Rattle.std.specs.List.{list_any};
ghost use Rattle.std.specs.List.Sorted.{IsStrictlySortedBy};
ghost use Rattle.s57_types.specs.declared.name.RecName.{RecName as SpecRecName};
ghost use Rattle.cell_spec.specs.Names.{name_order, same_name};
ghost use Rattle.rule_spec.specs.Affected.{pair_of as spec_pair_of};
ghost use Rattle.row_spec.specs.Rows.{IsAscending};
ghost use Rattle.finding_laws.specs.Tables.{mates_in};
ghost use Rattle.affected_subjects.specs.NewPairs.{is_new as spec_is_new, new_pairs, noted, pairs_found, set_out as spec_set_out};
ghost use Rattle.affected_subjects.specs.NewPairs.{walk_past, walked_by, with_pair, with_pairs};

use cell_spec::{Subject, orders_are_by_parts};
use check_words::is_below;
use s57_types::RecName;
use std::alloc::{AllocError, Global};
use std::collections::BTreeSet;
use tile_index::{NotedPlan, TileIndex};

// How many pairs there is room for from the start. A node or an edge has mostly fewer mates.
const ROOM: usize = 64;

// A walk over the records of the first round: the names that it has passed, and their pairs, each once. A pair of a record stands there
// already just where its other record is passed, since of two mates each has the other: so no pair is sought among the pairs.
#[derive(Drop)]
struct Walk {
    passed: BTreeSet<RecName>,
    pairs: Vec<Subject>,
}

// Two names as a pair, the lesser first.
fn pair_of(name: RecName, other: RecName) -> Subject
    ensures { result ≡ spec_pair_of name other }
{
    if is_below(name, other) {
        Subject::Pair(name, other)
    } else {
        Subject::Pair(other, name)
    }
}

// Whether a name is one of some in ascending order.
fn is_among(names: &[RecName], name: RecName) -> bool
    requires { IsStrictlySortedBy name_order names.now }
    ensures { result ≡ list_any (same_name name) names.now }
{
    orders_are_by_parts();
    names.binary_search(&name).is_ok()
}

impl Walk {
    // A walk that has passed nothing. An `Err` means out of memory.
    fn set_out(alloc: Global) -> Result<Walk, AllocError>
        ensures { IfOk result (λ walk. walked_by walk ≡ spec_set_out) }
    {
        Ok(Walk {
            passed: BTreeSet::new(alloc),
            pairs: Vec::with_capacity(alloc, ROOM)?,
        })
    }

    // Whether a name is passed.
    fn has_passed(&self, name: RecName) -> bool
        ensures { result ≡ (walked_by self.now).passed name }
    {
        orders_are_by_parts();
        self.passed.contains(&name)
    }

    // Passes a name, and tells whether it wasn't passed yet. An `Err` means out of memory.
    fn note(&mut self, name: RecName) -> Result<bool, AllocError>
        ensures new { IfOk result (λ new. new ≡ not ((walked_by self.old).passed name)) }
        ensures noted { IfOk result (λ new. walked_by self.new ≡ (if new then noted name (walked_by self.old) else walked_by self.old)) }
    {
        orders_are_by_parts();
        Ok(self.passed.insert(name)?)
    }

    // Whether a mate brings a new pair: it isn't passed, and isn't among the known ones, which ascend.
    fn is_new(&self, known: &[RecName], mate: RecName) -> bool
        requires { IsStrictlySortedBy name_order known.now }
        ensures { result ≡ spec_is_new (walked_by self.now).passed known.now mate }
    {
        !self.has_passed(mate) && !is_among(known, mate)
    }

    // Adds the pair of a record and a mate, if it is new.
    fn add_pair(
        &mut self,
        name: RecName,
        known: &[RecName],
        mate: RecName,
    ) -> Result<(), AllocError>
        requires { IsStrictlySortedBy name_order known.now }
        ensures { OnOk result (walked_by self.new ≡ with_pair known.now name (walked_by self.old) mate) }
    {
        if self.is_new(known, mate) {
            self.pairs.push(pair_of(name, mate))?;
        }
        Ok(())
    }

    // Adds the new pairs of a record and some mates.
    fn add_pairs(
        &mut self,
        name: RecName,
        known: &[RecName],
        mates: &[RecName],
    ) -> Result<(), AllocError>
        requires { IsStrictlySortedBy name_order known.now }
        ensures { OnOk result (walked_by self.new
            ≡ with_pairs (walked_by self.old) (new_pairs (walked_by self.old).passed name known.now mates.now)) }
    {
        for mate in mates {
            self.add_pair(name, known, *mate)?;
        }
        Ok(())
    }

    // Goes past a subject. If it is a record that isn't passed yet, it adds its new pairs: those with its mates before, then those with its
    // mates after, unless they are known to be the same.
    fn pass(
        &mut self,
        alloc: Global,
        tiles: &TileIndex,
        noted: &NotedPlan,
        subject: Subject,
    ) -> Result<(), AllocError>
        requires rows { IsAscending name_order tiles.now }
        requires same { noted.now.keeps_mates ≡ true → (n : SpecRecName) → mates_in noted.now.plan n ≡ mates_in tiles.now n }
        ensures { OnOk result (walked_by self.new ≡ walk_past tiles.now noted.now.plan (walked_by self.old) subject) }
    {
        let Subject::Rec(name) = subject else {
            return Ok(());
        };
        if !self.note(name)? {
            return Ok(());
        }
        let before = tiles.mates(alloc, name)?;
        self.add_pairs(name, &[], before.as_slice())?;
        if noted.keeps_mates {
            return Ok(());
        }
        let after = tiles.mates_after(alloc, &noted.plan, name)?;
        self.add_pairs(name, before.as_slice(), after.as_slice())
    }
}

/// The pairs of the records of the first round, one record after the other, each pair once. An `Err` means out of memory.
pub(crate) fn second_round(
    alloc: Global,
    first: &[Subject],
    tiles: &TileIndex,
    noted: &NotedPlan,
) -> Result<Vec<Subject>, AllocError>
    requires rows { IsAscending name_order tiles.now }
    requires same { noted.now.keeps_mates ≡ true → (n : SpecRecName) → mates_in noted.now.plan n ≡ mates_in tiles.now n }
    ensures { IfOk result (λ pairs. pairs.items ≡ pairs_found tiles.now noted.now.plan first.now) }
{
    let mut walk = Walk::set_out(alloc)?;
    for subject in first {
        walk.pass(alloc, tiles, noted, *subject)?;
    }
    Ok(walk.pairs)
}
