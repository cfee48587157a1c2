//! A look over a cell with sorted lists.

ghost use Rattle.std.specs.Prelude.{◌≡◌, All, IfOk, map, find};
ghost use Rattle.std.specs.Borrow.{Bor};
ghost use Rattle.std.specs.Option.{option_copied};
ghost use Rattle.std.specs.List.Sorted.{IsPermutation, IsSortedByKey};
ghost use Rattle.s57_types.specs.declared.record.Rec.{Rec as SpecRec};
ghost use Rattle.cell_spec.specs.Ascending.{order_by};
ghost use Rattle.cell_spec.specs.Lookup.{is_named, name_of as spec_name, lookup_record, lookup_pointers, lookup_identity};
ghost use Rattle.cell_spec.specs.Names.{name_order, identity_parts};
ghost use Rattle.chain_topo.specs.Answers.{IsByName};
ghost use Rattle.chain_topo.specs.Listed.{AreBearersOf, ArePointersOf, HasFewPointers, values_at};
ghost use Rattle.chain_topo.specs.Readable.{IsReadable};

use crate::answers::Look;
use crate::counted::dealt_by_keys;
use crate::groups::Groups;
use crate::listed::{list_identities, list_pointers, records_of};
use crate::starts::Starts;
use cell_spec::{Key, Ref, orders_are_by_parts};
use look_counter::Steps;
use s57_types::{Cell, Duplicate, Kind, Lnam, Rec, RecName};
use std::alloc::{AllocError, Global};
use std::marker::Model;
use std::sync::ledger::Ledger;

/// A cell with its records sorted by name, its pointers by target and its features by identifier: each look-up is a
/// binary search, but that of a record where the numbers of its kind have no gaps, and that of the pointers to it where they have few.
pub struct ListLook<'a> {
    cell: &'a Cell,
    head: Rec,
    records: Vec<&'a Rec>,
    pointers: Groups<RecName, Ref>,
    starts: Starts,
    identities: Groups<Lnam, RecName>,
}

impl<'a> Drop for ListLook<'a> {
    fn drop(self) {
        let ListLook {
            cell: _,
            head: _,
            records: _,
            pointers: _,
            starts: _,
            identities: _,
        } = self;
    }
}

impl<'a> Model for ListLook<'a> {
    ghost use Rattle.std.specs.Prelude.{◌≡◌};
    ghost use Rattle.s57_types.specs.declared.cell.Cell.{Cell};
    ghost use Rattle.s57_types.specs.declared.record.Rec.TheVariants.{H};
    ghost use Rattle.chain_topo.specs.Answers.{Answers};

    ghost Value = { Cell };

    ghost view = { λ l. l.cell.now };

    ghost invariant = { λ l. Answers l.cell.now l.records.items l.pointers l.identities × (l.head ≡ H l.cell.now.head) };
}

impl<'a> ListLook<'a> {
    /// The look over a cell. It sorts the cell's records, pointers and identifiers.
    ///
    /// An `Err` means out of memory.
    pub fn make(alloc: Global, cell: &'a Cell) -> Result<ListLook<'a>, AllocError>
        requires { IsReadable cell.now }
        ensures { IfOk result (λ look. look ≡ cell.now) }
    {
        let records = records_of(alloc, cell)?;
        let (pointers, starts) = pointers_with_starts(alloc, &records)?;
        let identities = group_identities(alloc, &records)?;
        let head = Rec::of_head(alloc, cell.head.copy(alloc)?)?;
        Ok(ListLook {
            cell,
            head,
            records: sorted_by_name(records),
            pointers,
            starts,
            identities,
        })
    }
}

impl<'a> ListLook<'a> {
    /// Where the records of a kind begin among those sorted by name, if each list of the cell has one kind.
    fn first_place(&self, kind: Kind) -> usize {
        let nodes = self.cell.vi.len().saturating_add(self.cell.vc.len());
        match kind {
            Kind::Vi => 0,
            Kind::Vc => self.cell.vi.len(),
            Kind::Ve => nodes,
            Kind::Fe | Kind::Head => nodes.saturating_add(self.cell.ve.len()),
        }
    }

    /// The place of a name among the sorted records, if its kind has a record for each number from the least to it.
    fn likely_place(&self, name: RecName) -> usize {
        let first = self.first_place(name.kind);
        match self.records.get(first) {
            Some(rec) => first.saturating_add(name.id.saturating_sub(rec.name().id) as usize),
            None => first,
        }
    }
}

/// The look-ups where nobody counts them, as in a check of the whole cell.
impl<'a> ListLook<'a> {
    /// The record of a name, or none.
    pub fn find_record(&self, name: RecName) -> Option<&Rec>
        ensures { option_copied result ≡ lookup_record self.now name }
    {
        if name == RecName::of_head() {
            return Some(&self.head);
        }
        find_near(&self.records, self.likely_place(name), name)
    }

    /// The pointers to a name, ascending by the record that has them, then by place.
    pub fn find_pointers(&self, name: RecName) -> &[Ref]
        ensures { result.now ≡ lookup_pointers self.now name }
    {
        pointers_to(&self.pointers, &self.starts, name)
    }

    /// The features that bear a feature object identifier, ascending.
    pub fn find_bearers(&self, foid: Lnam) -> &[RecName]
        ensures { result.now ≡ lookup_identity self.now foid }
    {
        bearers_of(&self.identities, foid)
    }
}

impl<'a> Look for ListLook<'a> {
    ghost cell = { λ look. look };

    fn known(&self) {
        let _ = &self.cell;
    }

    fn get<L: Ledger>(&self, name: RecName, steps: &mut Steps<L>) -> Option<&Rec> {
        steps.tick();
        self.find_record(name)
    }

    fn refs<L: Ledger>(&self, name: RecName, steps: &mut Steps<L>) -> &[Ref] {
        steps.tick();
        self.find_pointers(name)
    }

    fn bearers<L: Ledger>(&self, foid: Lnam, steps: &mut Steps<L>) -> &[RecName] {
        steps.tick();
        self.find_bearers(foid)
    }
}

fn sorted_by_name<'a>(mut records: Vec<&'a Rec>) -> Vec<&'a Rec>
    ensures same { IsPermutation records.entry.items result.items }
    ensures rises { IsSortedByKey (λ (r : Bor SpecRec). spec_name r.now) name_order result.items }
{
    orders_are_by_parts();
    records.sort_unstable_by_key(|rec| rec.name());
    records
}

fn has_name(rec: &Rec, name: RecName) -> bool
    ensures { result ≡ is_named name rec.now }
{
    name == rec.name()
}

/// The record of a name, which is looked for at a place first.
fn find_near<'a>(records: &[&'a Rec], place: usize, name: RecName) -> Option<&'a Rec>
    requires { IsByName records.now }
    ensures { option_copied result ≡ find (is_named name) (map (λ (r : Bor SpecRec). r.now) records.now) }
{
    if let Some(rec) = records.get(place) {
        if has_name(rec, name) {
            return Some(*rec);
        }
    }
    find_sorted(records, name)
}

fn find_sorted<'a>(records: &[&'a Rec], name: RecName) -> Option<&'a Rec>
    requires { IsByName records.now }
    ensures { option_copied result ≡ find (is_named name) (map (λ (r : Bor SpecRec). r.now) records.now) }
{
    orders_are_by_parts();
    match records.binary_search_by_key(&name, |rec| rec.name()) {
        Ok(k) => Some(records[k]),
        Err(_) => None,
    }
}

/// The pointers of records in groups by target, and where those to each name are likely to start.
fn pointers_with_starts(
    alloc: Global,
    records: &[&Rec],
) -> Result<(Groups<RecName, Ref>, Starts), AllocError>
    requires { All (λ (r : Bor SpecRec). HasFewPointers r.now) records.now }
    ensures { IfOk result (λ grouped. ArePointersOf (map (λ (r : Bor SpecRec). r.now) records.now) grouped.0) }
{
    orders_are_by_parts();
    let list = list_pointers(alloc, records)?;
    let (dealt, starts) = Starts::deal(alloc, list)?;
    let groups = Groups::make(alloc, dealt)?;
    Ok((groups, starts))
}

/// The pointers of records in groups by target.
///
/// An `Err` means out of memory.
pub fn group_pointers(alloc: Global, records: &[&Rec]) -> Result<Groups<RecName, Ref>, AllocError>
    requires { All (λ (r : Bor SpecRec). HasFewPointers r.now) records.now }
    ensures { IfOk result (λ groups. ArePointersOf (map (λ (r : Bor SpecRec). r.now) records.now) groups) }
{
    let (groups, _starts) = pointers_with_starts(alloc, records)?;
    Ok(groups)
}

/// The pointers to a name, which are looked for first where they are likely to start.
fn pointers_to<'a>(pointers: &'a Groups<RecName, Ref>, starts: &Starts, name: RecName) -> &'a [Ref]
    ensures { result.now ≡ values_at name_order pointers.now name }
{
    orders_are_by_parts();
    let (from, to) = starts.span(name);
    pointers.values_near(&name, from, to)
}

/// The names of features in groups by the identifier that they bear.
///
/// An `Err` means out of memory.
pub fn group_identities(
    alloc: Global,
    records: &[&Rec],
) -> Result<Groups<Lnam, RecName>, AllocError>
    ensures { IfOk result (λ groups. AreBearersOf (map (λ (r : Bor SpecRec). r.now) records.now) groups) }
{
    orders_are_by_parts();
    let list = list_identities(alloc, records)?;
    let keys: Vec<Key> = list.iter().map(|row| Key::Foid(row.0)).collect(alloc)?;
    let dealt = dealt_by_keys(alloc, list, &keys)?;
    Groups::make(alloc, dealt)
}

fn bearers_of(identities: &Groups<Lnam, RecName>, foid: Lnam) -> &[RecName]
    ensures { result.now ≡ values_at (order_by identity_parts) identities.now foid }
{
    orders_are_by_parts();
    identities.values_of(&foid)
}
