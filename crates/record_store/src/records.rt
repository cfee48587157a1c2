//! The records of a cell by name and in file order.

ghost use Rattle.std.specs.Prelude.{◌≡◌, ◌≤◌, ◌∷◌, ◌++◌, [], IfOk, length, option_map};
ghost use Rattle.std.specs.Option.{option_copied};
ghost use Rattle.cell_spec.specs.declared.edit.Edit.{Edit as SpecEdit};
ghost use Rattle.cell_spec.specs.declared.edit.Edit.TheVariants.{Add, Del, Head as HeadValues};
ghost use Rattle.cell_spec.specs.Edits.{apply_edits, list_of_kind};
ghost use Rattle.cell_spec.specs.Lookup.{all_records, lookup_record};
ghost use Rattle.cell_spec.specs.Names.{name_order};
ghost use Rattle.row_spec.specs.Rows.{value_of};
ghost use Rattle.cell_spec.specs.Writable.{IsWritable, record_limit};
ghost use Rattle.record_store.specs.declared.records.Held.{Held as SpecHeld};
ghost use Rattle.record_store.specs.Lists.{IsLeftBy, IsLeftBySome, IsPlaceFor, empty_of, records_in, rows_of};
ghost use Rattle.answer_laws.specs.EditedAnswers.{FindTheirRecords};

use crate::file_lists::{FileList, FileLists};
use crate::walk::Walk;
use answer_laws::edits_add_up;
use cell_spec::{Edit, orders_are_by_parts};
use edit_answers::edits_leave_their_records;
use s57_types::{Cell, Duplicate, Head, HeadEdit, Kind, Rec, RecName, Recs};
use shared_table::{ByNumber, Shared, SharedTable};
use std::alloc::{AllocError, Global};
use std::marker::Model;

/// A record, and its number in the list of its kind.
#[derive(Drop)]
pub(crate) struct Held {
    pub(crate) place: u64,
    pub(crate) rec: Shared<Rec>,
}

impl Duplicate for Held {
    fn copy(&self, alloc: Global) -> Result<Held, AllocError> {
        Ok(Held {
            place: self.place,
            rec: self.rec.copy(alloc)?,
        })
    }
}

/// The head and the records of a cell, seen as the cell.
#[derive(Drop)]
pub(crate) struct Records {
    head: Shared<Head>,
    /// The head again, as the answer to its name.
    named_head: Shared<Rec>,
    names: SharedTable<RecName, Held>,
    lists: FileLists,
}

impl Model for Records {
    ghost use Rattle.std.specs.Prelude.{◌≡◌};
    ghost use Rattle.s57_types.specs.declared.cell.Cell.{Cell};
    ghost use Rattle.s57_types.specs.declared.record.Rec.TheVariants.{H};
    ghost use Rattle.record_store.specs.Lists.{AreRecords, cell_of};

    ghost Value = { Cell };

    ghost view = { λ r. cell_of r.head r.lists };

    ghost invariant = { λ r. AreRecords r.names r.lists (cell_of r.head r.lists) × (r.named_head ≡ H r.head) };
}

impl Records {
    // No records under a head.
    fn make(alloc: Global, head: Head) -> Result<Records, AllocError>
        ensures { IfOk result (λ records. records ≡ empty_of head) }
    {
        let named_head = Rec::of_head(alloc, head.copy(alloc)?)?;
        Ok(Records {
            head: Shared::make(alloc, head)?,
            named_head: Shared::make(alloc, named_head)?,
            names: SharedTable::make(),
            lists: FileLists::make(),
        })
    }

    /// The records of a writable cell.
    ///
    /// An `Err` means out of memory.
    pub(crate) fn load(alloc: Global, cell: Cell) -> Result<Records, AllocError>
        requires { IsWritable cell }
        ensures { IfOk result (λ records. records ≡ cell) }
    {
        edits_add_up();
        let (head, vi, vc, ve, fe) = cell.into_parts();
        let all = all_of(vi, vc, ve, fe)?;
        let mut records = Records::make(alloc, head)?;
        for rec in all {
            records = records.added(alloc, rec)?;
        }
        Ok(records)
    }

    /// The head.
    pub(crate) fn head(&self) -> &Head
        ensures { result.now ≡ self.now.head }
    {
        &self.head
    }

    /// What has a name: the head, a record, or none.
    pub(crate) fn get(&self, name: RecName) -> Option<&Rec>
        ensures { option_copied result ≡ lookup_record self.now name }
    {
        if name == RecName::of_head() {
            return Some(&self.named_head);
        }
        find(&self.names, name)
    }

    /// The records after an edit, which finds what it needs.
    ///
    /// An `Err` means out of memory.
    pub(crate) fn edited(self, alloc: Global, edit: &Edit) -> Result<Records, AllocError>
        requires { FindTheirRecords (edit.now ∷ []) self }
        ensures { IfOk result (λ records. records ≡ apply_edits (edit.now ∷ []) self) }
    {
        match edit {
            Edit::Add(rec) | Edit::Set(rec) => {
                let left = Shared::make(alloc, rec.copy(alloc)?)?;
                self.with_record(alloc, left)
            }
            Edit::Del(name) => self.without(alloc, edit, *name),
            Edit::Head(values) => self.with_head(alloc, values),
        }
    }

    // The records with an addition, which isn't copied.
    fn added(self, alloc: Global, rec: Rec) -> Result<Records, AllocError>
        requires { FindTheirRecords (Add rec ∷ []) self }
        ensures { IfOk result (λ records. records ≡ apply_edits (Add rec ∷ []) self) }
    {
        self.with_record(alloc, Shared::make(alloc, rec)?)
    }

    // The records after any edit that leaves this record, of which there is one.
    fn with_record(self, alloc: Global, rec: Shared<Rec>) -> Result<Records, AllocError>
        requires { IsLeftBySome self rec }
        ensures { IfOk result (λ records. (edit : SpecEdit) → IsLeftBy edit self rec → records ≡ apply_edits (edit ∷ []) self) }
    {
        orders_are_by_parts();
        edits_leave_their_records();
        let name = rec.name();
        let Records {
            head,
            named_head,
            mut names,
            mut lists,
        } = self;
        lists.known();
        let place = place_for(&names, &lists, name)?;
        lists.put(alloc, name.kind, place, rec.copy(alloc)?)?;
        names.put(alloc, name, Held { place, rec })?;
        Ok(Records {
            head,
            named_head,
            names,
            lists,
        })
    }

    // The records after an edit that deletes the record of a name.
    fn without(self, alloc: Global, edit: &Edit, name: RecName) -> Result<Records, AllocError>
        requires found { FindTheirRecords (edit.now ∷ []) self }
        requires deletes { edit.now ≡ Del name }
        ensures { IfOk result (λ records. records ≡ apply_edits (edit.now ∷ []) self) }
    {
        orders_are_by_parts();
        edits_leave_their_records();
        let Records {
            head,
            named_head,
            mut names,
            mut lists,
        } = self;
        lists.known();
        let place = place_for(&names, &lists, name)?;
        // The names ascend, so that each stands once.
        let _count = names.len();
        lists.take(alloc, name.kind, place)?;
        names.take(alloc, &name)?;
        Ok(Records {
            head,
            named_head,
            names,
            lists,
        })
    }

    // The records under a head with new values.
    fn with_head(self, alloc: Global, values: &HeadEdit) -> Result<Records, AllocError>
        ensures { IfOk result (λ records. records ≡ apply_edits (HeadValues values.now ∷ []) self) }
    {
        let head = self.head.edited(alloc, values)?;
        let named_head = Rec::of_head(alloc, head.copy(alloc)?)?;
        Ok(Records {
            head: Shared::make(alloc, head)?,
            named_head: Shared::make(alloc, named_head)?,
            names: self.names,
            lists: self.lists,
        })
    }

    /// The records after edits that find what they need.
    ///
    /// An `Err` means out of memory.
    pub(crate) fn after(self, alloc: Global, edits: &[Edit]) -> Result<Records, AllocError>
        requires { FindTheirRecords edits.now self }
        ensures { IfOk result (λ records. records ≡ apply_edits edits.now self) }
    {
        edits_add_up();
        let mut records = self;
        for edit in edits {
            records = records.edited(alloc, edit)?;
        }
        Ok(records)
    }

    /// The records of a kind in file order.
    pub(crate) fn walk(&self, kind: Kind) -> Walk<'_>
        ensures { result ≡ list_of_kind kind self.now }
    {
        match kind {
            Kind::Vi => Walk::over(&self.lists.vi),
            Kind::Vc => Walk::over(&self.lists.vc),
            Kind::Ve => Walk::over(&self.lists.ve),
            Kind::Fe => Walk::over(&self.lists.fe),
            Kind::Head => Walk::none(),
        }
    }

    /// How many records there are.
    pub(crate) fn count(&self) -> u32
        requires { length (all_records self.now) ≤ record_limit }
        ensures { result ≡ length (all_records self.now) }
    {
        let nodes = self.lists.vi.len() + self.lists.vc.len();
        let others = self.lists.ve.len() + self.lists.fe.len();
        (nodes + others) as u32
    }

    /// A copy of the cell.
    ///
    /// An `Err` means out of memory.
    pub(crate) fn to_cell(&self, alloc: Global) -> Result<Cell, AllocError>
        ensures { IfOk result (λ cell. cell ≡ self.now) }
    {
        Ok(Cell {
            head: self.head().copy(alloc)?,
            vi: copies_of(alloc, &self.lists.vi)?,
            vc: copies_of(alloc, &self.lists.vc)?,
            ve: copies_of(alloc, &self.lists.ve)?,
            fe: copies_of(alloc, &self.lists.fe)?,
        })
    }

    /// The same records, which both share.
    pub(crate) fn share(&self, alloc: Global) -> Result<Records, AllocError>
        ensures { IfOk result (λ records. records ≡ self.now) }
    {
        Ok(Records {
            head: self.head.copy(alloc)?,
            named_head: self.named_head.copy(alloc)?,
            names: self.names.share()?,
            lists: self.lists.share()?,
        })
    }
}

// The records of all lists, one list after the other.
fn all_of(vi: Recs, vc: Recs, ve: Recs, fe: Recs) -> Result<Vec<Rec>, AllocError>
    ensures { IfOk result (λ all. all.items ≡ vi ++ vc ++ ve ++ fe) }
{
    let mut all = vi.into_vec();
    all.append(&mut vc.into_vec())?;
    all.append(&mut ve.into_vec())?;
    all.append(&mut fe.into_vec())?;
    Ok(all)
}

// The record of a name among those that are held.
fn find(names: &SharedTable<RecName, Held>, name: RecName) -> Option<&Rec>
    ensures { option_copied result ≡ option_map (λ (h : SpecHeld). h.rec) (value_of name_order names.now name) }
{
    orders_are_by_parts();
    match names.get_near::<ByNumber>(&name) {
        Some(held) => Some(&held.rec),
        None => None,
    }
}

// Copies of the records of a list.
fn copies_of(alloc: Global, list: &FileList) -> Result<Recs, AllocError>
    ensures { IfOk result (λ recs. recs ≡ records_in list.now) }
{
    let mut recs = Recs::of_vec(Vec::with_capacity(alloc, list.len())?);
    for row in list.rows() {
        recs.push(rec_of(row).copy(alloc)?)?;
    }
    Ok(recs)
}

// The record of a row.
fn rec_of(row: &(u64, Shared<Rec>)) -> &Rec
    ensures { result.now ≡ row.now.1 }
{
    &row.1
}

// The number of the record of a name in the list of its kind, or one behind all.
fn place_for(
    names: &SharedTable<RecName, Held>,
    lists: &FileLists,
    name: RecName,
) -> Result<u64, AllocError>
    ensures { IfOk result (λ place. IsPlaceFor (value_of name_order names.now name) (rows_of name.kind lists.now) place) }
{
    orders_are_by_parts();
    match names.get_near::<ByNumber>(&name) {
        Some(held) => Ok(held.place),
        None => lists.next_place(name.kind),
    }
}
