//! The store of a whole cell.

ghost use Rattle.std.specs.Prelude.{◌≡◌, IfOk, flat_map, map};
ghost use Rattle.std.specs.Borrow.{Bor};
ghost use Rattle.s57_types.specs.declared.record.Rec.{Rec as SpecRec};
ghost use Rattle.cell_spec.specs.{Ascending.{ascending}, Edits.{keys_answered_by}, Names.{key_order}, Readable.{IsReadable}, Writable.{IsWritable}};
ghost use Rattle.record_store.specs.Stores.{AreAnswersOf};

use crate::answers::Answers;
use crate::records::Records;
use crate::store::RecordStore;
use cell_spec::{Key, Keys, orders_are_by_parts, writable_cells_are_readable};
use chain_topo::{distinct_by_keys, group_identities, group_pointers, records_of};
use edit_answers::push_answered;
use s57_types::{Cell, Rec};
use std::alloc::{AllocError, Global};

impl RecordStore {
    /// The store of a writable cell.
    ///
    /// An `Err` means out of memory.
    pub fn load(alloc: Global, cell: Cell) -> Result<RecordStore, AllocError>
        requires { IsWritable cell }
        ensures { IfOk result (λ store. store ≡ cell) }
    {
        writable_cells_are_readable();
        let answers = answers_of(alloc, &cell)?;
        let records = Records::load(alloc, cell)?;
        Ok(RecordStore { records, answers })
    }
}

// The pointers and bearers of a cell.
fn answers_of(alloc: Global, cell: &Cell) -> Result<Answers, AllocError>
    requires { IsReadable cell.now }
    ensures { IfOk result (λ answers. AreAnswersOf cell.now answers.pointers answers.bearers) }
{
    let records = records_of(alloc, cell)?;
    let pointers = group_pointers(alloc, &records)?;
    let bearers = group_identities(alloc, &records)?;
    let keys = keys_of(alloc, &records)?;
    Answers::filled(alloc, &pointers, &bearers, keys.as_slice())
}

// Keys in ascending order, each once.
fn in_order(alloc: Global, keys: Vec<Key>) -> Result<Keys, AllocError>
    ensures { IfOk result (λ ordered. ordered ≡ ascending key_order keys.items) }
{
    orders_are_by_parts();
    let places = keys.to_vec(alloc)?;
    let keys = distinct_by_keys(alloc, keys, &places)?;
    Ok(Keys::of_vec(keys))
}

// The keys that records answer, ascending, each once.
fn keys_of(alloc: Global, records: &[&Rec]) -> Result<Keys, AllocError>
    ensures { IfOk result (λ keys. keys ≡ ascending key_order (flat_map keys_answered_by (map (λ (r : Bor SpecRec). r.now) records.now))) }
{
    let mut keys = Vec::new(alloc);
    for rec in records {
        push_answered(&mut keys, rec)?;
    }
    in_order(alloc, keys)
}
