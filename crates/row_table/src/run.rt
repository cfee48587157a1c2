//! A run of rows in ascending order of their keys, in one vector.
ghost use Rattle.std.specs.Prelude.{◌≡◌, ◌+◌, ◌<◌, ◌≤◌, [], length, take, drop, slice_get, Some, IfOk, IfNone, MatchResult, OnOk, IsTrue, ◌↔◌};
ghost use Rattle.std.specs.Prelude.{is_some, if◌then◌else◌, vec_len, vec_capacity};
ghost use Rattle.std.specs.Option.{option_copied};
ghost use Rattle.row_spec.specs.Rows.{Run, IsAscending, value_of, with_row, without_key, lower_bound, begins_by, AreCopies, IsRowAt, IsGapAt};

use std::alloc::{AllocError, Global};
use std::marker::Model;
use std::mem;

/// Rows in ascending order of their keys, in one vector.
#[derive(Drop)]
pub(crate) struct SortedRun<K: Ord, V> {
    rows: Vec<(K, V)>,
}

impl<K: Ord, V> Model for SortedRun<K, V> {
    ghost use Rattle.std.specs.Prelude.{vec_capacity};
    ghost use Rattle.row_spec.specs.Rows.{Run, IsAscending};

    ghost Value = { Run K V };

    ghost view = { λ r. record { rows = r.rows.items; room = vec_capacity r.rows } };

    ghost invariant = { λ r. IsAscending K.cmp r.rows.items };
}

impl<K: Ord + Drop, V: Drop> SortedRun<K, V> {
    /// A run with no rows.
    pub(crate) fn make(alloc: Global) -> SortedRun<K, V>
        ensures { result.rows ≡ [] }
    {
        SortedRun {
            rows: Vec::new(alloc),
        }
    }

    /// A run with no rows and with memory for so many.
    pub(crate) fn with_room(alloc: Global, room: usize) -> Result<SortedRun<K, V>, AllocError>
        ensures rows { IfOk result (λ r. r.rows ≡ []) }
        ensures room { IfOk result (λ r. room ≤ r.room) }
    {
        Ok(SortedRun {
            rows: Vec::with_capacity(alloc, room)?,
        })
    }

    /// The run of rows whose keys ascend already.
    pub(crate) fn from_ascending(rows: Vec<(K, V)>) -> SortedRun<K, V>
        requires { IsAscending K.cmp rows.items }
        ensures { result.rows ≡ rows.items }
    {
        SortedRun { rows }
    }

    /// A run of the same keys and of clones of the values, with memory for at least `room` rows.
    pub(crate) fn copy(&self, alloc: Global, room: usize) -> Result<SortedRun<K, V>, AllocError>
    where
        K: Copy,
        V: Clone,
        ensures rows { IfOk result (λ r. AreCopies V.is_clone self.now.rows r.rows) }
        ensures room { IfOk result (λ r. room ≤ r.room) }
    {
        let mut rows = Vec::with_capacity(alloc, room)?;
        for (key, value) in &self.rows {
            rows.push((*key, value.clone()?))?;
        }
        Ok(SortedRun { rows })
    }

    pub(crate) fn len(&self) -> usize
        ensures len { result ≡ length self.now.rows }
        ensures ascending { IsAscending K.cmp self.now.rows }
    {
        self.rows.len()
    }

    /// Takes memory for so many more rows than there are. A refusal changes nothing that is seen but the room.
    pub(crate) fn reserve(&mut self, count: usize) -> Result<(), AllocError>
        ensures rows { self.new.rows ≡ self.old.rows }
        ensures room { self.old.room ≤ self.new.room }
        ensures ok { OnOk result (length self.new.rows + count ≤ self.new.room) }
    {
        self.rows.reserve(count)
    }

    /// Puts the value at the key, and gives the value that stood there.
    pub(crate) fn put(&mut self, key: K, value: V) -> Option<V>
        requires { IfNone (value_of K.cmp self.old.rows key) (length self.old.rows < self.old.room) }
        ensures rows { self.new.rows ≡ with_row K.cmp self.old.rows key value }
        ensures old { result ≡ value_of K.cmp self.old.rows key }
        ensures len { length self.new.rows ≡ length self.old.rows + (if is_some result then 0 else 1) }
        ensures room { self.old.room ≤ self.new.room }
    {
        match self.search(&key) {
            Ok(place) => {
                let (_, old) = mem::replace(&mut self.rows[place], (key, value));
                Some(old)
            }
            Err(place) => {
                let Ok(()) = self.rows.insert(place, (key, value)) else {
                    unreachable!()
                };
                None
            }
        }
    }

    /// Removes the key's row and gives its value, if there is one.
    pub(crate) fn take(&mut self, key: &K) -> Option<V>
        ensures rows { self.new.rows ≡ without_key K.cmp self.old.rows key.now }
        ensures old { result ≡ value_of K.cmp self.old.rows key.now }
        ensures len { length self.new.rows + (if is_some result then 1 else 0) ≡ length self.old.rows }
        ensures room { self.old.room ≤ self.new.room }
    {
        match self.search(key) {
            Ok(place) => {
                let (_, value) = self.rows.remove(place);
                Some(value)
            }
            Err(_) => None,
        }
    }

    /// The value of the key, if there is one.
    pub(crate) fn get(&self, key: &K) -> Option<&V>
        ensures { option_copied result ≡ value_of K.cmp self.now.rows key.now }
    {
        match self.search(key) {
            Ok(place) => Some(&self.rows[place].1),
            Err(_) => None,
        }
    }

    /// The row at a place, counted from 0 in ascending order.
    pub(crate) fn row(&self, place: usize) -> (&K, &V)
        requires { place < length self.now.rows }
        ensures { slice_get self.now.rows place ≡ Some (result.0.now, result.1.now) }
    {
        let row = &self.rows[place];
        (&row.0, &row.1)
    }

    /// The place of the first key that is not below this one.
    pub(crate) fn place_of(&self, key: &K) -> usize
        ensures { result ≡ lower_bound K.cmp self.now.rows key.now }
    {
        match self.search(key) {
            Ok(place) => place,
            Err(place) => place,
        }
    }

    /// Whether the first row has a key that is not above this one.
    pub(crate) fn begins_by(&self, key: &K) -> bool
        ensures { result ≡ begins_by K.cmp self.now.rows key.now }
    {
        match self.rows.first() {
            Some(row) => row.0.cmp(key).is_le(),
            None => false,
        }
    }

    // Where the key's row is, or where it would go.
    fn search(&self, key: &K) -> Result<usize, usize>
        ensures { MatchResult result (IsRowAt K.cmp self.now.rows key.now) (IsGapAt K.cmp self.now.rows key.now) }
    {
        self.rows.binary_search_by(|row| row.0.cmp(key))
    }

    /// Moves the rows from a place on to a run that has none yet.
    pub(crate) fn split(&mut self, place: usize, upper: &mut SortedRun<K, V>)
        requires place { place ≤ length self.old.rows }
        requires empty { upper.old.rows ≡ [] }
        requires room { length self.old.rows ≤ upper.old.room + place }
        ensures rows { self.new.rows ≡ take place self.old.rows }
        ensures upper { upper.new.rows ≡ drop place self.old.rows }
        ensures room { self.old.room ≤ self.new.room }
        ensures upper_room { upper.old.room ≤ upper.new.room }
    {
        move_tail(&mut self.rows, place, &mut upper.rows);
    }
}

/// Whether the keys of the rows ascend, each below the next.
pub fn is_ascending<K: Ord, V>(rows: &[(K, V)]) -> bool
    ensures { IsTrue result ↔ IsAscending K.cmp rows.now }
{
    rows.is_sorted_by(|row, next| row.0.cmp(&next.0).is_lt())
}

// Moves the items from a place on to the end of an empty vector with room for them.
fn move_tail<T>(from: &mut Vec<T>, place: usize, to: &mut Vec<T>)
    requires place { place ≤ vec_len from.old }
    requires empty { to.old.items ≡ [] }
    requires room { vec_len from.old ≤ vec_capacity to.old + place }
    ensures from { from.new.items ≡ take place from.old.items }
    ensures to { to.new.items ≡ drop place from.old.items }
    ensures from_room { vec_capacity from.old ≤ vec_capacity from.new }
    ensures to_room { vec_capacity to.old ≤ vec_capacity to.new }
{
    while from.len() > place {
        let item = from.take_last();
        to.push_reserved(item);
    }
    to.reverse();
}
