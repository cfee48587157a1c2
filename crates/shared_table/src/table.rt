//! Sorted tables in pieces that copies share.

ghost use Rattle.std.specs.Prelude.{◌≡◌, ◌<◌, [], List, length, drop, IfOk, OnOk, OnErr, Some, slice_get};
ghost use Rattle.std.specs.Option.{option_copied};
ghost use Rattle.std.specs.Arc.{arc_value};
ghost use Rattle.row_spec.specs.Rows.{IsAscending, value_of, with_row, without_key, lower_bound};
ghost use Rattle.shared_table.specs.Pieces.{IsRunAt};

use crate::distance::{Distance, Unknown};
use crate::levels::{LowerLevels, lower_levels_of};
use crate::piece::Piece;
use crate::rows::SharedRows;
use crate::top::{Top, put_at_top, take_from_top, top_of};
use s57_types::Duplicate;
use std::alloc::{AllocError, Global};
use std::marker::Model;
use std::sync::Arc;

// The pieces of a table in five levels, of which the top has as many pieces as come.
type Root<K, V> = Top<K, V, LowerLevels<K, V>>;

/// A sorted table, seen as its rows in ascending order of their keys. A copy is a count and shares all pieces, and a change of one of
/// the two leaves the other as it is.
pub struct SharedTable<K: Ord + Drop, V: Drop> {
    root: Option<Arc<Root<K, V>, Global>>,
}

impl<K: Ord + Drop, V: Drop> Drop for SharedTable<K, V> {
    fn drop(self) {
        let SharedTable { root: _ } = self;
    }
}

impl<K: Ord + Drop, V: Drop> Model for SharedTable<K, V> {
    ghost use Rattle.std.specs.Prelude.{List};
    ghost use Rattle.std.specs.Arc.{arc_value};
    ghost use Rattle.shared_table.specs.Pieces.{rows_at, rows_of};

    ghost Value = { List (K × V) };

    ghost view = { λ t. rows_at (λ root. rows_of (arc_value root)) t.root };
}

impl<K: Ord + Drop, V: Drop> SharedTable<K, V> {
    /// An empty table.
    pub fn make() -> SharedTable<K, V>
        ensures { result ≡ [] }
    {
        SharedTable { root: None }
    }

    /// The same table, which shares all that it holds. An `Err` means out of memory.
    pub fn share(&self) -> Result<SharedTable<K, V>, AllocError>
        ensures { IfOk result (λ table. table ≡ self.now) }
    {
        match &self.root {
            Some(root) => Ok(SharedTable {
                root: Some(Arc::try_clone(root)?),
            }),
            None => Ok(SharedTable::make()),
        }
    }

    /// The number of rows. Their keys ascend.
    pub fn len(&self) -> usize
        ensures len { result ≡ length self.now }
        ensures ascending { IsAscending K.cmp self.now }
    {
        match &self.root {
            Some(root) => root.len(),
            None => 0,
        }
    }

    /// The value of the key, if there is one.
    pub fn get(&self, key: &K) -> Option<&V>
        ensures { option_copied result ≡ value_of K.cmp self.now key.now }
    {
        self.get_near::<Unknown>(key)
    }

    /// The same value, found faster where the distances of keys are known.
    pub fn get_near<D: Distance<K>>(&self, key: &K) -> Option<&V>
        ensures { option_copied result ≡ value_of K.cmp self.now key.now }
    {
        match &self.root {
            Some(root) => root.get::<D>(key),
            None => None,
        }
    }

    /// The row at a place, counted from 0 in ascending order.
    pub fn row(&self, place: usize) -> (&K, &V)
        requires { place < length self.now }
        ensures { slice_get self.now place ≡ Some (result.0.now, result.1.now) }
    {
        let row = &self.run_at(place)[0];
        (&row.0, &row.1)
    }

    /// The rows in ascending order.
    pub fn rows(&self) -> SharedRows<'_, K, V>
        ensures { result ≡ self.now }
    {
        SharedRows::from(self, 0)
    }

    /// The rows from the first whose key is not below this one, in ascending order.
    pub fn rows_from(&self, from: &K) -> SharedRows<'_, K, V>
        ensures { result ≡ drop (lower_bound K.cmp self.now from.now) self.now }
    {
        SharedRows::from(self, self.place_of(from))
    }

    /// The rows from a place on, as many as stand in one vector.
    pub(crate) fn run_at(&self, place: usize) -> &[(K, V)]
        requires { place < length self.now }
        ensures { IsRunAt self.now place result.now }
    {
        match &self.root {
            Some(root) => root.run_at(place),
            None => unreachable!(),
        }
    }

    /// The place of the first key that is not below this one, or the number of rows.
    fn place_of(&self, key: &K) -> usize
        ensures { result ≡ lower_bound K.cmp self.now key.now }
    {
        match &self.root {
            Some(root) => root.place_of(key),
            None => 0,
        }
    }
}

impl<K: Ord + Copy + Drop, V: Duplicate + Drop> SharedTable<K, V> {
    /// The table of rows whose keys ascend already. An `Err` means out of memory.
    pub fn from_ascending(alloc: Global, rows: Vec<(K, V)>) -> Result<SharedTable<K, V>, AllocError>
        requires { IsAscending K.cmp rows.items }
        ensures { IfOk result (λ table. table ≡ rows.items) }
    {
        let pieces = lower_levels_of(alloc, rows)?;
        Ok(SharedTable {
            root: Some(top_of(alloc, pieces)?),
        })
    }

    /// Puts the value at the key. An `Err` means out of memory, and leaves the table as it was.
    pub fn put(&mut self, alloc: Global, key: K, value: V) -> Result<(), AllocError>
        ensures ok { OnOk result (self.new ≡ with_row K.cmp self.old key value) }
        ensures err { OnErr result (self.new ≡ self.old) }
    {
        put_at_top(&mut self.root, alloc, key, value)
    }

    /// Takes the key's row out, if there is one. An `Err` means out of memory, and leaves the table as it was.
    pub fn take(&mut self, alloc: Global, key: &K) -> Result<(), AllocError>
        ensures ok { OnOk result (self.new ≡ without_key K.cmp self.old key.now) }
        ensures err { OnErr result (self.new ≡ self.old) }
    {
        take_from_top(&mut self.root, alloc, key)
    }
}
