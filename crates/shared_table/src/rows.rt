//! The rows of a table, one after another.

ghost use Rattle.std.specs.Prelude.{◌≡◌, drop};
ghost use Rattle.std.specs.Iterator.{YieldsFirstRef, item_count};

use crate::table::SharedTable;
use std::marker::Model;

/// The rows of a table from a place on, in ascending order of their keys.
#[derive(Drop)]
pub struct SharedRows<'a, K: Ord + Drop, V: Drop> {
    table: &'a SharedTable<K, V>,
    run: &'a [(K, V)],
    next: usize,
}

impl<'a, K: Ord + Drop, V: Drop> Model for SharedRows<'a, K, V> {
    ghost use Rattle.std.specs.Prelude.{List, ◌++◌, drop};

    ghost Value = { List (K × V) };

    ghost view = { λ it. it.run.now ++ drop it.next it.table.now };
}

impl<'a, K: Ord + Drop, V: Drop> SharedRows<'a, K, V> {
    pub(crate) fn from(table: &'a SharedTable<K, V>, place: usize) -> SharedRows<'a, K, V>
        ensures { result ≡ drop place table.now }
    {
        SharedRows {
            table,
            run: &[],
            next: place,
        }
    }
}

impl<'a, K: Ord + Drop, V: Drop> Iterator for SharedRows<'a, K, V> {
    type Item = &'a (K, V);

    ghost next_gives = { YieldsFirstRef (λ it. it) };

    ghost remaining = { item_count (λ it. it) };

    fn next(&mut self) -> Option<&'a (K, V)> {
        if self.run.is_empty() {
            if self.next >= self.table.len() {
                return None;
            }
            self.run = self.table.run_at(self.next);
            self.next += self.run.len();
        }
        let (row, rest) = self.run.split_first()?;
        self.run = rest;
        Some(row)
    }
}
