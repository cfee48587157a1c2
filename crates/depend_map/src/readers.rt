//! The subjects that read a key.

ghost use Rattle.std.specs.Prelude.{◌≡◌};
ghost use Rattle.std.specs.Iterator.{YieldsFirst, item_count};
ghost use Rattle.depend_map.specs.Readers.{subjects_under};

use cell_spec::{Key, Subject, orders_are_by_parts};
use shared_table::SharedRows;
use std::marker::Model;

/// The subjects that read a key, in ascending order.
#[derive(Drop)]
pub struct Readers<'a> {
    rest: SharedRows<'a, (Key, Subject), ()>,
    key: Key,
    over: bool,
}

impl<'a> Model for Readers<'a> {
    ghost use Rattle.std.specs.Prelude.{[], List, if◌then◌else◌};
    ghost use Rattle.cell_spec.specs.declared.key.Subject.{Subject};

    ghost Value = { List Subject };

    ghost use Rattle.depend_map.specs.Readers.{subjects_under};

    ghost view = { λ it. if it.over then [] else subjects_under it.key it.rest };
}

impl<'a> Readers<'a> {
    /// The subjects of the first rows, as far as these have the key.
    pub(crate) fn from(rest: SharedRows<'a, (Key, Subject), ()>, key: Key) -> Readers<'a>
        ensures { result ≡ subjects_under key rest.entry }
    {
        Readers {
            rest,
            key,
            over: false,
        }
    }
}

impl<'a> Iterator for Readers<'a> {
    type Item = Subject;

    ghost next_gives = { YieldsFirst (λ it. it) };

    ghost remaining = { item_count (λ it. it) };

    fn next(&mut self) -> Option<Subject> {
        orders_are_by_parts();
        if self.over {
            return None;
        }
        match self.rest.next() {
            Some(row) if row.0.0.cmp(&self.key).is_eq() => Some(row.0.1),
            _ => {
                self.over = true;
                None
            }
        }
    }
}
