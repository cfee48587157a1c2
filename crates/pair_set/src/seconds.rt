//! The seconds that stand with a first.

ghost use Rattle.std.specs.Prelude.{◌≡◌};
ghost use Rattle.std.specs.Iterator.{YieldsFirst, item_count};
ghost use Rattle.pair_set.specs.Pairs.{seconds_under};

use shared_table::SharedRows;
use std::marker::Model;

/// The seconds that stand with a first, in ascending order.
#[derive(Drop)]
pub struct Seconds<'a, A: Ord + Drop, B: Ord + Drop> {
    rest: SharedRows<'a, (A, B), ()>,
    first: A,
    over: bool,
}

impl<'a, A: Ord + Drop, B: Ord + Drop> Model for Seconds<'a, A, B> {
    ghost use Rattle.std.specs.Prelude.{[], List, if◌then◌else◌};
    ghost use Rattle.pair_set.specs.Pairs.{seconds_under};

    ghost Value = { List B };

    ghost view = { λ it. if it.over then [] else seconds_under A.cmp it.first it.rest };
}

impl<'a, A: Ord + Drop, B: Ord + Drop> Seconds<'a, A, B> {
    /// The seconds of the first rows, as far as these have the first.
    pub(crate) fn from(rest: SharedRows<'a, (A, B), ()>, first: A) -> Seconds<'a, A, B>
        ensures { result ≡ seconds_under A.cmp first rest.entry }
    {
        Seconds {
            rest,
            first,
            over: false,
        }
    }
}

impl<'a, A: Ord + Drop, B: Ord + Copy + Drop> Iterator for Seconds<'a, A, B> {
    type Item = B;

    ghost next_gives = { YieldsFirst (λ it. it) };

    ghost remaining = { item_count (λ it. it) };

    fn next(&mut self) -> Option<B> {
        if self.over {
            return None;
        }
        match self.rest.next() {
            Some(row) if row.0.0.cmp(&self.first).is_eq() => Some(row.0.1),
            _ => {
                self.over = true;
                None
            }
        }
    }
}
