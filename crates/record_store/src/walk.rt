//! The records of one kind, one after another.

ghost use Rattle.std.specs.Prelude.{◌≡◌, []};
ghost use Rattle.std.specs.Iterator.{YieldsFirstRef, item_count};
ghost use Rattle.record_store.specs.Lists.{records_in};

use crate::file_lists::FileList;
use s57_types::Rec;
use shared_table::{Shared, SharedRows};
use std::marker::Model;

/// The records of one kind in file order.
#[derive(Drop)]
pub struct Walk<'a> {
    rows: Option<SharedRows<'a, u64, Shared<Rec>>>,
}

impl<'a> Model for Walk<'a> {
    ghost use Rattle.std.specs.Prelude.{List};
    ghost use Rattle.s57_types.specs.declared.record.Rec.{Rec as SpecRec};
    ghost use Rattle.record_store.specs.Lists.{walked};

    ghost Value = { List SpecRec };

    ghost view = { λ w. walked w.rows };
}

impl<'a> Walk<'a> {
    /// The records of a list.
    pub(crate) fn over(list: &'a FileList) -> Walk<'a>
        ensures { result ≡ records_in list.now }
    {
        Walk {
            rows: Some(list.rows()),
        }
    }

    /// No records.
    pub(crate) fn none() -> Walk<'a>
        ensures { result ≡ [] }
    {
        Walk { rows: None }
    }
}

impl<'a> Iterator for Walk<'a> {
    type Item = &'a Rec;

    ghost next_gives = { YieldsFirstRef (λ it. it) };

    ghost remaining = { item_count (λ it. it) };

    fn next(&mut self) -> Option<&'a Rec> {
        let rows = self.rows.as_mut()?;
        let row = rows.next()?;
        Some(&row.1)
    }
}
