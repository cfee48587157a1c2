//! Sets of pairs.

ghost use Rattle.std.specs.Prelude.{◌≡◌, ◌&&◌, ◌||◌, [], IfOk, OnErr, OnOk, false, not, if◌then◌else◌};
ghost use Rattle.std.specs.List.Sorted.{IsStrictlySortedBy};
ghost use Rattle.std.specs.Ordering.{is_eq, is_lt};
ghost use Rattle.std.specs.declared.cmp.Ordering.TheVariants.{Equal};
ghost use Rattle.pair_set.specs.Pairs.{has_pair, is_among, pair_order, same_pair};
ghost use Rattle.row_spec.specs.Rows.{IsAscending};

use crate::seconds::Seconds;
use shared_table::SharedTable;
use std::alloc::{AllocError, Global};
use std::marker::Model;

/// A pair as a row, which has no value.
pub type PairRow<A, B> = ((A, B), ());

/// A set of pairs in ascending order, by their firsts, then by their seconds. Each pair is a row by itself, so that no change copies the
/// seconds of a first that has many. Copies share what they hold, and a change of one of two leaves the other as it is.
pub struct PairSet<A: Ord + Drop, B: Ord + Drop> {
    rows: SharedTable<(A, B), ()>,
}

impl<A: Ord + Drop, B: Ord + Drop> Drop for PairSet<A, B> {
    fn drop(self) {
        let PairSet { rows: _ } = self;
    }
}

impl<A: Ord + Drop, B: Ord + Drop> Model for PairSet<A, B> {
    ghost use Rattle.std.specs.Prelude.{List};

    ghost Value = { List ((A × B) × Unit {0}) };

    ghost view = { λ s. s.rows };
}

impl<A: Ord + Drop, B: Ord + Drop> PairSet<A, B> {
    /// A set of no pairs.
    pub fn make() -> PairSet<A, B>
        ensures { result ≡ [] }
    {
        PairSet {
            rows: SharedTable::make(),
        }
    }

    /// The same set, which shares all that it holds. An `Err` says that it can't be counted any more.
    pub fn share(&self) -> Result<PairSet<A, B>, AllocError>
        ensures { IfOk result (λ set. set ≡ self.now) }
    {
        Ok(PairSet {
            rows: self.rows.share()?,
        })
    }

    /// The seconds that stand with a first, in ascending order. No second is below the least one.
    pub fn seconds(&self, first: A, least: B) -> Seconds<'_, A, B>
    where
        A: Copy,
        requires { (b : B) → is_lt (B.cmp b least) ≡ false }
        ensures among { (b : B) → is_among B.cmp result b ≡ has_pair A.cmp B.cmp self.now first b }
        ensures ascending { IsStrictlySortedBy B.cmp result }
    {
        // The rows ascend.
        let _count = self.rows.len();
        Seconds::from(self.rows.rows_from(&(first, least)), first)
    }
}

impl<A: Ord + Copy + Drop, B: Ord + Copy + Drop> PairSet<A, B> {
    /// The set of pairs that ascend already. An `Err` means out of memory.
    pub fn from_ascending(
        alloc: Global,
        pairs: Vec<PairRow<A, B>>,
    ) -> Result<PairSet<A, B>, AllocError>
        requires { IsAscending (pair_order A.cmp B.cmp) pairs.items }
        ensures { IfOk result (λ set. set ≡ pairs.items) }
    {
        Ok(PairSet {
            rows: SharedTable::from_ascending(alloc, pairs)?,
        })
    }

    // Whether the two stand together.
    fn has(&self, first: A, second: B) -> bool
        ensures { result ≡ has_pair A.cmp B.cmp self.now first second }
    {
        self.rows.get(&(first, second)).is_some()
    }

    /// Puts a pair. An `Err` means out of memory, and leaves the set as it was.
    pub fn put(&mut self, alloc: Global, first: A, second: B) -> Result<(), AllocError>
        ensures ok { OnOk result ((a : A) (b : B) →
            has_pair A.cmp B.cmp self.new a b ≡ (same_pair A.cmp B.cmp first second a b || has_pair A.cmp B.cmp self.old a b)) }
        ensures err { OnErr result (self.new ≡ self.old) }
    {
        self.rows.put(alloc, (first, second), ())
    }

    // Takes a pair out.
    fn take(&mut self, alloc: Global, first: A, second: B) -> Result<(), AllocError>
        ensures ok { OnOk result ((a : A) (b : B) →
            has_pair A.cmp B.cmp self.new a b ≡ (not (same_pair A.cmp B.cmp first second a b) && has_pair A.cmp B.cmp self.old a b)) }
        ensures err { OnErr result (self.new ≡ self.old) }
    {
        // The rows ascend, so that the pair stands there once.
        let _count = self.rows.len();
        self.rows.take(alloc, &(first, second))
    }

    // Puts the gained firsts of a second: those that don't stand with it.
    fn put_gained(&mut self, alloc: Global, second: B, firsts: &[A]) -> Result<(), AllocError>
        requires exact { (a b : A) → A.cmp a b ≡ Equal → a ≡ b }
        requires same { (a b : B) → B.cmp a b ≡ Equal → a ≡ b }
        ensures ok { OnOk result ((a : A) (b : B) →
            has_pair A.cmp B.cmp self.new a b ≡ ((is_eq (B.cmp second b) && is_among A.cmp firsts.now a) || has_pair A.cmp B.cmp self.old a b)) }
        ensures others { (a : A) (b : B) → is_eq (B.cmp second b) ≡ false → has_pair A.cmp B.cmp self.new a b ≡ has_pair A.cmp B.cmp self.old a b }
    {
        for first in firsts {
            if !self.has(*first, second) {
                self.put(alloc, *first, second)?;
            }
        }
        Ok(())
    }

    /// Puts new firsts of a second, which ascend, in place of its old ones. Each that is lost or gained is taken or put by itself. Only
    /// one and the same tie in the orders of both parts. An `Err` means out of memory, and leaves the firsts of all other seconds as they were.
    pub fn replace(
        &mut self,
        alloc: Global,
        second: B,
        old: &[A],
        new: &[A],
    ) -> Result<(), AllocError>
        requires exact_firsts { (a b : A) → A.cmp a b ≡ Equal → a ≡ b }
        requires exact_seconds { (a b : B) → B.cmp a b ≡ Equal → a ≡ b }
        requires old { (a : A) → has_pair A.cmp B.cmp self.old a second ≡ is_among A.cmp old.now a }
        requires new { IsStrictlySortedBy A.cmp new.now }
        ensures ok { OnOk result ((a : A) (b : B) →
            has_pair A.cmp B.cmp self.new a b ≡ (if is_eq (B.cmp second b) then is_among A.cmp new.now a else has_pair A.cmp B.cmp self.old a b)) }
        ensures err { OnErr result ((a : A) (b : B) → is_eq (B.cmp second b) ≡ false →
            has_pair A.cmp B.cmp self.new a b ≡ has_pair A.cmp B.cmp self.old a b) }
    {
        for first in old {
            if !holds(new, first) {
                self.take(alloc, *first, second)?;
            }
        }
        self.put_gained(alloc, second, new)
    }
}

// Whether an item is among some in ascending order.
fn holds<T: Ord>(items: &[T], item: &T) -> bool
    requires { IsStrictlySortedBy T.cmp items.now }
    ensures { result ≡ is_among T.cmp items.now item.now }
{
    items.binary_search(item).is_ok()
}
