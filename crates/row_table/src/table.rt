//! The table in blocks of bounded size: its rows are those of the blocks, one block after another.
ghost use Rattle.std.specs.Prelude.{◌≡◌, false, ◌+◌, ◌-◌, ◌*◌, ◌<◌, ◌≤◌, [], length, max, slice_get, Some, IfOk, IfNone, OnSome, OnOk, OnErr};
ghost use Rattle.std.specs.Prelude.{is_some, if◌then◌else◌};
ghost use Rattle.std.specs.Option.{option_copied};
ghost use Rattle.std.specs.Ordering.{is_gt};
ghost use Rattle.row_spec.specs.Rows.{Table, IsAscending, value_of, with_row, without_key, lower_bound, AreCopies};
ghost use Rattle.row_spec.specs.Blocks.{joined, block_at, claim_of, halved, IsBlockFor};

use crate::blocks::{BLOCK_ROWS, Blocks, HALF_ROWS};
use std::alloc::{AllocError, Global};
use std::marker::Model;

/// A sorted table with reserved capacity, in blocks. A put or a removal moves the rows of one block alone.
#[derive(Drop)]
pub struct RowTable<K: Ord, V> {
    blocks: Blocks<K, V>,
    len: usize,
    spare: usize,
}

impl<K: Ord, V> Model for RowTable<K, V> {
    ghost use Rattle.std.specs.Prelude.{◌≡◌, ◌+◌, ◌^◌, ◌<◌, length};
    ghost use Rattle.row_spec.specs.Rows.{Table, IsAscending};
    ghost use Rattle.row_spec.specs.Blocks.{joined, IsCovered};

    ghost Value = { Table K V };

    ghost view = { λ t. record { rows = joined t.blocks.blocks; spare = t.spare } };

    ghost invariant = { λ t. IsAscending K.cmp (joined t.blocks.blocks) × (t.len ≡ length (joined t.blocks.blocks)) × (t.len + t.spare < 2 ^ 64)
        × IsCovered t.blocks.blocks t.blocks.free t.spare };
}

impl<K: Ord + Drop, V: Drop> RowTable<K, V> {
    /// An empty table with no reserved capacity.
    pub fn make(alloc: Global) -> RowTable<K, V>
        ensures rows { result.rows ≡ [] }
        ensures spare { result.spare ≡ 0 }
    {
        RowTable {
            blocks: Blocks::make(alloc),
            len: 0,
            spare: 0,
        }
    }

    /// The table of rows whose keys ascend already, in one pass, with no reserved capacity.
    pub fn from_ascending(alloc: Global, rows: Vec<(K, V)>) -> Result<RowTable<K, V>, AllocError>
        requires { IsAscending K.cmp rows.items }
        ensures rows { IfOk result (λ t. t.rows ≡ rows.items) }
        ensures spare { IfOk result (λ t. t.spare ≡ 0) }
    {
        let mut table = RowTable::make(alloc);
        let mut left = rows;
        table.reserve(left.len())?;
        left.reverse();
        while let Some((key, value)) = left.pop() {
            table.put(key, value);
        }
        Ok(table)
    }

    /// A table of the same keys and of clones of the values, with no reserved capacity.
    pub fn copy(&self, alloc: Global) -> Result<RowTable<K, V>, AllocError>
    where
        K: Copy,
        V: Clone,
        ensures rows { IfOk result (λ t. AreCopies V.is_clone self.now.rows t.rows) }
        ensures spare { IfOk result (λ t. t.spare ≡ 0) }
    {
        Ok(RowTable {
            blocks: self.blocks.copy(alloc)?,
            len: self.len,
            spare: 0,
        })
    }

    /// The number of rows. Their keys ascend.
    pub fn len(&self) -> usize
        ensures len { result ≡ length self.now.rows }
        ensures ascending { IsAscending K.cmp self.now.rows }
    {
        self.len
    }

    /// Takes memory so that `count` new keys can be put; no put, removal or look-up takes any. A refusal changes nothing.
    pub fn reserve(&mut self, count: usize) -> Result<(), AllocError>
        ensures rows { self.new.rows ≡ self.old.rows }
        ensures ok { OnOk result (self.new.spare ≡ max self.old.spare count) }
        ensures err { OnErr result (self.new.spare ≡ self.old.spare) }
    {
        if self.spare < count {
            let _all = self.len.checked_add(count).ok_or(AllocError)?;
            // A new key cuts one block at most. Beside those that are full, 128 new keys cut one.
            let halves = self.blocks.len().saturating_add(count / HALF_ROWS + 2);
            self.blocks.reserve(count.min(halves))?;
            self.spare = count;
        }
        Ok(())
    }

    /// Puts the value at the key, and gives the value that stood there. A new key uses up one of the reserved.
    pub fn put(&mut self, key: K, value: V) -> Option<V>
        requires { IfNone (value_of K.cmp self.old.rows key) (0 < self.old.spare) }
        ensures rows { self.new.rows ≡ with_row K.cmp self.old.rows key value }
        ensures old { result ≡ value_of K.cmp self.old.rows key }
        ensures spare { self.new.spare ≡ (if is_some result then self.old.spare else self.old.spare - 1) }
    {
        if self.blocks.len() == 0 {
            self.blocks.put_first(key, value);
            self.len += 1;
            self.spare -= 1;
            return None;
        }
        let place = room_for(&mut self.blocks, &key);
        let old = self.blocks.put(place, key, value);
        if old.is_none() {
            self.len += 1;
            self.spare -= 1;
        }
        old
    }

    /// Removes the key's row and gives its value, if there is one.
    pub fn take(&mut self, key: &K) -> Option<V>
        ensures rows { self.new.rows ≡ without_key K.cmp self.old.rows key.now }
        ensures old { result ≡ value_of K.cmp self.old.rows key.now }
        ensures spare { self.new.spare ≡ self.old.spare }
    {
        if self.blocks.len() == 0 {
            return None;
        }
        let place = self.blocks.block_for(key);
        let old = self.blocks.take(place, key);
        if old.is_some() {
            self.len -= 1;
        }
        old
    }

    /// The value of the key, if there is one.
    pub fn get(&self, key: &K) -> Option<&V>
        ensures { option_copied result ≡ value_of K.cmp self.now.rows key.now }
    {
        if self.blocks.len() == 0 {
            return None;
        }
        let place = self.blocks.block_for(key);
        self.blocks.run(place).get(key)
    }

    /// The row at a place, counted from 0 in ascending order.
    pub fn row(&self, place: usize) -> (&K, &V)
        requires { place < length self.now.rows }
        ensures { slice_get self.now.rows place ≡ Some (result.0.now, result.1.now) }
    {
        self.blocks.row(place)
    }

    /// The places of the keys that are not below `from` and are below `to`: the first, and the one after the last.
    pub fn range(&self, from: &K, to: &K) -> (usize, usize)
        requires { is_gt (K.cmp from.now to.now) ≡ false }
        ensures from { result.0 ≡ lower_bound K.cmp self.now.rows from.now }
        ensures to { result.1 ≡ lower_bound K.cmp self.now.rows to.now }
        ensures within { (result.0 ≤ result.1) × (result.1 ≤ length self.now.rows) }
    {
        (self.place_of(from), self.place_of(to))
    }

    /// The place of the first key that is not below this one.
    fn place_of(&self, key: &K) -> usize
        ensures { result ≡ lower_bound K.cmp self.now.rows key.now }
    {
        if self.blocks.len() == 0 {
            return 0;
        }
        let place = self.blocks.block_for(key);
        self.blocks.start(place) + self.blocks.run(place).place_of(key)
    }
}

// The block that has the key, or one with room for it: a full block is cut in two where the key is new.
fn room_for<K: Ord + Drop, V: Drop>(blocks: &mut Blocks<K, V>, key: &K) -> usize
    requires ascending { IsAscending K.cmp (joined blocks.old.blocks) }
    requires some { 0 < length blocks.old.blocks }
    requires free { IfNone (value_of K.cmp (joined blocks.old.blocks) key.now) (0 < blocks.old.free) }
    ensures block { IsBlockFor K.cmp blocks.new.blocks key.now result }
    ensures rows { joined blocks.new.blocks ≡ joined blocks.old.blocks }
    ensures room { IfNone (value_of K.cmp (joined blocks.old.blocks) key.now) (length (block_at blocks.new.blocks result) < 256) }
    ensures claim { claim_of blocks.new.blocks + 128 * blocks.old.free ≤ claim_of blocks.old.blocks + 128 * blocks.new.free }
    ensures free { blocks.old.free ≤ blocks.new.free + 1 }
    ensures there { OnSome (value_of K.cmp (joined blocks.old.blocks) key.now) (blocks.new.free ≡ blocks.old.free) }
{
    let place = blocks.block_for(key);
    let run = blocks.run(place);
    if run.len() < BLOCK_ROWS {
        return place;
    }
    if run.get(key).is_some() {
        return place;
    }
    halve_for(blocks, place, key)
}

// Cuts the full block for a key in two, and gives the half for it.
fn halve_for<K: Ord + Drop, V: Drop>(blocks: &mut Blocks<K, V>, place: usize, key: &K) -> usize
    requires ascending { IsAscending K.cmp (joined blocks.old.blocks) }
    requires block { IsBlockFor K.cmp blocks.old.blocks key.now place }
    requires full { length (block_at blocks.old.blocks place) ≡ 256 }
    requires free { 0 < blocks.old.free }
    ensures block { IsBlockFor K.cmp blocks.new.blocks key.now result }
    ensures room { length (block_at blocks.new.blocks result) < 256 }
    ensures blocks { blocks.new.blocks ≡ halved blocks.old.blocks place }
    ensures free { blocks.new.free + 1 ≡ blocks.old.free }
{
    let upper = blocks.halve(place);
    if blocks.run(upper).begins_by(key) {
        upper
    } else {
        place
    }
}
