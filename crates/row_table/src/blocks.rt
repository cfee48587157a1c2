//! Rows in blocks of bounded size, and empty blocks held in reserve.
ghost use Rattle.std.specs.Prelude.{◌≡◌, ℕ, ◌+◌, ◌*◌, ◌^◌, ◌<◌, ◌≤◌, [], ◌∷◌, length, All, insert, slice_get, slice_index_or, slice_set, Some, IfOk};
ghost use Rattle.std.specs.Prelude.{IfNone, OnOk, is_some, if◌then◌else◌, vec_len, vec_capacity};
ghost use Rattle.row_spec.specs.Rows.{IsAscending, value_of, with_row, without_key, AreCopies};
ghost use Rattle.row_spec.specs.Blocks.{joined, block_at, rows_before, claim_of, replaced, halved, BlockList, IsEmptyRun, IsBlockFor, IsBlockAt};

use crate::run::SortedRun;
use std::alloc::{AllocError, Global};
use std::marker::Model;

/// The most rows of one block.
pub(crate) const BLOCK_ROWS: usize = 256;

/// The rows of each half of a full block.
pub(crate) const HALF_ROWS: usize = 128;

/// Rows in blocks, and empty blocks held in reserve.
#[derive(Drop)]
pub(crate) struct Blocks<K: Ord, V> {
    runs: Vec<SortedRun<K, V>>,
    starts: Vec<usize>,
    free: Vec<SortedRun<K, V>>,
}

impl<K: Ord, V> Model for Blocks<K, V> {
    ghost use Rattle.std.specs.Prelude.{All, vec_capacity, vec_len};
    ghost use Rattle.row_spec.specs.Blocks.{BlockList, IsFilled, IsEmptyRun, AreStarts, HasRoom, rows_of};

    ghost Value = { BlockList K V };

    ghost view = { λ b. record { blocks = rows_of b.runs.items; free = vec_len b.free } };

    ghost invariant = { λ b. All IsFilled b.runs.items × All IsEmptyRun b.free.items × AreStarts (rows_of b.runs.items) b.starts.items
        × HasRoom (vec_len b.runs) (vec_len b.free) (vec_capacity b.runs) (vec_capacity b.starts) (vec_capacity b.free) };
}

impl<K: Ord + Drop, V: Drop> Blocks<K, V> {
    /// No blocks, and none in reserve.
    pub(crate) fn make(alloc: Global) -> Blocks<K, V>
        ensures blocks { result.blocks ≡ [] }
        ensures free { result.free ≡ 0 }
    {
        Blocks {
            runs: Vec::new(alloc),
            starts: Vec::new(alloc),
            free: Vec::new(alloc),
        }
    }

    /// The same blocks with clones of the values, and none in reserve.
    pub(crate) fn copy(&self, alloc: Global) -> Result<Blocks<K, V>, AllocError>
    where
        K: Copy,
        V: Clone,
        ensures { IfOk result (λ b. AreCopies V.is_clone (joined self.now.blocks) (joined b.blocks)) }
    {
        let mut runs = Vec::new(alloc);
        for run in &self.runs {
            runs.push(run.copy(alloc, BLOCK_ROWS)?)?;
        }
        Ok(Blocks {
            runs,
            starts: self.starts.as_slice().to_vec(alloc)?,
            free: Vec::with_capacity(alloc, self.runs.len())?,
        })
    }

    /// The number of blocks with rows.
    pub(crate) fn len(&self) -> usize
        ensures len { result ≡ length self.now.blocks }
        ensures claim { claim_of self.now.blocks ≤ 128 * length self.now.blocks + 127 }
    {
        self.runs.len()
    }

    /// The rows of a block.
    pub(crate) fn run(&self, place: usize) -> &SortedRun<K, V>
        requires { place < length self.now.blocks }
        ensures rows { result.now.rows ≡ block_at self.now.blocks place }
        ensures some { 0 < length result.now.rows }
        ensures few { length result.now.rows ≤ 256 }
    {
        &self.runs[place]
    }

    /// How many rows the blocks before this one have.
    pub(crate) fn start(&self, place: usize) -> usize
        requires { place < length self.now.blocks }
        ensures { result ≡ rows_before self.now.blocks place }
    {
        let _ = &self.runs;
        self.starts[place]
    }

    /// The row at a place among all rows.
    pub(crate) fn row(&self, place: usize) -> (&K, &V)
        requires { place < length (joined self.now.blocks) }
        ensures { slice_get (joined self.now.blocks) place ≡ Some (result.0.now, result.1.now) }
    {
        let block = self.block_at(place);
        self.runs[block].row(place - self.starts[block])
    }

    // The block that has the row at a place among all rows.
    fn block_at(&self, place: usize) -> usize
        requires { place < length (joined self.now.blocks) }
        ensures { IsBlockAt self.now.blocks place result }
    {
        let _ = &self.runs;
        self.starts.partition_point(|start| *start <= place) - 1
    }

    /// Takes memory so that so many empty blocks are in reserve. A refusal changes nothing that is seen but the reserve.
    pub(crate) fn reserve(&mut self, wanted: usize) -> Result<(), AllocError>
        ensures blocks { self.new.blocks ≡ self.old.blocks }
        ensures free { self.old.free ≤ self.new.free }
        ensures ok { OnOk result (wanted ≤ self.new.free) }
    {
        if self.free.len() < wanted {
            let blocks = self.runs.len();
            let lists = blocks.checked_add(wanted).ok_or(AllocError)?;
            self.runs.reserve(wanted)?;
            self.starts.reserve(wanted)?;
            self.free.reserve(lists)?;
            fill(&mut self.free, wanted)?;
        }
        Ok(())
    }

    /// The place of the block that has the key or that the key goes to.
    pub(crate) fn block_for(&self, key: &K) -> usize
        requires ascending { IsAscending K.cmp (joined self.now.blocks) }
        requires some { 0 < length self.now.blocks }
        ensures { IsBlockFor K.cmp self.now.blocks key.now result }
    {
        self.runs
            .partition_point(|run| run.begins_by(key))
            .saturating_sub(1)
    }

    /// Puts the value at the key in a block, and gives the value that stood there.
    pub(crate) fn put(&mut self, place: usize, key: K, value: V) -> Option<V>
        requires place { place < length self.old.blocks }
        requires room { IfNone (value_of K.cmp (block_at self.old.blocks place) key) (length (block_at self.old.blocks place) < 256) }
        requires fits { IfNone (value_of K.cmp (block_at self.old.blocks place) key) (length (joined self.old.blocks) + 1 < 2 ^ 64) }
        ensures blocks { self.new.blocks ≡ slice_set self.old.blocks place (with_row K.cmp (block_at self.old.blocks place) key value) }
        ensures old { result ≡ value_of K.cmp (block_at self.old.blocks place) key }
        ensures free { self.new.free ≡ self.old.free }
        ensures claim { claim_of self.new.blocks ≤ claim_of self.old.blocks + (if is_some result then 0 else 1) }
    {
        let old = self.runs[place].put(key, value);
        if old.is_none() {
            raise(&mut self.starts, place + 1);
        }
        old
    }

    /// Cuts a full block in two halves, the upper one in a block from the reserve, and gives the place of that one.
    pub(crate) fn halve(&mut self, place: usize) -> usize
        requires place { place < length self.old.blocks }
        requires full { length (block_at self.old.blocks place) ≡ 256 }
        requires free { 0 < self.old.free }
        ensures upper { result ≡ place + 1 }
        ensures blocks { self.new.blocks ≡ halved self.old.blocks place }
        ensures free { self.new.free + 1 ≡ self.old.free }
    {
        let mut upper = self.free.take_last();
        self.runs[place].split(HALF_ROWS, &mut upper);
        let start = self.starts[place] + HALF_ROWS;
        insert_within(&mut self.runs, place + 1, upper);
        insert_within(&mut self.starts, place + 1, start);
        place + 1
    }

    /// Puts the first row, in a block from the reserve.
    pub(crate) fn put_first(&mut self, key: K, value: V)
        requires none { self.old.blocks ≡ [] }
        requires free { 0 < self.old.free }
        ensures blocks { self.new.blocks ≡ ((key, value) ∷ []) ∷ [] }
        ensures free { self.new.free + 1 ≡ self.old.free }
    {
        let mut run = self.free.take_last();
        let _none = run.put(key, value);
        self.runs.push_reserved(run);
        self.starts.push_reserved(0);
    }

    /// Removes the key's row of a block and gives its value, if there is one. A block that is left empty goes to the reserve.
    pub(crate) fn take(&mut self, place: usize, key: &K) -> Option<V>
        requires { place < length self.old.blocks }
        ensures blocks { self.new.blocks ≡ replaced self.old.blocks place (without_key K.cmp (block_at self.old.blocks place) key.now) }
        ensures old { result ≡ value_of K.cmp (block_at self.old.blocks place) key.now }
        ensures free { self.old.free ≤ self.new.free }
        ensures claim { claim_of self.new.blocks + 128 * self.old.free ≤ claim_of self.old.blocks + 128 * self.new.free }
    {
        let run = &mut self.runs[place];
        let old = run.take(key);
        let left = run.len();
        if old.is_some() {
            lower(&mut self.starts, place + 1);
            if left == 0 {
                let empty = self.runs.remove(place);
                let _start = self.starts.remove(place);
                self.free.push_reserved(empty);
            }
        }
        old
    }
}

// Makes empty blocks until there are so many, where there is room in the list.
fn fill<K: Ord + Drop, V: Drop>(
    free: &mut Vec<SortedRun<K, V>>,
    wanted: usize,
) -> Result<(), AllocError>
    requires room { wanted ≤ vec_capacity free.old }
    requires fewer { vec_len free.old ≤ wanted }
    requires empty { All IsEmptyRun free.old.items }
    ensures empty { All IsEmptyRun free.new.items }
    ensures more { vec_len free.old ≤ vec_len free.new }
    ensures most { vec_len free.new ≤ wanted }
    ensures ok { OnOk result (wanted ≤ vec_len free.new) }
    ensures capacity { vec_capacity free.new ≡ vec_capacity free.old }
{
    let alloc = *free.allocator();
    while free.len() < wanted {
        let run = SortedRun::with_room(alloc, BLOCK_ROWS)?;
        free.push_reserved(run);
    }
    Ok(())
}

// Adds one to each start from a place on.
fn raise(starts: &mut Vec<usize>, from: usize)
    requires { (k : ℕ) → k < vec_len starts.old → slice_index_or starts.old.items k 0 + 1 < 2 ^ 64 }
    ensures len { vec_len starts.new ≡ vec_len starts.old }
    ensures capacity { vec_capacity starts.new ≡ vec_capacity starts.old }
    ensures before { (k : ℕ) → k < from → slice_index_or starts.new.items k 0 ≡ slice_index_or starts.old.items k 0 }
    ensures raised { (k : ℕ) → from ≤ k → k < vec_len starts.old → slice_index_or starts.new.items k 0 ≡ slice_index_or starts.old.items k 0 + 1 }
{
    for place in from..starts.len() {
        starts[place] += 1;
    }
}

// Takes one from each start from a place on.
fn lower(starts: &mut Vec<usize>, from: usize)
    requires { (k : ℕ) → from ≤ k → k < vec_len starts.old → 0 < slice_index_or starts.old.items k 0 }
    ensures len { vec_len starts.new ≡ vec_len starts.old }
    ensures capacity { vec_capacity starts.new ≡ vec_capacity starts.old }
    ensures before { (k : ℕ) → k < from → slice_index_or starts.new.items k 0 ≡ slice_index_or starts.old.items k 0 }
    ensures lowered { (k : ℕ) → from ≤ k → k < vec_len starts.old → slice_index_or starts.new.items k 0 + 1 ≡ slice_index_or starts.old.items k 0 }
{
    for place in from..starts.len() {
        starts[place] -= 1;
    }
}

// Inserts an item where there is room.
pub(crate) fn insert_within<T: Drop>(items: &mut Vec<T>, place: usize, item: T)
    requires place { place ≤ vec_len items.old }
    requires room { vec_len items.old < vec_capacity items.old }
    ensures items { items.new.items ≡ insert items.old.items place item }
    ensures len { vec_len items.new ≡ vec_len items.old + 1 }
    ensures capacity { vec_capacity items.old ≤ vec_capacity items.new }
{
    let Ok(()) = items.insert(place, item) else {
        unreachable!()
    };
}
