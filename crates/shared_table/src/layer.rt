//! Pieces one after another, each with its first key.

ghost use Rattle.std.specs.Prelude.{◌≡◌, ◌+◌, ◌^◌, ◌<◌, ◌≤◌, [], List, length, IfOk, OnOk, OnErr, IsTrue, false};
ghost use Rattle.row_spec.specs.Rows.{with_row, without_key};
ghost use Rattle.row_spec.specs.Blocks.{IsBlockFor, IsBlockAt, rows_before};
ghost use Rattle.shared_table.specs.Pieces.{AreParts, blocks_of, rows_of};

use crate::distance::Distance;
use crate::entry::Entry;
use crate::piece::{ChangingPiece, PIECE_ROWS, Piece};
use std::alloc::{AllocError, Global};
use std::marker::Model;

/// Pieces one after another, each with its first key. Seen as its parts: the key and the rows of each piece.
#[derive(Drop)]
pub(crate) struct Layer<K: Ord + Drop, V, P: Piece<K, V>> {
    entries: Vec<Entry<K, V, P>>,
    len: usize,
}

impl<K: Ord + Drop, V, P: Piece<K, V>> Model for Layer<K, V, P> {
    ghost use Rattle.std.specs.Prelude.{◌≡◌, List, length};
    ghost use Rattle.shared_table.specs.Pieces.{AreParts, rows_of};

    ghost Value = { List (K × List (K × V)) };

    ghost view = { λ l. l.entries.items };

    ghost invariant = { λ l. AreParts K.cmp l.entries.items × (l.len ≡ length (rows_of l.entries.items)) };
}

impl<K: Ord + Drop, V: Drop, P: Piece<K, V>> Layer<K, V, P> {
    // The place of the piece that has the key or that the key goes to. Keys are compared from the front: they are few, and the processor
    // foresees the branches of a search by halves so seldom that it takes longer.
    fn place_for(&self, key: &K) -> usize
        requires { 0 < length self.now }
        ensures { IsBlockFor K.cmp (blocks_of self.now) key.now result }
    {
        for (place, entry) in self.entries[1..].iter().enumerate() {
            if key.cmp(entry.key()).is_lt() {
                return place;
            }
        }
        self.entries.len() - 1
    }

    // The same place, after a look where the piece stands if no key is missing.
    fn place_near<D: Distance<K>>(&self, key: &K) -> usize
        requires { 0 < length self.now }
        ensures { IsBlockFor K.cmp (blocks_of self.now) key.now result }
    {
        if let Some(place) = self.guess::<D>(key) {
            if self.is_place_for(place, key) {
                return place;
            }
        }
        self.place_for(key)
    }

    // Where the key's piece stands if no key is missing and all pieces have as many rows as the first.
    fn guess<D: Distance<K>>(&self, key: &K) -> Option<usize> {
        let first = self.entries.first()?;
        let distance = D::between(first.key(), key)?;
        let rows = u32::try_from(first.len()).ok()?;
        Some(distance.checked_div(rows)? as usize)
    }

    // Whether the piece at a place, if there is one, is known to have the key or to be where it goes.
    fn is_place_for(&self, place: usize, key: &K) -> bool
        ensures { IsTrue result → IsBlockFor K.cmp (blocks_of self.now) key.now place }
    {
        if place >= self.entries.len() || key.cmp(self.entries[place].key()).is_lt() {
            return false;
        }
        let next = place + 1;
        next >= self.entries.len() || key.cmp(self.entries[next].key()).is_lt()
    }

    // How many rows the pieces before a place have.
    fn rows_before(&self, place: usize) -> usize
        requires { place ≤ length self.now }
        ensures { result ≡ rows_before (blocks_of self.now) place }
    {
        // No sum is greater than this one.
        let _total = self.len();
        let mut count = 0;
        for entry in &self.entries[..place] {
            count += entry.len();
        }
        count
    }

    // The piece that has the row at a place among all rows, and the row's place in it.
    fn find(&self, place: usize) -> (usize, usize)
        requires { place < length (rows_of self.now) }
        ensures piece { IsBlockAt (blocks_of self.now) place result.0 }
        ensures place { rows_before (blocks_of self.now) result.0 + result.1 ≡ place }
    {
        let mut piece = 0;
        let mut left = place;
        while left >= self.entries[piece].len() {
            left -= self.entries[piece].len();
            piece += 1;
        }
        (piece, left)
    }
}

impl<K: Ord + Drop, V: Drop, P: Piece<K, V>> Layer<K, V, P> {
    /// A layer of these pieces. An `Err` says that their rows are too many to be counted.
    pub(crate) fn of(entries: Vec<Entry<K, V, P>>) -> Result<Layer<K, V, P>, AllocError>
        requires { AreParts K.cmp entries.items }
        ensures { IfOk result (λ layer. layer ≡ entries.items) }
    {
        let len = rows_in(&entries)?;
        Ok(Layer { entries, len })
    }
}

impl<K: Ord + Copy + Drop, V: Drop, P: ChangingPiece<K, V>> Layer<K, V, P> {
    // Where a full piece is cut: in the middle, but the last one near its end, so that rows that come in ascending order fill pieces.
    fn cut_place(&self, place: usize) -> usize
        ensures { (0 < result) × (result < 16) }
    {
        if self.entries.len() <= place.saturating_add(1) {
            PIECE_ROWS - 1
        } else {
            PIECE_ROWS / 2
        }
    }

    // Cuts a piece in two where it is full, and tells whether it was.
    fn cut(&mut self, alloc: Global, place: usize) -> Result<bool, AllocError>
        requires { place < length self.old }
        ensures rows { rows_of self.new ≡ rows_of self.old }
        ensures some { 0 < length self.new }
        ensures whole { IfOk result (λ cut. cut ≡ false → self.new ≡ self.old) }
    {
        let at = self.cut_place(place);
        if let Some((lower, upper)) = self.entries[place].halves(alloc, at)? {
            let Ok(()) = self.entries.insert(place + 1, upper) else {
                return Err(AllocError);
            };
            self.entries[place] = lower;
            return Ok(true);
        }
        Ok(false)
    }

    // The place of the piece that a key goes to, which is cut first where it is full.
    fn place_with_room(&mut self, alloc: Global, key: &K) -> Result<usize, AllocError>
        requires { 0 < length self.old }
        ensures rows { rows_of self.new ≡ rows_of self.old }
        ensures place { IfOk result (IsBlockFor K.cmp (blocks_of self.new) key.now) }
    {
        let place = self.place_for(key);
        if self.cut(alloc, place)? {
            return Ok(self.place_for(key));
        }
        Ok(place)
    }

    // Puts the first row.
    fn put_first(&mut self, alloc: Global, key: K, value: V) -> Result<(), AllocError>
        requires { self.old ≡ [] }
        ensures ok { OnOk result (rows_of self.new ≡ with_row K.cmp (rows_of self.old) key value) }
        ensures err { OnErr result (rows_of self.new ≡ rows_of self.old) }
    {
        let mut piece = P::make(alloc);
        piece.put(alloc, key, value)?;
        self.entries.push(Entry::make(alloc, key, piece)?)?;
        self.len = 1;
        Ok(())
    }

    // Puts a row into the piece for it.
    fn put_at(&mut self, alloc: Global, place: usize, key: K, value: V) -> Result<(), AllocError>
        requires block { IsBlockFor K.cmp (blocks_of self.old) key place }
        requires fits { length (rows_of self.old) + 1 < 2 ^ 64 }
        ensures ok { OnOk result (rows_of self.new ≡ with_row K.cmp (rows_of self.old) key value) }
        ensures err { OnErr result (rows_of self.new ≡ rows_of self.old) }
    {
        let entry = &mut self.entries[place];
        let before = entry.len();
        entry.put(alloc, key, value)?;
        let after = entry.len();
        self.len = self.len - before + after;
        Ok(())
    }

    // Takes a key's row out of the piece for it, and the piece where no row is left.
    fn take_at(&mut self, alloc: Global, place: usize, key: &K) -> Result<(), AllocError>
        requires { IsBlockFor K.cmp (blocks_of self.old) key.now place }
        ensures ok { OnOk result (rows_of self.new ≡ without_key K.cmp (rows_of self.old) key.now) }
        ensures err { OnErr result (rows_of self.new ≡ rows_of self.old) }
    {
        let entry = &mut self.entries[place];
        let before = entry.len();
        entry.take(alloc, key)?;
        let left = entry.len();
        self.len = self.len - before + left;
        if left == 0 {
            let _gone = self.entries.remove(place);
        }
        Ok(())
    }
}

// How many rows the pieces have.
fn rows_in<K: Ord + Drop, V: Drop, P: Piece<K, V>>(
    entries: &[Entry<K, V, P>],
) -> Result<usize, AllocError>
    ensures { IfOk result (λ count. count ≡ length (rows_of entries.now)) }
{
    let mut count: usize = 0;
    for entry in entries {
        if entry.len() > usize::MAX - count {
            return Err(AllocError);
        }
        count += entry.len();
    }
    Ok(count)
}

// The same entries, of which the pieces are shared.
fn share_entries<K: Ord + Copy + Drop, V: Drop, P: Piece<K, V>>(
    alloc: Global,
    entries: &[Entry<K, V, P>],
) -> Result<Vec<Entry<K, V, P>>, AllocError>
    ensures { IfOk result (λ twins. twins.items ≡ entries.now) }
{
    // Mostly a copy is made for a put, which then finds room for one more.
    let mut twins = Vec::with_capacity(alloc, entries.len().max(PIECE_ROWS))?;
    for entry in entries {
        twins.push(entry.share()?)?;
    }
    Ok(twins)
}

impl<K: Ord + Drop, V: Drop, P: Piece<K, V>> Piece<K, V> for Layer<K, V, P> {
    ghost rows = { λ l. rows_of l };

    fn len(&self) -> usize {
        self.len
    }

    fn first(&self) -> Option<&K> {
        self.entries.first().map(|entry| entry.key())
    }

    fn get<D: Distance<K>>(&self, key: &K) -> Option<&V> {
        if self.entries.is_empty() {
            return None;
        }
        let place = self.place_near::<D>(key);
        self.entries[place].piece().get::<D>(key)
    }

    fn place_of(&self, key: &K) -> usize {
        if self.entries.is_empty() {
            return 0;
        }
        // The sum is no greater than this one.
        let _total = self.len();
        let place = self.place_for(key);
        self.rows_before(place) + self.entries[place].piece().place_of(key)
    }

    fn run_at(&self, place: usize) -> &[(K, V)] {
        let (piece, left) = self.find(place);
        self.entries[piece].piece().run_at(left)
    }
}

impl<K: Ord + Copy + Drop, V: Drop, P: ChangingPiece<K, V>> ChangingPiece<K, V> for Layer<K, V, P> {
    fn make(alloc: Global) -> Layer<K, V, P> {
        Layer {
            entries: Vec::new(alloc),
            len: 0,
        }
    }

    fn copy(&self, alloc: Global) -> Result<Layer<K, V, P>, AllocError> {
        Ok(Layer {
            entries: share_entries(alloc, &self.entries)?,
            len: self.len,
        })
    }

    fn halves(
        &self,
        alloc: Global,
        at: usize,
    ) -> Result<Option<(Layer<K, V, P>, K, Layer<K, V, P>)>, AllocError> {
        if self.entries.len() < PIECE_ROWS {
            return Ok(None);
        }
        let start = *self.entries[at].key();
        let count = self.rows_before(at);
        let lower = Layer {
            entries: share_entries(alloc, &self.entries[..at])?,
            len: count,
        };
        let upper = Layer {
            entries: share_entries(alloc, &self.entries[at..])?,
            len: self.len - count,
        };
        Ok(Some((lower, start, upper)))
    }

    fn put(&mut self, alloc: Global, key: K, value: V) -> Result<(), AllocError> {
        if self.len == usize::MAX {
            return Err(AllocError);
        }
        if self.entries.is_empty() {
            return self.put_first(alloc, key, value);
        }
        let place = self.place_with_room(alloc, &key)?;
        self.put_at(alloc, place, key, value)
    }

    fn take(&mut self, alloc: Global, key: &K) -> Result<(), AllocError> {
        if self.entries.is_empty() {
            return Ok(());
        }
        let place = self.place_for(key);
        self.take_at(alloc, place, key)
    }
}
