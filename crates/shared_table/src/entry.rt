//! A piece among others, with its first key and its number of rows.

ghost use Rattle.std.specs.Prelude.{◌≡◌, ◌<◌, List, IfOk, IfSome, OnOk, OnErr, length};
ghost use Rattle.std.specs.Arc.{arc_value};
ghost use Rattle.row_spec.specs.Rows.{with_row, without_key};
ghost use Rattle.shared_table.specs.Pieces.{BeginsWith, AreHalves};

use crate::piece::{ChangingPiece, Piece, put_shared, take_shared};
use std::alloc::{AllocError, Global};
use std::marker::{Model, PhantomData};
use std::sync::Arc;

/// A piece among others, seen as its key and its rows. All calls but `take` keep that it begins with the key.
#[derive(Drop)]
pub(crate) struct Entry<K: Ord + Drop, V, P: Piece<K, V>> {
    key: K,
    len: usize,
    piece: Arc<P, Global>,
    of: PhantomData<V>,
}

impl<K: Ord + Drop, V, P: Piece<K, V>> Model for Entry<K, V, P> {
    ghost use Rattle.std.specs.Prelude.{◌≡◌, List, length};
    ghost use Rattle.std.specs.Arc.{arc_value};

    ghost Value = { K × List (K × V) };

    ghost view = { λ e. (e.key, P.rows (arc_value e.piece)) };

    ghost invariant = { λ e. e.len ≡ length (P.rows (arc_value e.piece)) };
}

impl<K: Ord + Drop, V: Drop, P: Piece<K, V>> Entry<K, V, P> {
    /// The key that it stands under.
    pub(crate) fn key(&self) -> &K
        ensures { result.now ≡ self.now.0 }
    {
        &self.key
    }

    /// The number of rows.
    pub(crate) fn len(&self) -> usize
        ensures { result ≡ length self.now.1 }
    {
        self.len
    }

    /// The piece.
    pub(crate) fn piece(&self) -> &P
        ensures { P.rows result.now ≡ self.now.1 }
    {
        &self.piece
    }
}

impl<K: Ord + Copy + Drop, V: Drop, P: Piece<K, V>> Entry<K, V, P> {
    /// An entry for a piece that begins with the key.
    pub(crate) fn make(alloc: Global, key: K, piece: P) -> Result<Entry<K, V, P>, AllocError>
        ensures { IfOk result (λ e. e ≡ (key, P.rows piece)) }
    {
        Ok(Entry {
            key,
            len: piece.len(),
            piece: Arc::new(alloc, piece)?,
            of: PhantomData,
        })
    }

    /// The same entry, of which the piece is shared.
    pub(crate) fn share(&self) -> Result<Entry<K, V, P>, AllocError>
        ensures { IfOk result (λ e. e ≡ self.now) }
    {
        Ok(Entry {
            key: self.key,
            len: self.len,
            piece: Arc::try_clone(&self.piece)?,
            of: PhantomData,
        })
    }
}

impl<K: Ord + Copy + Drop, V: Drop, P: ChangingPiece<K, V>> Entry<K, V, P> {
    /// Two entries in place of one whose piece is full.
    pub(crate) fn halves(
        &self,
        alloc: Global,
        at: usize,
    ) -> Result<Option<(Entry<K, V, P>, Entry<K, V, P>)>, AllocError>
        requires { (0 < at) × (at < 16) }
        ensures start { IfOk result (λ cut. IfSome cut (λ two. two.0.0 ≡ self.now.0)) }
        ensures parts { IfOk result (λ cut. IfSome cut (λ two. AreHalves self.now.1 two.0.1 two.1.0 two.1.1)) }
    {
        match self.piece.halves(alloc, at)? {
            Some((lower, start, upper)) => Ok(Some((
                Entry::make(alloc, self.key, lower)?,
                Entry::make(alloc, start, upper)?,
            ))),
            None => Ok(None),
        }
    }

    /// Puts a row.
    pub(crate) fn put(&mut self, alloc: Global, key: K, value: V) -> Result<(), AllocError>
        requires { BeginsWith self.old.0 self.old.1 }
        ensures begins { BeginsWith self.new.0 self.new.1 }
        ensures ok { OnOk result (self.new.1 ≡ with_row K.cmp self.old.1 key value) }
        ensures err { OnErr result (self.new ≡ self.old) }
    {
        put_shared(&mut self.piece, alloc, key, value)?;
        self.key = first_or(&*self.piece, self.key, self.of);
        self.len = self.piece.len();
        Ok(())
    }

    /// Takes a key's row out, after which there may be none.
    pub(crate) fn take(&mut self, alloc: Global, key: &K) -> Result<(), AllocError>
        requires { BeginsWith self.old.0 self.old.1 }
        ensures begins { 0 < length self.new.1 → BeginsWith self.new.0 self.new.1 }
        ensures ok { OnOk result (self.new.1 ≡ without_key K.cmp self.old.1 key.now) }
        ensures err { OnErr result (self.new ≡ self.old) }
    {
        take_shared(&mut self.piece, alloc, key)?;
        self.key = first_or(&*self.piece, self.key, self.of);
        self.len = self.piece.len();
        Ok(())
    }
}

// The first key of a piece, or the other where it has no rows.
fn first_or<K: Ord + Copy + Drop, V, P: Piece<K, V>>(piece: &P, other: K, _of: PhantomData<V>) -> K
    ensures { 0 < length (P.rows piece.now) → BeginsWith result (P.rows piece.now) }
{
    match piece.first() {
        Some(key) => *key,
        None => other,
    }
}
