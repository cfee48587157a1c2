//! A piece of a table.

ghost use Rattle.std.specs.Prelude.{◌≡◌, ◌<◌, [], List, IfOk, IfSome, OnOk, OnErr, MatchOption, length};
ghost use Rattle.std.specs.Option.{option_copied};
ghost use Rattle.std.specs.Arc.{arc_value};
ghost use Rattle.row_spec.specs.Rows.{IsAscending, value_of, with_row, without_key, lower_bound};
ghost use Rattle.shared_table.specs.Pieces.{IsRunAt, BeginsWith, AreHalves};

use crate::distance::Distance;
use std::alloc::{AllocError, Global};
use std::sync::Arc;

/// The most rows or pieces that a piece has directly, but for the top of a table.
pub(crate) const PIECE_ROWS: usize = 16;

/// Rows in ascending order of their keys, as they are read.
pub(crate) trait Piece<K: Ord, V>: Drop {
    ghost rows: { Self → List (K × V) };

    /// The number of rows. Their keys ascend.
    fn len(&self) -> usize
        ensures len { result ≡ length (rows self.now) }
        ensures ascending { IsAscending K.cmp (rows self.now) };

    /// The first key, if there is a row.
    fn first(&self) -> Option<&K>
        ensures { MatchOption result (rows self.now ≡ []) (λ key. BeginsWith key.now (rows self.now)) };

    /// The value of a key, whose place is guessed from distances.
    fn get<D: Distance<K>>(&self, key: &K) -> Option<&V>
        ensures { option_copied result ≡ value_of K.cmp (rows self.now) key.now };

    /// The place of the first key that is not below this one.
    fn place_of(&self, key: &K) -> usize
        ensures { result ≡ lower_bound K.cmp (rows self.now) key.now };

    /// The rows from a place on, as many as stand in one vector.
    fn run_at(&self, place: usize) -> &[(K, V)]
        requires { place < length (rows self.now) }
        ensures { IsRunAt (rows self.now) place result.now };
}

/// Rows in ascending order of their keys, as they are changed. An `Err` means out of memory, and leaves the rows as they were.
pub(crate) trait ChangingPiece<K: Ord, V>: Piece<K, V> {
    /// No rows.
    fn make(alloc: Global) -> Self
        ensures { Self.rows result ≡ [] };

    /// The same rows, in a piece of its own.
    fn copy(&self, alloc: Global) -> Result<Self, AllocError>
        ensures { IfOk result (λ twin. Self.rows twin ≡ Self.rows self.now) };

    /// A full piece in two, cut before its row or piece at a place, and the first key of the upper one. `None` where it isn't full.
    fn halves(&self, alloc: Global, at: usize) -> Result<Option<(Self, K, Self)>, AllocError>
        requires { (0 < at) × (at < 16) }
        ensures { IfOk result (λ cut. IfSome cut (λ parts. AreHalves (Self.rows self.now) (Self.rows parts.0) parts.1 (Self.rows parts.2))) };

    /// Puts the value at the key.
    fn put(&mut self, alloc: Global, key: K, value: V) -> Result<(), AllocError>
        ensures ok { OnOk result (Self.rows self.new ≡ with_row K.cmp (Self.rows self.old) key value) }
        ensures err { OnErr result (Self.rows self.new ≡ Self.rows self.old) };

    /// Takes the key's row out, if there is one.
    fn take(&mut self, alloc: Global, key: &K) -> Result<(), AllocError>
        ensures ok { OnOk result (Self.rows self.new ≡ without_key K.cmp (Self.rows self.old) key.now) }
        ensures err { OnErr result (Self.rows self.new ≡ Self.rows self.old) };
}

/// Puts a row into a piece that others may have too: they keep theirs.
pub(crate) fn put_shared<K: Ord + Drop, V: Drop, P: ChangingPiece<K, V>>(
    piece: &mut Arc<P, Global>,
    alloc: Global,
    key: K,
    value: V,
) -> Result<(), AllocError>
    ensures ok { OnOk result (P.rows (arc_value piece.new) ≡ with_row K.cmp (P.rows (arc_value piece.old)) key value) }
    ensures err { OnErr result (P.rows (arc_value piece.new) ≡ P.rows (arc_value piece.old)) }
{
    if let Some(own) = Arc::get_mut(piece) {
        return own.put(alloc, key, value);
    }
    let mut fresh = piece.copy(alloc)?;
    fresh.put(alloc, key, value)?;
    *piece = Arc::new(alloc, fresh)?;
    Ok(())
}

/// Takes a key's row out of a piece that others may have too: they keep theirs.
pub(crate) fn take_shared<K: Ord + Drop, V: Drop, P: ChangingPiece<K, V>>(
    piece: &mut Arc<P, Global>,
    alloc: Global,
    key: &K,
) -> Result<(), AllocError>
    ensures ok { OnOk result (P.rows (arc_value piece.new) ≡ without_key K.cmp (P.rows (arc_value piece.old)) key.now) }
    ensures err { OnErr result (P.rows (arc_value piece.new) ≡ P.rows (arc_value piece.old)) }
{
    if let Some(own) = Arc::get_mut(piece) {
        return own.take(alloc, key);
    }
    let mut fresh = piece.copy(alloc)?;
    fresh.take(alloc, key)?;
    *piece = Arc::new(alloc, fresh)?;
    Ok(())
}
