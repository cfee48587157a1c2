//! The topmost piece of a table, whatever its type.

ghost use Rattle.std.specs.Prelude.{◌≡◌, IfOk, OnOk, OnErr};
ghost use Rattle.std.specs.Arc.{arc_value};
ghost use Rattle.row_spec.specs.Rows.{with_row, without_key};
ghost use Rattle.shared_table.specs.Pieces.{AreParts, rows_at, rows_of};

use crate::distance::Unknown;
use crate::entry::Entry;
use crate::filled::layers_of;
use crate::layer::Layer;
use crate::piece::{ChangingPiece, put_shared, take_shared};
use std::alloc::{AllocError, Global};
use std::sync::Arc;

/// Two layers over pieces.
pub(crate) type Top<K, V, P> = Layer<K, V, Layer<K, V, P>>;

/// The topmost piece over these pieces.
pub(crate) fn top_of<K: Ord + Copy + Drop, V: Drop, P: ChangingPiece<K, V>>(
    alloc: Global,
    pieces: Vec<Entry<K, V, P>>,
) -> Result<Arc<Top<K, V, P>, Global>, AllocError>
    requires { AreParts K.cmp pieces.items }
    ensures { IfOk result (λ top. rows_of (arc_value top) ≡ rows_of pieces.items) }
{
    let top = Layer::of(layers_of(alloc, pieces)?)?;
    Ok(Arc::new(alloc, top)?)
}

/// Puts the value at the key, into a first piece where there is none yet.
pub(crate) fn put_at_top<K: Ord + Copy + Drop, V: Drop, P: ChangingPiece<K, V>>(
    top: &mut Option<Arc<P, Global>>,
    alloc: Global,
    key: K,
    value: V,
) -> Result<(), AllocError>
    ensures ok { OnOk result (
        rows_at (λ piece. P.rows (arc_value piece)) top.new
        ≡ with_row K.cmp (rows_at (λ piece. P.rows (arc_value piece)) top.old) key value
        ) }
    ensures err { OnErr result (rows_at (λ piece. P.rows (arc_value piece)) top.new ≡ rows_at (λ piece. P.rows (arc_value piece)) top.old) }
{
    if let Some(piece) = top {
        return put_shared(piece, alloc, key, value);
    }
    let mut piece = P::make(alloc);
    piece.put(alloc, key, value)?;
    *top = Some(Arc::new(alloc, piece)?);
    Ok(())
}

/// Takes the key's row out, if there is one.
pub(crate) fn take_from_top<K: Ord + Copy + Drop, V: Drop, P: ChangingPiece<K, V>>(
    top: &mut Option<Arc<P, Global>>,
    alloc: Global,
    key: &K,
) -> Result<(), AllocError>
    ensures ok { OnOk result (
        rows_at (λ piece. P.rows (arc_value piece)) top.new
        ≡ without_key K.cmp (rows_at (λ piece. P.rows (arc_value piece)) top.old) key.now
        ) }
    ensures err { OnErr result (rows_at (λ piece. P.rows (arc_value piece)) top.new ≡ rows_at (λ piece. P.rows (arc_value piece)) top.old) }
{
    let Some(piece) = top else {
        return Ok(());
    };
    // A key that isn't there changes nothing, so no piece is copied for it.
    if piece.get::<Unknown>(key).is_none() {
        return Ok(());
    }
    take_shared(piece, alloc, key)
}
