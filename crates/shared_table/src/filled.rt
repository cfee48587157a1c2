//! Pieces of rows that ascend already, made level by level without a search.

ghost use Rattle.std.specs.Prelude.{◌≡◌, ◌++◌, IfOk, OnOk, vec_len};
ghost use Rattle.row_spec.specs.Rows.{IsAscending};
ghost use Rattle.shared_table.specs.Pieces.{AllBegin, AreParts, rows_of};

use crate::entry::Entry;
use crate::layer::Layer;
use crate::piece::{ChangingPiece, PIECE_ROWS, Piece};
use crate::run::Run;
use s57_types::Duplicate;
use std::alloc::{AllocError, Global};
use std::mem;

// How many rows or pieces a piece gets, so that a put finds room for one more.
const FILLED: usize = PIECE_ROWS - 1;

type Runs<K, V> = Vec<Entry<K, V, Run<K, V>>>;

type Layers<K, V, P> = Vec<Entry<K, V, Layer<K, V, P>>>;

// Appends a run of rows, if there are some.
fn push_run<K: Ord + Copy + Drop, V: Duplicate + Drop>(
    alloc: Global,
    runs: &mut Runs<K, V>,
    rows: Vec<(K, V)>,
) -> Result<(), AllocError>
    requires ascending { IsAscending K.cmp rows.items }
    requires begin { AllBegin runs.old.items }
    ensures rows { OnOk result (rows_of runs.new.items ≡ rows_of runs.old.items ++ rows.items) }
    ensures begin { OnOk result (AllBegin runs.new.items) }
{
    let Some(first) = rows.first() else {
        return Ok(());
    };
    let key = first.0;
    runs.push(Entry::make(alloc, key, Run::of(rows))?)?;
    Ok(())
}

// Gives back the memory of rows that have left, an eighth of it or more at a time.
fn give_back<T>(left: &mut Vec<T>)
    ensures items { left.new.items ≡ left.old.items }
    ensures len { vec_len left.new ≡ vec_len left.old }
{
    if left.len() <= left.capacity() / 8 * 7 {
        left.shrink_to_fit();
    }
}

/// Rows in runs. They leave their memory one after the other, so that it is given back meanwhile.
pub(crate) fn runs_of<K: Ord + Copy + Drop, V: Duplicate + Drop>(
    alloc: Global,
    rows: Vec<(K, V)>,
) -> Result<Runs<K, V>, AllocError>
    requires { IsAscending K.cmp rows.items }
    ensures rows { IfOk result (λ runs. rows_of runs.items ≡ rows.items) }
    ensures begin { IfOk result (λ runs. AllBegin runs.items) }
{
    let mut runs = Vec::with_capacity(alloc, rows.len() / FILLED + 1)?;
    let mut run = Vec::with_capacity(alloc, PIECE_ROWS)?;
    let mut left = rows;
    left.reverse();
    while let Some(row) = left.pop() {
        if run.len() >= FILLED {
            let full = mem::replace(&mut run, Vec::with_capacity(alloc, PIECE_ROWS)?);
            push_run(alloc, &mut runs, full)?;
            give_back(&mut left);
        }
        run.push(row)?;
    }
    push_run(alloc, &mut runs, run)?;
    Ok(runs)
}

// Appends a layer of pieces, if there are some.
fn push_layer<K: Ord + Copy + Drop, V: Drop, P: ChangingPiece<K, V>>(
    alloc: Global,
    layers: &mut Layers<K, V, P>,
    pieces: Vec<Entry<K, V, P>>,
) -> Result<(), AllocError>
    requires parts { AreParts K.cmp pieces.items }
    requires begin { AllBegin layers.old.items }
    ensures rows { OnOk result (rows_of layers.new.items ≡ rows_of layers.old.items ++ rows_of pieces.items) }
    ensures begin { OnOk result (AllBegin layers.new.items) }
{
    let Some(first) = pieces.first() else {
        return Ok(());
    };
    let key = *first.key();
    layers.push(Entry::make(alloc, key, Layer::of(pieces)?)?)?;
    Ok(())
}

/// Pieces in layers.
pub(crate) fn layers_of<K: Ord + Copy + Drop, V: Drop, P: ChangingPiece<K, V>>(
    alloc: Global,
    pieces: Vec<Entry<K, V, P>>,
) -> Result<Layers<K, V, P>, AllocError>
    requires { AreParts K.cmp pieces.items }
    ensures rows { IfOk result (λ layers. rows_of layers.items ≡ rows_of pieces.items) }
    ensures begin { IfOk result (λ layers. AllBegin layers.items) }
{
    let mut layers = Vec::with_capacity(alloc, pieces.len() / FILLED + 1)?;
    let mut layer = Vec::with_capacity(alloc, PIECE_ROWS)?;
    for piece in pieces {
        if layer.len() >= FILLED {
            let full = mem::replace(&mut layer, Vec::with_capacity(alloc, PIECE_ROWS)?);
            push_layer(alloc, &mut layers, full)?;
        }
        layer.push(piece)?;
    }
    push_layer(alloc, &mut layers, layer)?;
    Ok(layers)
}
