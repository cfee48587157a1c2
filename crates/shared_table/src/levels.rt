//! The lower levels of a table under one name: what is proved of a value spells its type out, and five layers in one another are long.

ghost use Rattle.std.specs.Prelude.{◌≡◌, IfOk};
ghost use Rattle.row_spec.specs.Rows.{IsAscending};
ghost use Rattle.shared_table.specs.Pieces.{AllBegin, rows_of};

use crate::distance::Distance;
use crate::entry::Entry;
use crate::filled::{layers_of, runs_of};
use crate::layer::Layer;
use crate::piece::{ChangingPiece, Piece};
use crate::run::Run;
use s57_types::Duplicate;
use std::alloc::{AllocError, Global};
use std::marker::Model;

type Low<K, V> = Layer<K, V, Run<K, V>>;

/// The lower three levels of a table, as one piece.
#[derive(Drop)]
pub(crate) struct LowerLevels<K: Ord + Drop, V: Drop> {
    top: Layer<K, V, Low<K, V>>,
}

impl<K: Ord + Drop, V: Drop> Model for LowerLevels<K, V> {
    ghost use Rattle.std.specs.Prelude.{List};
    ghost use Rattle.shared_table.specs.Pieces.{rows_of};

    ghost Value = { List (K × V) };

    ghost view = { λ l. rows_of l.top };
}

impl<K: Ord + Drop, V: Drop> Piece<K, V> for LowerLevels<K, V> {
    ghost rows = { λ l. l };

    fn len(&self) -> usize {
        self.top.len()
    }

    fn first(&self) -> Option<&K> {
        self.top.first()
    }

    fn get<D: Distance<K>>(&self, key: &K) -> Option<&V> {
        self.top.get::<D>(key)
    }

    fn place_of(&self, key: &K) -> usize {
        self.top.place_of(key)
    }

    fn run_at(&self, place: usize) -> &[(K, V)] {
        self.top.run_at(place)
    }
}

impl<K: Ord + Copy + Drop, V: Duplicate + Drop> ChangingPiece<K, V> for LowerLevels<K, V> {
    fn make(alloc: Global) -> LowerLevels<K, V> {
        LowerLevels {
            top: Layer::make(alloc),
        }
    }

    fn copy(&self, alloc: Global) -> Result<LowerLevels<K, V>, AllocError> {
        Ok(LowerLevels {
            top: self.top.copy(alloc)?,
        })
    }

    fn halves(
        &self,
        alloc: Global,
        at: usize,
    ) -> Result<Option<(LowerLevels<K, V>, K, LowerLevels<K, V>)>, AllocError> {
        match self.top.halves(alloc, at)? {
            Some((lower, start, upper)) => Ok(Some((
                LowerLevels { top: lower },
                start,
                LowerLevels { top: upper },
            ))),
            None => Ok(None),
        }
    }

    fn put(&mut self, alloc: Global, key: K, value: V) -> Result<(), AllocError> {
        self.top.put(alloc, key, value)
    }

    fn take(&mut self, alloc: Global, key: &K) -> Result<(), AllocError> {
        self.top.take(alloc, key)
    }
}

// The same entry, whose piece goes by its short name.
fn renamed<K: Ord + Copy + Drop, V: Duplicate + Drop>(
    alloc: Global,
    entry: &Entry<K, V, Layer<K, V, Low<K, V>>>,
) -> Result<Entry<K, V, LowerLevels<K, V>>, AllocError>
    ensures { IfOk result (λ renamed. renamed ≡ entry.now) }
{
    let top = entry.piece().copy(alloc)?;
    Entry::make(alloc, *entry.key(), LowerLevels { top })
}

/// Rows in pieces of three levels. Each has thousands of rows, so that it doesn't matter that its top is copied.
pub(crate) fn lower_levels_of<K: Ord + Copy + Drop, V: Duplicate + Drop>(
    alloc: Global,
    rows: Vec<(K, V)>,
) -> Result<Vec<Entry<K, V, LowerLevels<K, V>>>, AllocError>
    requires { IsAscending K.cmp rows.items }
    ensures rows { IfOk result (λ pieces. rows_of pieces.items ≡ rows.items) }
    ensures begin { IfOk result (λ pieces. AllBegin pieces.items) }
{
    let runs = runs_of(alloc, rows)?;
    let low = layers_of(alloc, runs)?;
    let tops = layers_of(alloc, low)?;
    let mut pieces = Vec::with_capacity(alloc, tops.len())?;
    for entry in &tops {
        pieces.push(renamed(alloc, entry)?)?;
    }
    Ok(pieces)
}
