//! Rows in one vector.

ghost use Rattle.std.specs.Prelude.{◌≡◌, ◌<◌, List, IfOk, IfSome, MatchResult, length};
ghost use Rattle.row_spec.specs.Rows.{IsAscending, IsRowAt, IsGapAt};

use crate::distance::Distance;
use crate::piece::{ChangingPiece, PIECE_ROWS, Piece};
use s57_types::Duplicate;
use std::alloc::{AllocError, Global};
use std::cmp::Ordering;
use std::marker::Model;

/// Rows in one vector.
#[derive(Drop)]
pub(crate) struct Run<K: Ord, V> {
    rows: Vec<(K, V)>,
}

impl<K: Ord, V> Model for Run<K, V> {
    ghost use Rattle.std.specs.Prelude.{List};
    ghost use Rattle.row_spec.specs.Rows.{IsAscending};

    ghost Value = { List (K × V) };

    ghost view = { λ r. r.rows.items };

    ghost invariant = { λ r. IsAscending K.cmp r.rows.items };
}

impl<K: Ord + Drop, V: Drop> Run<K, V> {
    // Where the key's row is, or where it would go. Keys are compared from the front, as those of a layer.
    fn search(&self, key: &K) -> Result<usize, usize>
        ensures { MatchResult result (IsRowAt K.cmp self.now key.now) (IsGapAt K.cmp self.now key.now) }
    {
        for (place, row) in self.rows.iter().enumerate() {
            match row.0.cmp(key) {
                Ordering::Less => {}
                Ordering::Equal => return Ok(place),
                Ordering::Greater => return Err(place),
            }
        }
        Err(self.rows.len())
    }

    // The same search, which looks first where the row stands if no key is missing.
    fn search_near<D: Distance<K>>(&self, key: &K) -> Result<usize, usize>
        ensures { MatchResult result (IsRowAt K.cmp self.now key.now) (IsGapAt K.cmp self.now key.now) }
    {
        if let Some(place) = self.guess::<D>(key) {
            if self.rows[place].0.cmp(key).is_eq() {
                return Ok(place);
            }
        }
        self.search(key)
    }

    // Where the key's row stands if no key is missing.
    fn guess<D: Distance<K>>(&self, key: &K) -> Option<usize>
        ensures { IfSome result (λ place. place < length self.now) }
    {
        let place = D::between(&self.rows.first()?.0, key)? as usize;
        if place < self.rows.len() {
            Some(place)
        } else {
            None
        }
    }
}

impl<K: Ord, V> Run<K, V> {
    /// A run of rows that ascend.
    pub(crate) fn of(rows: Vec<(K, V)>) -> Run<K, V>
        requires { IsAscending K.cmp rows.items }
        ensures { result ≡ rows.items }
    {
        Run { rows }
    }
}

impl<K: Ord + Drop, V: Drop> Piece<K, V> for Run<K, V> {
    ghost rows = { λ r. r };

    fn len(&self) -> usize {
        self.rows.len()
    }

    fn first(&self) -> Option<&K> {
        self.rows.first().map(|row| &row.0)
    }

    fn get<D: Distance<K>>(&self, key: &K) -> Option<&V> {
        match self.search_near::<D>(key) {
            Ok(place) => Some(&self.rows[place].1),
            Err(_) => None,
        }
    }

    fn place_of(&self, key: &K) -> usize {
        match self.search(key) {
            Ok(place) => place,
            Err(place) => place,
        }
    }

    fn run_at(&self, place: usize) -> &[(K, V)] {
        &self.rows[place..]
    }
}

impl<K: Ord + Copy + Drop, V: Duplicate + Drop> ChangingPiece<K, V> for Run<K, V> {
    fn make(alloc: Global) -> Run<K, V> {
        Run {
            rows: Vec::new(alloc),
        }
    }

    fn copy(&self, alloc: Global) -> Result<Run<K, V>, AllocError> {
        Ok(Run {
            rows: copy_rows(alloc, &self.rows)?,
        })
    }

    fn halves(
        &self,
        alloc: Global,
        at: usize,
    ) -> Result<Option<(Run<K, V>, K, Run<K, V>)>, AllocError> {
        if self.rows.len() < PIECE_ROWS {
            return Ok(None);
        }
        let lower = Run {
            rows: copy_rows(alloc, &self.rows[..at])?,
        };
        let upper = Run {
            rows: copy_rows(alloc, &self.rows[at..])?,
        };
        Ok(Some((lower, self.rows[at].0, upper)))
    }

    fn put(&mut self, _alloc: Global, key: K, value: V) -> Result<(), AllocError> {
        match self.search(&key) {
            Ok(place) => {
                self.rows[place] = (key, value);
                Ok(())
            }
            Err(place) => {
                let Ok(()) = self.rows.insert(place, (key, value)) else {
                    return Err(AllocError);
                };
                Ok(())
            }
        }
    }

    fn take(&mut self, _alloc: Global, key: &K) -> Result<(), AllocError> {
        if let Ok(place) = self.search(key) {
            let _row = self.rows.remove(place);
        }
        Ok(())
    }
}

// The same rows, with copies of the values.
fn copy_rows<K: Copy + Drop, V: Duplicate + Drop>(
    alloc: Global,
    rows: &[(K, V)],
) -> Result<Vec<(K, V)>, AllocError>
    ensures { IfOk result (λ twins. twins.items ≡ rows.now) }
{
    // Mostly a copy is made for a put, which then finds room for one more.
    let mut twins = Vec::with_capacity(alloc, rows.len().max(PIECE_ROWS))?;
    for (key, value) in rows {
        twins.push((*key, value.copy(alloc)?))?;
    }
    Ok(twins)
}
