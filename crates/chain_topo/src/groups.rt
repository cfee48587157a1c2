//! Values in groups by key.

ghost use Rattle.std.specs.Prelude.{◌≡◌, ◌≤◌, ◌<◌, ◌-◌, IfOk, IsTrue, false, length, map, slice_index_or, true};
ghost use Rattle.std.specs.Ordering.{is_le, is_lt};
ghost use Rattle.std.specs.declared.cmp.Ordering.TheVariants.{Equal};
ghost use Rattle.std.specs.List.Sorted.{IsSorted};
ghost use Rattle.cell_spec.specs.Ascending.{ascending};
ghost use Rattle.chain_topo.specs.Listed.{pair_order, values_at};
ghost use Rattle.chain_topo.specs.Span.{IsSpan};

use cell_spec::distinct;
use std::alloc::{AllocError, Global};
use std::marker::Model;

/// Pairs of a key and a value in ascending order, each once.
#[derive(Drop)]
pub struct Groups<K: Ord, V> {
    keys: Vec<K>,
    values: Vec<V>,
}

impl<K: Ord, V> Model for Groups<K, V> {
    ghost use Rattle.std.specs.Prelude.{◌≡◌, List, length, zip};
    ghost use Rattle.std.specs.List.Sorted.{IsSorted};

    ghost Value = { List (K × V) };

    ghost view = { λ g. zip g.keys.items g.values.items };

    ghost invariant = { λ g. (length g.keys.items ≡ length g.values.items) × IsSorted K.cmp g.keys.items };
}

impl<K: Ord + Copy, V: Ord + Copy> Groups<K, V> {
    /// The pairs in ascending order, each once. What ascends already is not sorted.
    ///
    /// An `Err` means out of memory.
    pub(crate) fn make(alloc: Global, pairs: Vec<(K, V)>) -> Result<Groups<K, V>, AllocError>
        requires exact_keys { (a b : K) → K.cmp a b ≡ Equal → a ≡ b }
        requires exact_values { (a b : V) → V.cmp a b ≡ Equal → a ≡ b }
        ensures { IfOk result (λ groups. groups ≡ ascending (pair_order K.cmp V.cmp) pairs.items) }
    {
        let pairs = distinct(pairs);
        let keys = keys_of(alloc, &pairs)?;
        let values = values_of(alloc, &pairs)?;
        Ok(Groups { keys, values })
    }

    /// The values of a key, which are looked for from one place up to another first.
    pub(crate) fn values_near(&self, key: &K, from: usize, to: usize) -> &[V]
        ensures { result.now ≡ values_at K.cmp self.now key.now }
    {
        if is_span(&self.keys, key, from, to) {
            return &self.values[from..to];
        }
        self.values_of(key)
    }

    /// The values of a key.
    pub fn values_of(&self, key: &K) -> &[V]
        ensures { result.now ≡ values_at K.cmp self.now key.now }
    {
        let (from, to) = span_of(&self.keys, key);
        &self.values[from..to]
    }
}

// Whether the key before a place is below a key, and the one at the place isn't.
fn begins_at<K: Ord>(keys: &[K], key: &K, place: usize) -> bool
    requires { place ≤ length keys.now }
    ensures before { IsTrue result → 0 < place → (d : _) → is_lt (K.cmp (slice_index_or keys.now (place - 1) d) key.now) ≡ true }
    ensures there { IsTrue result → place < length keys.now → (d : _) → is_lt (K.cmp (slice_index_or keys.now place d) key.now) ≡ false }
{
    (place == 0 || keys[place - 1].cmp(key).is_lt())
        && (place == keys.len() || !keys[place].cmp(key).is_lt())
}

// Whether the key before a place isn't above a key, and the one at the place is.
fn ends_at<K: Ord>(keys: &[K], key: &K, place: usize) -> bool
    requires { place ≤ length keys.now }
    ensures before { IsTrue result → 0 < place → (d : _) → is_le (K.cmp (slice_index_or keys.now (place - 1) d) key.now) ≡ true }
    ensures there { IsTrue result → place < length keys.now → (d : _) → is_le (K.cmp (slice_index_or keys.now place d) key.now) ≡ false }
{
    (place == 0 || keys[place - 1].cmp(key).is_le())
        && (place == keys.len() || !keys[place].cmp(key).is_le())
}

// Whether a key stands among sorted keys from one of two places up to the other, which are places of them.
fn has_ends<K: Ord>(keys: &[K], key: &K, from: usize, to: usize) -> bool
    requires sorted { IsSorted K.cmp keys.now }
    requires from { from ≤ length keys.now }
    requires to { to ≤ length keys.now }
    ensures { IsTrue result → IsSpan K.cmp key.now keys.now from to }
{
    begins_at(keys, key, from) && ends_at(keys, key, to)
}

// Whether a key stands among sorted keys from one place up to another.
fn is_span<K: Ord>(keys: &[K], key: &K, from: usize, to: usize) -> bool
    requires { IsSorted K.cmp keys.now }
    ensures span { IsTrue result → IsSpan K.cmp key.now keys.now from to }
    ensures ordered { IsTrue result → from ≤ to }
    ensures within { IsTrue result → to ≤ length keys.now }
{
    from <= to && to <= keys.len() && has_ends(keys, key, from, to)
}

// The places of a key among sorted keys: the first, and the one after the last.
fn span_of<K: Ord>(keys: &[K], key: &K) -> (usize, usize)
    requires { IsSorted K.cmp keys.now }
    ensures span { IsSpan K.cmp key.now keys.now result.0 result.1 }
    ensures ordered { result.0 ≤ result.1 }
    ensures within { result.1 ≤ length keys.now }
{
    let from = keys.partition_point(|k| k.cmp(key).is_lt());
    let to = keys.partition_point(|k| k.cmp(key).is_le());
    (from, to)
}

// The keys of pairs.
fn keys_of<K: Copy, V>(alloc: Global, pairs: &[(K, V)]) -> Result<Vec<K>, AllocError>
    ensures { IfOk result (λ keys. keys.items ≡ map (λ (p : K × V). p.0) pairs.now) }
{
    pairs.iter().map(|pair| pair.0).collect(alloc)
}

// The values of pairs.
fn values_of<K, V: Copy>(alloc: Global, pairs: &[(K, V)]) -> Result<Vec<V>, AllocError>
    ensures { IfOk result (λ values. values.items ≡ map (λ (p : K × V). p.1) pairs.now) }
{
    pairs.iter().map(|pair| pair.1).collect(alloc)
}
