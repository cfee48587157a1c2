//! The read set of two connected nodes or edges.

ghost use Rattle.std.specs.Prelude.{◌≡◌, ◌||◌, Bool, IfOk, IfSome, false};
ghost use Rattle.std.specs.List.{list_any};
ghost use Rattle.s57_types.specs.declared.cell.Cell.{Cell as SpecCell};
ghost use Rattle.s57_types.specs.declared.name.RecName.{RecName as SpecRecName};
ghost use Rattle.cell_spec.specs.declared.key.Key.{Key as SpecKey};
ghost use Rattle.cell_spec.specs.declared.key.Key.TheVariants.{Name};
ghost use Rattle.cell_spec.specs.declared.key.Subject.TheVariants.{Pair as SpecPair};
ghost use Rattle.rule_spec.specs.Reads.{read_set, record_keys};
ghost use Rattle.rule_spec.specs.Records.{is_edge_name};
ghost use Rattle.check_pairs.specs.Parts.{IsPart};

use crate::part::{ChainPart, is_edge};
use cell_spec::{Keys, ascending_keys};
use read_sets::{push_rising, push_vector_keys};
use s57_types::{Items, RecName, Vector};
use std::alloc::{AllocError, Global};

/// Two names, the lesser first.
fn in_order(a: RecName, b: RecName) -> (RecName, RecName)
    ensures { (f : SpecRecName → Bool) → (f result.0 || f result.1) ≡ (f a || f b) }
{
    if b < a { (b, a) } else { (a, b) }
}

/// Two and two names, each two in order, as four in order, and behind them two more.
fn names_in_order(
    a: (RecName, RecName),
    b: (RecName, RecName),
    behind: (RecName, RecName),
) -> [RecName; 6]
    ensures { (f : SpecRecName → Bool) → list_any f result ≡ (((f a.0 || f a.1) || (f b.0 || f b.1)) || (f behind.0 || f behind.1)) }
{
    let (first, low) = in_order(a.0, b.0);
    let (high, last) = in_order(a.1, b.1);
    let (second, third) = in_order(low, high);
    [first, second, third, last, behind.0, behind.1]
}

/// The names with which the keys of a part begin, in order: those that the two ends of an edge name, or a node's own twice.
fn first_names(part: &ChainPart) -> Option<(RecName, RecName)>
    ensures edge { (c : SpecCell) → IsPart c part.now → IfSome result (λ two. (g : SpecKey → Bool)
        → ((g (Name two.0) || g (Name two.1)) || g (Name part.now.name)) ≡ list_any g (record_keys c part.now.name)) }
    ensures node { (c : SpecCell) → IsPart c part.now → is_edge_name part.now.record.now.name ≡ false → IfSome result (λ two. (g : SpecKey → Bool)
        → (g (Name two.0) || g (Name two.1)) ≡ list_any g (record_keys c part.now.name)) }
{
    if !is_edge(part.record) {
        return Some((part.name, part.name));
    }
    match part.record.ends.as_slice() {
        [begins, ends] => Some(in_order(begins.to, ends.to)),
        _ => None,
    }
}

/// The most keys of two connected nodes or edges in a read set: their names, and those of the records that their ends name.
fn key_count(a: &Vector, b: &Vector) -> usize {
    a.ends.len().saturating_add(b.ends.len()).saturating_add(2)
}

/// The read set of nodes or edges of which each edge has two ends, if what the ends name comes before the edges: the names are then nearly in order.
fn few_keys(alloc: Global, a: &ChainPart, b: &ChainPart) -> Result<Option<Keys>, AllocError>
    ensures { (c : SpecCell) → IsPart c a.now → IsPart c b.now
        → IfOk result (λ keys. IfSome keys (λ keys. keys ≡ read_set c (SpecPair a.now.name b.now.name))) }
{
    let (Some(first), Some(second)) = (first_names(a), first_names(b)) else {
        return Ok(None);
    };
    let last = if is_edge(a.record) { a.name } else { b.name };
    let names = names_in_order(first, second, (last, b.name));
    let mut keys = Vec::with_capacity(alloc, key_count(a.record, b.record))?;
    if !push_rising(&mut keys, &names)? {
        return Ok(None);
    }
    Ok(Some(Items::of_vec(keys)))
}

/// The read set of any two connected nodes or edges.
fn sorted_keys(alloc: Global, a: &ChainPart, b: &ChainPart) -> Result<Keys, AllocError>
    ensures { (c : SpecCell) → IsPart c a.now → IsPart c b.now → IfOk result (λ keys. keys ≡ read_set c (SpecPair a.now.name b.now.name)) }
{
    let mut keys = Vec::with_capacity(alloc, key_count(a.record, b.record))?;
    push_vector_keys(&mut keys, a.name, a.record)?;
    push_vector_keys(&mut keys, b.name, b.record)?;
    Ok(ascending_keys(keys))
}

/// The read set of two connected nodes or edges.
pub(crate) fn pair_keys(alloc: Global, a: &ChainPart, b: &ChainPart) -> Result<Keys, AllocError>
    ensures { (c : SpecCell) → IsPart c a.now → IsPart c b.now → IfOk result (λ keys. keys ≡ read_set c (SpecPair a.now.name b.now.name)) }
{
    match few_keys(alloc, a, b)? {
        Some(keys) => Ok(keys),
        None => sorted_keys(alloc, a, b),
    }
}
