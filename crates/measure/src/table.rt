//! The sorted table: filled in ascending order or by random puts, looked up and changed at random keys.

use row_table::{RowTable, is_ascending};
use std::alloc::{AllocError, Global};

/// How many look-ups, or removals each followed by a put, a case makes.
const ROUNDS: u32 = 1_000_000;

/// What is done with a table.
#[derive(Clone, Copy)]
pub enum Work {
    /// Filled with rows that ascend already.
    Ascending,
    /// Filled by puts of random keys.
    Puts,
    /// Filled as `Ascending`, then a million random look-ups.
    Gets,
    /// Filled as `Ascending`, then a million random removals, each followed by a put.
    Changes,
}

impl Work {
    /// The work of a name within the group.
    pub fn of(name: &str) -> Option<Work> {
        match name {
            "ascending" => Some(Work::Ascending),
            "puts" => Some(Work::Puts),
            "gets" => Some(Work::Gets),
            "changes" => Some(Work::Changes),
            _ => None,
        }
    }
}

/// A table of values that are looked up by their keys.
pub trait Values {
    /// The value of a key, if the key is there.
    fn value_of(&self, key: u32) -> Option<u64>;
}

impl Values for RowTable<u32, u64> {
    fn value_of(&self, key: u32) -> Option<u64> {
        self.get(&key).copied()
    }
}

/// The next of a row of numbers that look random and are the same on every machine.
pub fn next_number(seed: u64) -> u64 {
    seed.wrapping_mul(6_364_136_223_846_793_005)
        .wrapping_add(1_442_695_040_888_963_407)
}

/// A key below twice the number of rows: the even ones are there.
pub fn random_key(seed: u64, size: u32) -> u32 {
    let keys = size.saturating_mul(2).saturating_add(2);
    ((seed >> 20) % u64::from(keys)) as u32
}

/// Rows with the even keys from 0, each with its place as its value.
pub fn ascending_rows(alloc: Global, size: u32) -> Result<Vec<(u32, u64)>, AllocError> {
    let mut rows = Vec::with_capacity(alloc, size as usize)?;
    for place in 0..size {
        rows.push((place.wrapping_mul(2), u64::from(place)))?;
    }
    Ok(rows)
}

fn ascending_table(alloc: Global, size: u32) -> Result<RowTable<u32, u64>, AllocError> {
    let rows = ascending_rows(alloc, size)?;
    if !is_ascending(&rows) {
        return Ok(RowTable::make(alloc));
    }
    RowTable::from_ascending(alloc, rows)
}

fn sum_of_rows(table: &RowTable<u32, u64>) -> u64 {
    let mut sum = 0u64;
    for place in 0..table.len() {
        let (key, value) = table.row(place);
        sum = sum.wrapping_mul(31).wrapping_add(u64::from(*key) ^ *value);
    }
    sum
}

fn random_puts(alloc: Global, size: u32) -> Result<RowTable<u32, u64>, AllocError> {
    let mut table = RowTable::make(alloc);
    table.reserve(size as usize)?;
    let mut seed = 1;
    for place in 0..size {
        seed = next_number(seed);
        table.reserve(1)?;
        table.put(random_key(seed, size), u64::from(place));
    }
    Ok(table)
}

/// The sum of the values that random keys have in a table.
pub fn sum_of_gets<T: Values>(table: &T, size: u32) -> u64 {
    let mut sum = 0u64;
    let mut seed = 2;
    for _ in 0..ROUNDS {
        seed = next_number(seed);
        sum = sum.wrapping_add(table.value_of(random_key(seed, size)).unwrap_or(7));
    }
    sum
}

fn sum_of_changes(table: &mut RowTable<u32, u64>, size: u32) -> Result<u64, AllocError> {
    let mut sum = 0u64;
    let mut seed = 3;
    for round in 0..ROUNDS {
        seed = next_number(seed);
        let key = random_key(seed, size);
        sum = sum.wrapping_add(table.take(&key).unwrap_or(7));
        table.reserve(1)?;
        table.put(key, u64::from(round));
    }
    Ok(sum.wrapping_add(sum_of_rows(table)))
}

/// What the work answers of a table of so many rows.
pub fn outcome(alloc: Global, work: Work, size: u32) -> Result<u64, AllocError> {
    match work {
        Work::Ascending => Ok(sum_of_rows(&ascending_table(alloc, size)?)),
        Work::Puts => Ok(sum_of_rows(&random_puts(alloc, size)?)),
        Work::Gets => Ok(sum_of_gets(&ascending_table(alloc, size)?, size)),
        Work::Changes => sum_of_changes(&mut ascending_table(alloc, size)?, size),
    }
}
