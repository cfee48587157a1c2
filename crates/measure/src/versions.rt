//! The table of which copies share pieces: looked up, and changed while an older version lives.

use crate::held::hold;
use crate::table::{Values, ascending_rows, next_number, random_key, sum_of_gets};
use row_table::is_ascending;
use shared_table::{Shared, SharedTable};
use std::alloc::{AllocError, Global};

/// How many versions a case makes.
const VERSIONS: u32 = 100_000;

/// How many older versions live beside the last, in the cases that hold some.
const HELD: usize = 16;

/// What is done with a table.
#[derive(Clone, Copy)]
pub enum Work {
    /// Filled with rows that ascend already, with numbers as values.
    Ascending,
    /// Filled as `Ascending`, then a million random look-ups.
    Gets,
    /// Filled with rows that ascend already, with shared values.
    Shared,
    /// Filled as `Shared`, then a copy, so many near puts and the drop of the copy, over and over; also with copies held.
    Versions { puts: u32, held: usize },
}

impl Work {
    /// The work of a name within the group.
    pub fn of(name: &str) -> Option<Work> {
        let (puts, held) = match name {
            "ascending" => return Some(Work::Ascending),
            "gets" => return Some(Work::Gets),
            "shared" => return Some(Work::Shared),
            "put" => (1, 0),
            "five_puts" => (5, 0),
            "put_held" => (1, HELD),
            "five_puts_held" => (5, HELD),
            _ => return None,
        };
        Some(Work::Versions { puts, held })
    }
}

impl Values for SharedTable<u32, u64> {
    fn value_of(&self, key: u32) -> Option<u64> {
        self.get(&key).copied()
    }
}

fn number_table(alloc: Global, size: u32) -> Result<SharedTable<u32, u64>, AllocError> {
    let rows = ascending_rows(alloc, size)?;
    if !is_ascending(&rows) {
        return Ok(SharedTable::make());
    }
    SharedTable::from_ascending(alloc, rows)
}

/// A table of the same rows, with shared values.
fn shared_values(
    alloc: Global,
    numbers: &SharedTable<u32, u64>,
) -> Result<SharedTable<u32, Shared<u64>>, AllocError> {
    let mut table = SharedTable::make();
    for (key, value) in numbers.rows() {
        table.put(alloc, *key, Shared::make(alloc, *value)?)?;
    }
    Ok(table)
}

fn sum_of_numbers(table: &SharedTable<u32, u64>) -> u64 {
    let mut sum = 0u64;
    for (key, value) in table.rows() {
        sum = sum.wrapping_mul(31).wrapping_add(u64::from(*key) ^ *value);
    }
    sum
}

fn sum_of_values(table: &SharedTable<u32, Shared<u64>>) -> u64 {
    let mut sum = 0u64;
    for (key, value) in table.rows() {
        sum = sum.wrapping_mul(31).wrapping_add(u64::from(*key) ^ **value);
    }
    sum
}

/// Puts the value at so many keys, every other one from a key on.
fn put_near(
    alloc: Global,
    table: &mut SharedTable<u32, Shared<u64>>,
    key: u32,
    puts: u32,
    value: u64,
) -> Result<(), AllocError> {
    for near in 0..puts {
        let key = key.wrapping_add(near.wrapping_mul(2));
        table.put(alloc, key, Shared::make(alloc, value)?)?;
    }
    Ok(())
}

/// Makes versions, each beside the last one, which then takes the place of the oldest that is held, or goes where none is held.
fn make_versions(
    alloc: Global,
    table: &mut SharedTable<u32, Shared<u64>>,
    size: u32,
    puts: u32,
    held: &mut [SharedTable<u32, Shared<u64>>],
) -> Result<(), AllocError> {
    let mut seed = 4;
    for round in 0..VERSIONS {
        seed = next_number(seed);
        let last = table.share()?;
        put_near(alloc, table, random_key(seed, size), puts, u64::from(round))?;
        hold(held, round as usize, last);
    }
    Ok(())
}

fn sum_of_versions(alloc: Global, size: u32, puts: u32, copies: usize) -> Result<u64, AllocError> {
    let mut table = shared_values(alloc, &number_table(alloc, size)?)?;
    let mut held = Vec::new(alloc);
    for _ in 0..copies {
        held.push(table.share()?)?;
    }
    make_versions(alloc, &mut table, size, puts, &mut held)?;
    Ok(sum_of_values(&table))
}

/// What the work answers of a table of so many rows.
pub fn outcome(alloc: Global, work: Work, size: u32) -> Result<u64, AllocError> {
    match work {
        Work::Ascending => Ok(sum_of_numbers(&number_table(alloc, size)?)),
        Work::Gets => Ok(sum_of_gets(&number_table(alloc, size)?, size)),
        Work::Shared => {
            let table = shared_values(alloc, &number_table(alloc, size)?)?;
            Ok(sum_of_values(&table))
        }
        Work::Versions { puts, held } => sum_of_versions(alloc, size, puts, held),
    }
}
