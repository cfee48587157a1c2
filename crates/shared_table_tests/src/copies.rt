//! A copy and a change of one of the two, in tables of many pieces.

use row_table::is_ascending;
use s57_types::Duplicate;
use shared_table::{Shared, SharedTable, tables_cross_threads, values_cross_threads};
use std::alloc::{AllocError, Global};
use std::process::Abort;
use std::test::Fail;

/// The table of the even numbers below twice this size, each with its half.
fn halves(alloc: Global, size: u32) -> Result<SharedTable<u32, u32>, AllocError> {
    let mut table = SharedTable::make();
    for half in 0..size.min(100_000) {
        table.put(alloc, 2 * half, half)?;
    }
    Ok(table)
}

/// Whether the table has just the even numbers below twice this size, in order.
fn are_halves(table: &SharedTable<u32, u32>, size: u32) -> bool {
    let mut count = 0u32;
    for (key, half) in table.rows() {
        if *half != count || *key / 2 != count || *key % 2 != 0 {
            return false;
        }
        count = count.saturating_add(1);
    }
    count == size
}

#[test]
fn a_put_leaves_the_other_copy(rt: HostRuntime) -> Result<(), Fail> {
    let alloc = rt.alloc();
    for size in [0u32, 1, 15, 16, 17, 1_000, 40_000] {
        let table = halves(alloc, size)?;
        let mut copy = table.share()?;
        for key in [1u32, 0, 777, 40_001] {
            copy.put(alloc, key, 7)?;
            assert_eq!(rt; copy.get(&key), Some(&7));
        }
        copy.take(alloc, &2)?;
        assert_eq!(rt; copy.get(&2), None);
        assert!(rt; are_halves(&table, size), "size {size}");
    }
    Ok(())
}

#[test]
fn places_and_rows_from_a_key(rt: HostRuntime) -> Result<(), Fail> {
    let alloc = rt.alloc();
    let mut rows = Vec::new(alloc);
    for key in 0..5_000u32 {
        rows.push((3 * key, key))?;
    }
    assert!(rt; is_ascending(&rows));
    let table = SharedTable::from_ascending(alloc, rows)?;
    for place in [0usize, 15, 16, 4_999] {
        assert!(rt; place < table.len());
        let (key, value) = table.row(place);
        assert_eq!(rt; (*key as usize, *value as usize), (3 * place, place));
    }
    for (from, count) in [(0u32, 5_000usize), (1, 4_999), (9_000, 2_000), (15_000, 0)] {
        assert_eq!(rt; table.rows_from(&from).count(), count, "from {from}");
    }
    assert_eq!(rt; table.rows_from(&9_001).next(), Some(&(9_003, 3_001)));
    Ok(())
}

#[test]
fn shared_values(rt: HostRuntime) -> Result<(), Fail> {
    let alloc = rt.alloc();
    let value = Shared::make(alloc, 5u32)?;
    let mut table = SharedTable::make();
    table.put(alloc, 1u32, value.copy(alloc)?)?;
    tables_cross_threads::<u32, Shared<u32>>();
    values_cross_threads::<u32>();
    let copy = table.share()?;
    table.put(alloc, 2, Shared::make(alloc, 6)?)?;
    assert_eq!(rt; copy.len(), 1);
    assert!(rt; copy.get(&1).is_some_and(|held| **held == *value));
    Ok(())
}
