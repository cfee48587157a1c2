//! What a caller sees of a table at a number, a tuple and an enum as the key.

use row_table::{RowTable, is_ascending};
use std::alloc::Global;
use std::process::Abort;
use std::test::Fail;

/// A key whose order is that of its variants, then that of their contents.
#[derive(Clone, Copy, Debug, PartialEq, Eq, PartialOrd, Ord)]
enum Subject {
    Node(u32),
    Edge { from: u32, to: u32 },
}

/// Whether the row at a place has this key and this value.
fn has_row<K: Ord + Drop>(table: &RowTable<K, u32>, place: usize, key: &K, value: u32) -> bool {
    place < table.len()
        && {
            let row = table.row(place);
            row.0 == key && *row.1 == value
        }
}

/// Puts three keys that are given in ascending order, the last one first, and looks at the rows.
fn check_three<K: Ord + Copy + Drop>(
    rt: &impl Abort,
    alloc: Global,
    [low, middle, high]: [K; 3],
) -> Result<(), Fail> {
    let mut table = RowTable::make(alloc);
    table.reserve(3)?;
    assert_eq!(rt; table.put(high, 30), None);
    assert_eq!(rt; table.put(low, 10), None);
    assert_eq!(rt; table.put(middle, 20), None);
    assert_eq!(rt;
        table.put(middle, 21),
        Some(20),
        "a put in place takes no reserved room"
    );
    assert_eq!(rt; table.len(), 3);
    assert!(rt; has_row(&table, 0, &low, 10));
    assert!(rt; has_row(&table, 1, &middle, 21));
    assert!(rt; has_row(&table, 2, &high, 30));
    Ok(())
}

#[test]
fn keys_of_each_kind_stand_in_order(rt: HostRuntime) -> Result<(), Fail> {
    let alloc = rt.alloc();
    check_three(&rt, alloc, [3u32, 4, 70_000])?;
    check_three(&rt, alloc, [(1u8, 9u32), (2, 1), (2, 5)])?;
    let subjects = [
        Subject::Node(9),
        Subject::Edge { from: 1, to: 2 },
        Subject::Edge { from: 1, to: 3 },
    ];
    check_three(&rt, alloc, subjects)
}

#[test]
fn places_and_removals(rt: HostRuntime) -> Result<(), Fail> {
    let mut rows = Vec::new(rt.alloc());
    for (key, name) in [(2u8, 'b'), (4, 'd'), (6, 'f'), (8, 'h')] {
        rows.push((key, name))?;
    }
    assert!(rt; is_ascending(&rows));
    let mut table = RowTable::from_ascending(rt.alloc(), rows)?;
    assert_eq!(rt; table.range(&2, &6), (0, 2), "the end is not in the range");
    assert_eq!(rt; table.range(&3, &7), (1, 3));
    assert_eq!(rt; table.range(&9, &9), (4, 4));
    assert_eq!(rt; table.get(&5), None);
    assert_eq!(rt; table.get(&4), Some(&'d'));
    let copy = table.copy(rt.alloc())?;
    assert_eq!(rt; table.take(&4), Some('d'));
    assert_eq!(rt; table.take(&4), None);
    assert_eq!(rt; table.len(), 3);
    assert_eq!(rt; copy.len(), 4);
    assert_eq!(rt; copy.get(&4), Some(&'d'));
    Ok(())
}
