//! What a caller sees of a table at a number, a tuple and the name of a record as the key.

use s57_types::{Kind, RecName};
use shared_table::SharedTable;
use std::alloc::Global;
use std::process::Abort;
use std::test::Fail;

/// Puts three keys that are given in ascending order, the last one first, and looks at the rows.
fn check_three<K: Ord + Copy + Drop>(
    rt: &impl Abort,
    alloc: Global,
    [low, middle, high]: [K; 3],
) -> Result<(), Fail> {
    let mut table = SharedTable::make();
    table.put(alloc, high, 30u32)?;
    table.put(alloc, low, 10)?;
    table.put(alloc, middle, 20)?;
    table.put(alloc, middle, 21)?;
    assert_eq!(rt; table.len(), 3);
    assert_eq!(rt; table.get(&middle), Some(&21));
    let mut values = Vec::new(alloc);
    for (_, value) in table.rows() {
        values.push(*value)?;
    }
    assert_eq!(rt; values.as_slice(), [10, 21, 30].as_slice());
    table.take(alloc, &low)?;
    table.take(alloc, &low)?;
    assert_eq!(rt; table.len(), 2);
    Ok(())
}

fn name(kind: Kind, id: u32) -> RecName {
    RecName { kind, id }
}

#[test]
fn keys_of_each_kind_stand_in_order(rt: HostRuntime) -> Result<(), Fail> {
    let alloc = rt.alloc();
    check_three(&rt, alloc, [3u32, 4, 70_000])?;
    check_three(&rt, alloc, [(1u8, 9u32), (2, 1), (2, 5)])?;
    let names = [name(Kind::Vi, 9), name(Kind::Fe, 1), name(Kind::Fe, 2)];
    check_three(&rt, alloc, names)
}
