//! Handles that sign in threads.

use gate_turns::signatures_of;
use std::test::Fail;

fn count_of(numbers: &[u32], number: u32) -> usize {
    numbers.iter().filter(|n| **n == number).count()
}

/// Two threads make 100 turns each: the value has 200 entries, 100 of each number.
#[test]
fn gate_two_threads(rt: HostRuntime) -> Result<(), Fail> {
    let signed = signatures_of(&rt, rt.alloc(), 2, 100)?;
    assert!(rt; signed.in_order);
    assert_eq!(rt; signed.numbers.len(), 200);
    for number in 1..3 {
        assert_eq!(rt; count_of(&signed.numbers, number), 100, "of {number}");
    }
    Ok(())
}

/// Eight threads make 1,000 turns each.
#[test]
fn eight_threads_take_a_thousand_turns_each(rt: HostRuntime) -> Result<(), Fail> {
    let signed = signatures_of(&rt, rt.alloc(), 8, 1_000)?;
    assert!(rt; signed.in_order);
    assert_eq!(rt; signed.numbers.len(), 8_000);
    for number in 1..9 {
        assert_eq!(rt; count_of(&signed.numbers, number), 1_000, "of {number}");
    }
    Ok(())
}
