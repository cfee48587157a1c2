//! Sessions in threads, held by a rendezvous and let run.

use super::calls::{joined, printed};
use super::square;
use enc_outside::{Meet, MemShelf, NoMeet, Stuck};
use std::alloc::Global;
use std::sync::Wait;
use std::sync::atomic::{AtomicU64, Ordering};
use std::test::Fail;
use std::thread;
use std::thread::Threads;

/// Holds one session before its first view until another has come to its second.
#[derive(Drop)]
struct Held {
    desk: u32,
    other: u32,
    /// How often it looks for the other one before it gives up.
    looks: u32,
    has_come: AtomicU64,
}

impl Held {
    fn new(desk: u32, other: u32, looks: u32) -> Held {
        Held {
            desk,
            other,
            looks,
            has_come: AtomicU64::new(0),
        }
    }
}

impl Meet for Held {
    ghost sticks = { λ _. Unit {0} };

    fn arrive(&self, desk: u32, serial: u32) -> Result<(), Stuck> {
        if desk == self.other && serial == 2 {
            self.has_come.store(1, Ordering::SeqCst);
        }
        if desk != self.desk || serial != 1 {
            return Ok(());
        }
        for _ in 0..self.looks {
            if self.has_come.load(Ordering::SeqCst) == 1 {
                return Ok(());
            }
            thread::yield_now();
        }
        Err(Stuck { desk, serial })
    }
}

/// A store with the square as the file CELL.
fn square_store(alloc: Global) -> Result<MemShelf, Fail> {
    let mut shelf = MemShelf::make(alloc);
    shelf.place("CELL", &joined(alloc, &square::ROWS)?)?;
    Ok(shelf)
}

/// What a room of two sessions of two views each prints, where one is held.
fn printed_by_two<R: Threads + Wait + Sync>(
    rt: &R,
    alloc: Global,
    meet: &Held,
) -> Result<Vec<u8>, Fail> {
    let mut shelf = square_store(alloc)?;
    shelf.place("S1", b"view\nview\n")?;
    shelf.place("S2", b"view\nview\n")?;
    printed(rt, alloc, &mut shelf, "room CELL OUT S1 S2", meet)
}

/// Each of two sessions in turn waits before its first view until the other comes to its second one. A body that runs the sessions on one thread is
/// stuck in one of the two.
#[test]
fn two_desks_meet(rt: HostRuntime) -> Result<(), Fail> {
    let alloc = rt.alloc();
    assert!(rt; printed_by_two(&rt, alloc, &Held::new(1, 2, 20_000_000))?.starts_with(b"order 2 "));
    assert!(rt; printed_by_two(&rt, alloc, &Held::new(2, 1, 20_000_000))?.starts_with(b"order 1 "));
    Ok(())
}

/// A session that waits for one that never comes is stuck, and nothing is put.
#[test]
fn a_session_is_stuck(rt: HostRuntime) -> Result<(), Fail> {
    let alloc = rt.alloc();
    let text = printed_by_two(&rt, alloc, &Held::new(1, 3, 100))?;
    assert_eq!(rt;
        text.as_slice(),
        b"enc_cell: stuck desk 1 serial 1\n".as_slice()
    );
    Ok(())
}

/// The sessions' scripts, each of which moves the same node and commits.
fn place_movers(alloc: Global, shelf: &mut MemShelf) -> Result<(), Fail> {
    for number in 1..17u32 {
        let name = format!(in alloc; "S{number}")?;
        let script = format!(in alloc; "set vc 1 2 p={number},{number}\ncommit\n")?;
        shelf.place(name.as_str(), script.as_bytes())?;
    }
    Ok(())
}

/// How many lines of a text begin so.
fn count_lines(text: &str, beginning: &str) -> usize {
    text.lines()
        .filter(|line| line.starts_with(beginning))
        .count()
}

/// One of sixteen sessions that move one node is accepted, and the others are shown its commit. In the order that is printed `replay` gives the same
/// report and the same file.
#[test]
fn sixteen_sessions_one_wins(rt: HostRuntime) -> Result<(), Fail> {
    let alloc = rt.alloc();
    let mut shelf = square_store(alloc)?;
    place_movers(alloc, &mut shelf)?;
    let names = "S1 S2 S3 S4 S5 S6 S7 S8 S9 S10 S11 S12 S13 S14 S15 S16";
    let room = format!(in alloc; "room CELL OUT {names}")?;
    let report = printed(&rt, alloc, &mut shelf, room.as_str(), &NoMeet)?;
    let text = str::from_utf8(&report).or(Err("the report is no text"))?;
    assert_eq!(rt; count_lines(text, "commit accepted 1 findings 0"), 1);
    assert_eq!(rt; count_lines(text, "commit refused newer 1 vc 1 desk "), 15);
    let order = format!(in alloc; "{}\n", text.lines().next().unwrap_or(""))?;
    shelf.place("ORDER", order.as_bytes())?;
    let replay = format!(in alloc; "replay CELL AGAIN ORDER {names}")?;
    let again = printed(&rt, alloc, &mut shelf, replay.as_str(), &NoMeet)?;
    assert!(rt; again == report);
    let file = shelf.file("OUT").ok_or("no file was made")?;
    let other = shelf.file("AGAIN").ok_or("no file was made")?;
    assert!(rt; file == other);
    Ok(())
}
