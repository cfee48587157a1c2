//! Sessions of which several are stuck.

use super::calls::{joined, printed};
use super::square;
use enc_outside::{Meet, MemShelf, Stuck};
use std::test::Fail;

/// Gives up before each view and commit of the sessions from a number on.
#[derive(Drop)]
struct GivesUp {
    first: u32,
}

impl Meet for GivesUp {
    ghost sticks = { λ _. Unit {0} };

    fn arrive(&self, desk: u32, serial: u32) -> Result<(), Stuck> {
        if desk < self.first {
            return Ok(());
        }
        Err(Stuck { desk, serial })
    }
}

/// Of several sessions that are stuck the first is told, and nothing is put.
#[test]
fn the_first_of_stuck_sessions_is_told(rt: HostRuntime) -> Result<(), Fail> {
    let alloc = rt.alloc();
    let mut shelf = MemShelf::make(alloc);
    shelf.place("CELL", &joined(alloc, &square::ROWS)?)?;
    shelf.place("S", b"view\ncommit\n")?;
    let call = "room CELL OUT S S S S";
    let all = printed(&rt, alloc, &mut shelf, call, &GivesUp { first: 1 })?;
    assert_eq!(rt;
        all.as_slice(),
        b"enc_cell: stuck desk 1 serial 1\n".as_slice()
    );
    let most = printed(&rt, alloc, &mut shelf, call, &GivesUp { first: 2 })?;
    assert_eq!(rt;
        most.as_slice(),
        b"enc_cell: stuck desk 2 serial 1\n".as_slice()
    );
    let last = printed(&rt, alloc, &mut shelf, call, &GivesUp { first: 4 })?;
    assert_eq!(rt;
        last.as_slice(),
        b"enc_cell: stuck desk 4 serial 1\n".as_slice()
    );
    assert!(rt; shelf.file("OUT").is_none());
    Ok(())
}
