//! Cells that are drawn, written and read again.

use super::calls::{checked, exported, joined};
use super::draws::draw;
use super::square;
use std::alloc::Global;
use std::test::Fail;

/// The square at lexical levels of attributes and of national attributes.
fn square_at(alloc: Global, aall: u8, nall: u8) -> Result<Vec<u8>, Fail> {
    let mut file = joined(alloc, &square::ROWS)?;
    for (place, level) in [(1682usize, aall), (1683, nall)] {
        if let Some(byte) = file.get_mut(place) {
            *byte = level;
        }
    }
    Ok(file)
}

/// A script that adds a record of each kind with every item, replaces one and deletes one.
fn drawn_script(alloc: Global, state: &mut u32) -> Result<String, Fail> {
    let id = draw(state);
    let (y, x, z) = (draw(state), draw(state), draw(state) % 100);
    let code = draw(state) % 65_536;
    Ok(format!(in alloc;
        "add vi {id} 1 a={code}:T{x}%20%25 d={y},-{x},{z} d=0,0,-2147483648\n\
         add vc 4294967295 65535 a=1: p=-2147483648,2147483647\n\
         add vc 0 {code} p={y},{x}\n\
         add ve {id} {z} a=2:%80%FF e=vc:4294967295:1:2:1:255 e=vc:0:255:255:2:1 p={y},{x} p=-{x},{y}\n\
         add fe {id} 7 2 {z} {code} 1 {id} 9 a=18:1 a=18:x{y} n={code}:A%00B%00 n=300: \
         f={code}:{y}:3:2:master f=65535:4294967295:0:1: s=ve:{id}:1:255:2 s=ve:1:2:255:255\n\
         commit\n\
         set vc 4 {code} p={x},{y}\n\
         del fe 1\n\
         commit\n"
    )?)
}

#[test]
fn fifty_drawn_cells_are_written_and_read(rt: HostRuntime) -> Result<(), Fail> {
    let alloc = rt.alloc();
    let mut state = 1;
    for round in 0..50u8 {
        let file = square_at(alloc, round % 2, round % 3)?;
        let script = drawn_script(alloc, &mut state)?;
        let written = exported(&rt, alloc, &file, b"order 1 1\n", script.as_bytes())?;
        let printed = checked(&rt, alloc, &written)?;
        assert!(rt;
            printed.starts_with(b"cell vi 1 vc 6 ve 5 fe 2\n"),
            "{round}"
        );
        let again = exported(&rt, alloc, &written, b"order\n", b"")?;
        assert!(rt; again == written, "{round}");
    }
    Ok(())
}

#[test]
fn what_a_changed_byte_stands_for_is_written_and_read(rt: HostRuntime) -> Result<(), Fail> {
    let alloc = rt.alloc();
    let mut state = 2;
    let script = drawn_script(alloc, &mut state)?;
    let file = square_at(alloc, 0, 2)?;
    let written = exported(&rt, alloc, &file, b"order 1 1\n", script.as_bytes())?;
    let room = written.len().saturating_sub(1_578);
    let mut cells = 0u32;
    for _ in 0..200 {
        let mut changed = Vec::from_slice(alloc, &written)?;
        let behind = (draw(&mut state) as usize).checked_rem(room).unwrap_or(0);
        let place = behind.wrapping_add(1_578);
        if let Some(byte) = changed.get_mut(place) {
            *byte = (draw(&mut state) % 256) as u8;
        }
        if checked(&rt, alloc, &changed)?.starts_with(b"cell") {
            let first = exported(&rt, alloc, &changed, b"order\n", b"")?;
            let second = exported(&rt, alloc, &first, b"order\n", b"")?;
            assert!(rt; first == second, "{place}");
            cells = cells.saturating_add(1);
        }
    }
    assert!(rt; cells > 20 && cells < 200);
    Ok(())
}
