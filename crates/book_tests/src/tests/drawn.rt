//! Drawn commits of two desks of one workroom, prepared on the newest cell or on an older one. After each that is accepted the findings of the desk's
//! copy are those of its cell, judged whole.

ghost use Rattle.std.specs.Prelude.{◌≡◌, ◌<◌};

use super::edits::{node, node_name};
use super::rooms::{commit, new_desk, open_room, prepared_at, view};
use cell_bench::Bench;
use cell_spec::{Edit, Findings, Subject};
use commit_book::Reply;
use look_counter::start_counter;
use s57_types::{Kind, RecName};
use shared_table::{Shared, SharedTable};
use std::alloc::{AllocError, Global};
use std::marker::Brand;
use std::process::Abort;
use std::sync::Wait;
use std::sync::ledger::{Blank, Ledger};
use std::test::Fail;
use std::thread::Threads;
use workroom::{Desk, Workroom};

/// How many commits are drawn, one after the other.
const ROUNDS: u32 = 400;

/// The next number below a bound.
fn draw(state: &mut u32, bound: u32) -> u32
    requires { 0 < bound }
    ensures { result < bound }
{
    *state = state.wrapping_mul(1_664_525).wrapping_add(1_013_904_223);
    (*state >> 8) % bound
}

/// A place on the cell, at half the side of the square from the next.
fn drawn_position(state: &mut u32) -> (i32, i32) {
    let latitude = 20_000 * draw(state, 3);
    let longitude = 20_000 * draw(state, 3);
    (latitude as i32, longitude as i32)
}

/// An edit of one of six nodes, or the deletion of an edge.
fn drawn_edit(alloc: Global, state: &mut u32) -> Result<Edit, AllocError> {
    let id = 1 + draw(state, 6);
    match draw(state, 20) {
        0 => Ok(Edit::Del(RecName { kind: Kind::Ve, id })),
        1..=5 => Ok(Edit::Del(node_name(id))),
        6..=11 => Ok(Edit::Add(node(alloc, id, drawn_position(state))?)),
        _ => Ok(Edit::Set(node(alloc, id, drawn_position(state))?)),
    }
}

/// A list of one such edit.
fn drawn_edits(alloc: Global, state: &mut u32) -> Result<Vec<Edit>, AllocError> {
    let edit = drawn_edit(alloc, state)?;
    Ok(vec![in alloc; edit]?)
}

/// Checks that two tables have the same findings.
fn check_tables(
    rt: &impl Abort,
    found: &SharedTable<Subject, Shared<Findings>>,
    wanted: &SharedTable<Subject, Shared<Findings>>,
) {
    assert_eq!(rt; found.len(), wanted.len());
    for ((subject, findings), (other, others)) in found.rows().zip(wanted.rows()) {
        assert!(rt; subject == other && findings.as_slice() == others.as_slice());
    }
}

/// Checks that the findings of a bench are those of its cell, judged whole.
fn check_judged<L: Ledger>(rt: &impl Abort, alloc: Global, bench: &Bench, blank: Blank)
    requires name { blank.name ≡ L.name }
    requires parts { blank.parts ≡ L.parts }
    requires some_part { 0 < L.parts }
{
    let mut steps = start_counter::<L>(blank);
    bench.known();
    let Ok(cell) = bench.to_cell(alloc) else {
        panic!(rt; "there is no memory");
    };
    match Bench::load(alloc, cell, &mut steps) {
        Ok(whole) => check_tables(rt, bench.findings(), whole.findings()),
        Err(_) => panic!(rt; "the cell isn't loaded"),
    }
}

/// Whether a commit is accepted, with its number and the findings of the desk's copy.
fn is_accepted(rt: &impl Abort, reply: &Reply, desk: &Desk) -> bool {
    let Reply::Accepted { number, findings } = reply else {
        return false;
    };
    assert_eq!(rt;
        (*number, *findings),
        (desk.base(), desk.bench().finding_count())
    );
    true
}

/// A drawn commit of a desk, which has seen the newest cell each second time. Tells whether it is accepted.
fn take_turn<R: Threads + Wait + Abort + Sync>(
    rt: &R,
    alloc: Global,
    room: &Workroom,
    desk: &mut Desk,
    state: &mut u32,
) -> bool
    requires { desk.old.room ≡ room.now.room }
    ensures { desk.new.room ≡ desk.old.room }
{
    if draw(state, 2) == 0 {
        let _ = view(rt, alloc, room, desk);
    }
    let edits = drawn_edits(alloc, state);
    let prepared = prepared_at(rt, alloc, desk, edits);
    let reply = commit(rt, alloc, room, desk, prepared);
    is_accepted(rt, &reply, desk)
}

/// A turn of a desk, and what it leaves where it is accepted.
fn check_turn<R: Threads + Wait + Abort + Sync>(
    rt: &R,
    alloc: Global,
    room: &Workroom,
    desk: &mut Desk,
    state: &mut u32,
) -> u32
    requires { desk.old.room ≡ room.now.room }
    ensures accepted { result < 2 }
    ensures room { desk.new.room ≡ desk.old.room }
{
    if take_turn(rt, alloc, room, desk, state) {
        check_judged::<Brand>(rt, alloc, desk.bench(), Blank::new(1));
        return 1;
    }
    0
}

/// Commits of two desks in a drawn order. Tells how many are accepted.
fn take_turns<R: Threads + Wait + Abort + Sync>(
    rt: &R,
    alloc: Global,
    room: &Workroom,
    first: &mut Desk,
    second: &mut Desk,
) -> u32
    requires first { first.old.room ≡ room.now.room }
    requires second { second.old.room ≡ room.now.room }
{
    let mut state = 1;
    let mut accepted = 0u32;
    for _ in 0..ROUNDS {
        let more = if draw(&mut state, 2) == 0 {
            check_turn(rt, alloc, room, first, &mut state)
        } else {
            check_turn(rt, alloc, room, second, &mut state)
        };
        accepted = accepted.saturating_add(more);
    }
    accepted
}

#[test]
fn findings_follow_drawn_commits_of_two_desks(rt: HostRuntime) -> Result<(), Fail> {
    let alloc = rt.alloc();
    let mut room = open_room(&rt, alloc);
    let mut first = new_desk(&rt, alloc, &mut room);
    let mut second = new_desk(&rt, alloc, &mut room);
    let accepted = take_turns(&rt, alloc, &room, &mut first, &mut second);
    assert!(rt; accepted > 50 && accepted < ROUNDS);
    Ok(())
}
