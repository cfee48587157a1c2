//! Desks of a workroom at the cell of one square, and what they ask.

ghost use Rattle.std.specs.Prelude.{◌≡◌, ◌<◌, IfSome};
ghost use Rattle.cell_bench.specs.Benches.{IsPlanned};
ghost use Rattle.rule_spec.specs.Affected.{RowsAreExact};

use super::edits::set_for;
use cell_make::make_cell;
use cell_spec::Edit;
use commit_book::{Prepared, Reply};
use look_counter::start_counter;
use std::alloc::{AllocError, Global};
use std::marker::Brand;
use std::process::Abort;
use std::sync::Wait;
use std::sync::ledger::{Blank, Ledger};
use std::thread::Threads;
use workroom::{Desk, Workroom};

fn counted_room<L: Ledger>(rt: &impl Abort, alloc: Global, blank: Blank) -> Workroom
    requires name { blank.name ≡ L.name }
    requires parts { blank.parts ≡ L.parts }
    requires some_part { 0 < L.parts }
{
    let mut steps = start_counter::<L>(blank);
    let Ok(cell) = make_cell(alloc, 1) else {
        panic!(rt; "there is no memory");
    };
    match Workroom::make(alloc, cell, &mut steps) {
        Ok(room) => room,
        Err(_) => panic!(rt; "the cell isn't loaded"),
    }
}

/// A workroom without desks.
pub(crate) fn open_room(rt: &impl Abort, alloc: Global) -> Workroom {
    counted_room::<Brand>(rt, alloc, Blank::new(1))
}

pub(crate) fn new_desk(rt: &impl Abort, alloc: Global, room: &mut Workroom) -> Desk
    ensures desk { result.room ≡ room.old.room }
    ensures room { room.new.room ≡ room.old.room }
{
    match room.desk(alloc) {
        Ok(desk) => desk,
        Err(_) => panic!(rt; "there is no desk"),
    }
}

/// Edits, if there was memory for them, as they are prepared at a desk.
pub(crate) fn prepared_at<R: Threads + Abort + Sync>(
    rt: &R,
    alloc: Global,
    desk: &Desk,
    edits: Result<Vec<Edit>, AllocError>,
) -> Prepared
    ensures base { result.base ≡ desk.now.base }
    ensures level { result.edits.nall ≡ desk.now.cell.head.nall }
    ensures rows { RowsAreExact result.edits.edits desk.now.cell result.rows }
    ensures ahead { IfSome result.ahead (IsPlanned desk.now.cell result.edits.edits) }
{
    let Ok(edits) = edits else {
        panic!(rt; "there is no memory");
    };
    let set = set_for(rt, alloc, desk.bench(), &edits);
    match desk.prepare(rt, alloc, set) {
        Ok(prepared) => prepared,
        Err(_) => panic!(rt; "there is no memory"),
    }
}

/// Commits what was prepared at a desk.
pub(crate) fn commit<R: Wait + Abort>(
    rt: &R,
    alloc: Global,
    room: &Workroom,
    desk: &mut Desk,
    prepared: Prepared,
) -> Reply
    requires room { desk.old.room ≡ room.now.room }
    requires base { prepared.base ≡ desk.old.base }
    requires level { prepared.edits.nall ≡ desk.old.cell.head.nall }
    requires rows { RowsAreExact prepared.edits.edits desk.old.cell prepared.rows }
    requires ahead { IfSome prepared.ahead (IsPlanned desk.old.cell prepared.edits.edits) }
    ensures { desk.new.room ≡ desk.old.room }
{
    match room.commit(rt, alloc, desk, prepared) {
        Ok(reply) => reply,
        Err(_) => panic!(rt; "there is no answer"),
    }
}

/// Lets a desk see the newest cell.
pub(crate) fn view<R: Wait + Abort>(
    rt: &R,
    alloc: Global,
    room: &Workroom,
    desk: &mut Desk,
) -> Reply
    requires { desk.old.room ≡ room.now.room }
    ensures { desk.new.room ≡ desk.old.room }
{
    match room.view(rt, alloc, desk) {
        Ok(reply) => reply,
        Err(_) => panic!(rt; "there is no answer"),
    }
}

/// Checks that a commit was accepted with this number, and that the cell has so many findings after it.
pub(crate) fn check_accepted(rt: &impl Abort, reply: &Reply, wanted: (u32, u32)) {
    match reply {
        Reply::Accepted { number, findings } => assert_eq!(rt; (*number, *findings), wanted),
        _ => panic!(rt; "it isn't accepted"),
    }
}
