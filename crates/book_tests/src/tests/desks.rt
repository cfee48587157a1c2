//! Desks of one workroom.

ghost use Rattle.std.specs.Prelude.{◌≡◌, All};

use super::edits::{deletions, node};
use super::rooms::{check_accepted, commit, new_desk, open_room, prepared_at, view};
use cell_make::{area, outer};
use cell_spec::Edit;
use commit_book::{Book, Reply};
use edit_sets::FormFault;
use s57_types::{Attrs, Places, Rec};
use std::alloc::{AllocError, Global};
use std::process::Abort;
use std::sync::Wait;
use std::test::Fail;
use std::thread;
use std::thread::Threads;
use workroom::{Desk, DeskRefusal, Workroom, desks_cross_threads};

#[test]
fn there_are_sixteen_desks(rt: HostRuntime) -> Result<(), Fail> {
    let alloc = rt.alloc();
    let mut room = open_room(&rt, alloc);
    for number in 1..17 {
        assert_eq!(rt; new_desk(&rt, alloc, &mut room).number(), number);
    }
    match room.desk(alloc) {
        Ok(_) => panic!(rt; "a desk more"),
        Err(why) => assert_eq!(rt; why, DeskRefusal::NoDesk),
    }
    Ok(())
}

/// A second depth area on the square, whose edges are 3, 2, 4 and 1 round it.
fn second_area(alloc: Global) -> Result<Rec, AllocError> {
    let places = vec![in alloc; outer(3, 1), outer(2, 1), outer(4, 2), outer(1, 2)]?;
    let attributes = Attrs::make(alloc);
    Ok(area(alloc, 3, 1, 42, attributes, Places::of_vec(places)))
}

/// The edit that moves the first node.
fn moved_node(alloc: Global) -> Result<Vec<Edit>, AllocError> {
    let edit = Edit::Set(node(alloc, 1, (1, 1))?);
    Ok(vec![in alloc; edit]?)
}

/// The edit that adds the second area.
fn added_area(alloc: Global) -> Result<Vec<Edit>, AllocError> {
    let edit = Edit::Add(second_area(alloc)?);
    Ok(vec![in alloc; edit]?)
}

/// The first desk prepares before the second commits, and commits after that.
fn commit_in_turn<R: Threads + Wait + Abort + Sync>(
    rt: &R,
    alloc: Global,
    room: &Workroom,
    first: &mut Desk,
    second: &mut Desk,
)
    requires first { first.old.room ≡ room.now.room }
    requires second { second.old.room ≡ room.now.room }
    ensures first { first.new.room ≡ first.old.room }
    ensures second { second.new.room ≡ second.old.room }
{
    let early = prepared_at(rt, alloc, first, moved_node(alloc));
    let late = prepared_at(rt, alloc, second, added_area(alloc));
    check_accepted(rt, &commit(rt, alloc, room, second, late), (1, 8));
    check_accepted(rt, &commit(rt, alloc, room, first, early), (2, 8));
}

/// A desk's base, and the number of findings of its copy of the cell, before and after a view.
fn check_view<R: Wait + Abort>(
    rt: &R,
    alloc: Global,
    room: &Workroom,
    desk: &mut Desk,
    wanted: [(u32, u32); 2],
)
    requires { desk.old.room ≡ room.now.room }
    ensures { desk.new.room ≡ desk.old.room }
{
    assert_eq!(rt; (desk.base(), desk.bench().finding_count()), wanted[0]);
    let _ = view(rt, alloc, room, desk);
    assert_eq!(rt; (desk.base(), desk.bench().finding_count()), wanted[1]);
}

/// A desk is told the fault of its draft.
fn check_fault<R: Wait + Abort>(rt: &R, alloc: Global, room: &Workroom, desk: &mut Desk)
    requires { desk.old.room ≡ room.now.room }
    ensures { desk.new.room ≡ desk.old.room }
{
    let answer = room.faulty(rt, alloc, desk, FormFault::Empty);
    assert!(rt; matches!(&answer, Ok(Reply::Formed(FormFault::Empty))));
}

/// Checks the desks of a log's entries.
fn check_log(rt: &impl Abort, book: &Book, wanted: &[u32]) {
    assert!(rt;
        book.entries()
            .iter()
            .map(|entry| entry.desk)
            .eq(wanted.iter().copied())
    );
}

/// A commit that was prepared before another desk's is accepted after it, with the findings of both.
#[test]
fn one_prepares_while_another_commits(rt: HostRuntime) -> Result<(), Fail> {
    let alloc = rt.alloc();
    let mut room = open_room(&rt, alloc);
    let mut first = new_desk(&rt, alloc, &mut room);
    let mut second = new_desk(&rt, alloc, &mut room);
    commit_in_turn(&rt, alloc, &room, &mut first, &mut second);
    check_view(&rt, alloc, &room, &mut second, [(1, 8), (2, 8)]);
    check_fault(&rt, alloc, &room, &mut second);
    room.merge(&mut first, second);
    check_log(&rt, &room.close(&rt, first), &[2, 1, 2, 2]);
    Ok(())
}

/// A desk, and the connected node that is deleted at it.
#[derive(Drop)]
struct Worker {
    desk: Desk,
    node: u32,
}

fn delete_node<R: Threads + Wait + Abort + Sync>(
    rt: &R,
    alloc: Global,
    room: &Workroom,
    worker: &mut Worker,
)
    requires { worker.old.desk.room ≡ room.now.room }
    ensures { worker.new.desk.room ≡ room.now.room }
{
    let edits = deletions(alloc, &[worker.node]);
    let prepared = prepared_at(rt, alloc, &worker.desk, edits);
    let _ = commit(rt, alloc, room, &mut worker.desk, prepared);
}

/// Deletes a connected node at each desk, each in a thread.
fn delete_in_threads<R: Threads + Wait + Abort + Sync>(
    rt: &R,
    alloc: Global,
    room: &Workroom,
    workers: &mut [Worker],
)
    requires { All (λ worker. worker.desk.room ≡ room.now.room) workers.old }
    ensures { All (λ worker. worker.desk.room ≡ room.now.room) workers.new }
{
    thread::for_each_mut(
        rt,
        workers,
        2,
        &|_, worker: &mut Worker|
            requires { worker.old.desk.room ≡ room.now.room }
            ensures { worker.new.desk.room ≡ room.entry.now.room }
        { delete_node(rt, alloc, room, worker) },
    );
}

/// The last of some desks at a room.
fn last_desk(rt: &impl Abort, room: &Workroom, workers: &mut Vec<Worker>) -> Desk
    requires { All (λ worker. worker.desk.room ≡ room.now.room) workers.old.items }
    ensures rest { All (λ worker. worker.desk.room ≡ room.now.room) workers.new.items }
    ensures desk { result.room ≡ room.now.room }
{
    let _ = room;
    match workers.pop() {
        Some(worker) => worker.desk,
        None => panic!(rt; "there is no desk"),
    }
}

/// Two desks of a room, each with a node to delete.
fn two_workers(rt: &impl Abort, alloc: Global, room: &mut Workroom) -> Vec<Worker>
    ensures room { room.new.room ≡ room.old.room }
    ensures workers { All (λ worker. worker.desk.room ≡ room.old.room) result.items }
{
    let first = Worker {
        desk: new_desk(rt, alloc, room),
        node: 1,
    };
    let second = Worker {
        desk: new_desk(rt, alloc, room),
        node: 2,
    };
    match vec![in alloc; first, second] {
        Ok(workers) => workers,
        Err(_) => panic!(rt; "there is no memory"),
    }
}

/// Checks that both commits are in a log, in the order of the desks' bases.
fn check_order(rt: &impl Abort, book: &Book, bases: (u32, u32)) {
    match bases {
        (1, 2) => check_log(rt, book, &[1, 2]),
        (2, 1) => check_log(rt, book, &[2, 1]),
        _ => panic!(rt; "not both are accepted"),
    }
}

/// Two desks in threads delete two nodes: both commits are accepted, one after the other.
#[test]
fn both_threads_are_accepted(rt: HostRuntime) -> Result<(), Fail> {
    let alloc = rt.alloc();
    desks_cross_threads();
    let mut room = open_room(&rt, alloc);
    let mut workers = two_workers(&rt, alloc, &mut room);
    delete_in_threads(&rt, alloc, &room, workers.as_mut_slice());
    let second = last_desk(&rt, &room, &mut workers);
    let mut first = last_desk(&rt, &room, &mut workers);
    let bases = (first.base(), second.base());
    room.merge(&mut first, second);
    check_order(&rt, &room.close(&rt, first), bases);
    Ok(())
}
