//! A session that stays on the opening cell, behind 60 commits of another. Each of these deletes one node, the commit with the number n the node n.

ghost use Rattle.std.specs.Prelude.{◌≡◌, ◌<◌, IfOk};

use super::books::{open_squares, prepared_early, prepared_late};
use super::edits::node_name;
use cell_bench::Bench;
use chain_topo::Steps;
use commit_book::{Book, Reply, StateRefusal, Told};
use look_counter::start_counter;
use s57_types::Duplicate;
use std::alloc::{AllocError, Global};
use std::marker::Brand;
use std::process::Abort;
use std::sync::ledger::{Blank, Ledger};
use std::test::Fail;
use std::thread::Threads;

/// Deletes one node on the newest cell.
fn delete_one<L: Ledger>(
    rt: &(impl Threads + Abort + Sync),
    alloc: Global,
    book: &mut Book,
    node: u32,
    steps: &mut Steps<L>,
) -> Result<Reply, AllocError>
    ensures { IfOk result (λ _. book.new.opening ≡ book.old.opening) }
{
    let prepared = prepared_late(rt, alloc, book, &[node])?;
    match book.commit(alloc, 1, &prepared, steps) {
        Ok(told) => Ok(told.reply),
        Err(_) => panic!(rt; "nothing is entered"),
    }
}

/// Deletes the nodes 1 to 60 one after the other.
fn delete_each<L: Ledger>(
    rt: &(impl Threads + Abort + Sync),
    alloc: Global,
    book: &mut Book,
    steps: &mut Steps<L>,
) -> Result<(), AllocError>
    ensures { IfOk result (λ _. book.new.opening ≡ book.old.opening) }
{
    for node in 1..61 {
        match delete_one(rt, alloc, book, node, steps)? {
            Reply::Accepted { number, .. } => assert_eq!(rt; number, node),
            _ => panic!(rt; "the deletion isn't accepted"),
        }
    }
    Ok(())
}

/// Desk 2 deletes nodes on the opening cell, and meets the commit with a number.
fn meet<L: Ledger>(
    rt: &(impl Threads + Abort + Sync),
    alloc: Global,
    book: &mut Book,
    opening: &Bench,
    nodes: &[u32],
    wanted: u32,
    steps: &mut Steps<L>,
) -> Result<(), AllocError>
    requires { opening.now ≡ book.old.opening }
    ensures { IfOk result (λ _. book.new.opening ≡ book.old.opening) }
{
    let prepared = prepared_early(rt, alloc, book, opening, nodes)?;
    match book.commit(alloc, 2, &prepared, steps) {
        Ok(
            Told {
                reply: Reply::Newer {
                    number,
                    name,
                    desk,
                    ..
                },
                ..
            },
        ) => assert_eq!(rt; (number, name, desk), (wanted, node_name(wanted), 1)),
        _ => panic!(rt; "no newer commit is met"),
    }
    Ok(())
}

/// Nothing speaks against a node that no commit deleted, and a node that is gone is missing on the newest cell.
fn check_others<L: Ledger>(
    rt: &(impl Threads + Abort + Sync),
    alloc: Global,
    book: &mut Book,
    opening: &Bench,
    steps: &mut Steps<L>,
) -> Result<(), AllocError>
    requires { opening.now ≡ book.old.opening }
{
    let prepared = prepared_early(rt, alloc, book, opening, &[70])?;
    match book.commit(alloc, 2, &prepared, steps) {
        Ok(
            Told {
                reply: Reply::Accepted { number, .. },
                ..
            },
        ) => assert_eq!(rt; number, 61),
        _ => panic!(rt; "the deletion isn't accepted"),
    }
    match delete_one(rt, alloc, book, 17, steps)? {
        Reply::Refused(why) => assert_eq!(rt; why, StateRefusal::DelMissing(node_name(17))),
        _ => panic!(rt; "the deletion isn't refused"),
    }
    Ok(())
}

fn check_behind<L: Ledger>(
    rt: &(impl Threads + Abort + Sync),
    alloc: Global,
    blank: Blank,
) -> Result<(), AllocError>
    requires name { blank.name ≡ L.name }
    requires parts { blank.parts ≡ L.parts }
    requires some_part { 0 < L.parts }
{
    let mut steps = start_counter::<L>(blank);
    let mut book = open_squares(rt, alloc, 8, &mut steps)?;
    let opening = book.bench().copy(alloc)?;
    delete_each(rt, alloc, &mut book, &mut steps)?;
    // It meets the first commit above its base that deletes one of its nodes, wherever that stands among the others.
    meet(
        rt,
        alloc,
        &mut book,
        &opening,
        &[60, 17, 40],
        17,
        &mut steps,
    )?;
    meet(rt, alloc, &mut book, &opening, &[60], 60, &mut steps)?;
    meet(rt, alloc, &mut book, &opening, &[80, 33], 33, &mut steps)?;
    meet(rt, alloc, &mut book, &opening, &[1], 1, &mut steps)?;
    check_others(rt, alloc, &mut book, &opening, &mut steps)
}

#[test]
fn a_session_behind_meets_the_first_commit_of_its_names(rt: HostRuntime) -> Result<(), Fail> {
    check_behind::<Brand>(&rt, rt.alloc(), Blank::new(1))?;
    Ok(())
}
