//! A book that has all the entries that it may have.

ghost use Rattle.std.specs.Prelude.{◌≡◌, ◌<◌};

use super::books::{open_book, prepared_late};
use chain_topo::Steps;
use commit_book::{Book, BookRefusal, Told};
use edit_sets::FormFault;
use look_counter::start_counter;
use std::alloc::{AllocError, Global};
use std::marker::Brand;
use std::process::Abort;
use std::sync::ledger::{Blank, Ledger};
use std::test::Fail;
use std::thread::Threads;

fn need_full(rt: &impl Abort, told: Result<Told, BookRefusal>) {
    match told {
        Ok(_) => panic!(rt; "an entry more"),
        Err(why) => assert_eq!(rt; why, BookRefusal::LogFull),
    }
}

fn fill(rt: &impl Abort, alloc: Global, book: &mut Book) {
    for _ in 0..1_000_000 {
        assert!(rt; book.view(alloc, 1, 0).is_ok());
    }
}

/// A commit isn't entered.
fn check_commit<L: Ledger>(
    rt: &(impl Threads + Abort + Sync),
    alloc: Global,
    book: &mut Book,
    steps: &mut Steps<L>,
) {
    match prepared_late(rt, alloc, book, &[1]) {
        Ok(prepared) => need_full(rt, book.commit(alloc, 1, &prepared, steps)),
        Err(_) => panic!(rt; "there is no memory"),
    }
}

fn check_full<L: Ledger>(
    rt: &(impl Threads + Abort + Sync),
    alloc: Global,
    blank: Blank,
) -> Result<(), AllocError>
    requires name { blank.name ≡ L.name }
    requires parts { blank.parts ≡ L.parts }
    requires some_part { 0 < L.parts }
{
    let mut steps = start_counter::<L>(blank);
    let mut book = open_book(rt, alloc, &mut steps)?;
    fill(rt, alloc, &mut book);
    need_full(rt, book.view(alloc, 1, 0));
    need_full(rt, book.faulty(alloc, 1, FormFault::Empty));
    check_commit(rt, alloc, &mut book, &mut steps);
    assert_eq!(rt; book.entries().len(), 1_000_000);
    Ok(())
}

#[test]
fn a_million_views_fill_a_book(rt: HostRuntime) -> Result<(), Fail> {
    check_full::<Brand>(&rt, rt.alloc(), Blank::new(1))?;
    Ok(())
}
