//! Stand-ins in memory for the devices.

use enc_outside::{Failed, Got, Meet, MemShelf, MemSink, NoMeet, Shelf, Sink, SureShelf, SureSink};
use std::alloc::{AllocError, Global};
use std::process::Abort;
use std::test::Fail;

/// Places of a file `abcde`, what reads of three bytes get there one after the other, and what their buffer then holds.
const READS: [(u64, Got, [u8; 3]); 4] = [
    (0, Got::Bytes(3), *b"abc"),
    (3, Got::Bytes(2), *b"dec"),
    (5, Got::End, *b"dec"),
    (u64::MAX, Got::End, *b"dec"),
];

/// Checks what is read of a store whose one file is `abcde`.
fn check_reads(rt: &impl Abort, shelf: &mut MemShelf) {
    let mut into = [0u8; 3];
    for (at, got, bytes) in &READS {
        let found = shelf.read_at("CELL", *at, &mut into);
        assert_eq!(rt; (found, into), (Ok(*got), *bytes), "from {at}");
    }
    assert_eq!(rt; shelf.read_at("OTHER", 0, &mut into), Ok(Got::Absent));
}

/// Checks that a file was found, and its content.
fn check_content(rt: &impl Abort, found: Option<&[u8]>, content: &[u8]) {
    match found {
        Some(found) => assert_eq!(rt; found, content),
        None => panic!(rt; "no file"),
    }
}

/// Checks that a file is begun, appended to and begun again.
fn check_writes(rt: &impl Abort, shelf: &mut MemShelf) -> Result<(), AllocError> {
    let made = shelf.make("OUT");
    shelf.place("OUT", b"x")?;
    let appended = shelf.append("OUT", b"yz");
    check_content(rt, shelf.file("OUT"), b"xyz");
    let made_again = shelf.make("OUT");
    check_content(rt, shelf.file("OUT"), b"");
    assert_eq!(rt; (made, appended, made_again), (Ok(()), Ok(2), Ok(())));
    Ok(())
}

#[test]
fn a_store_keeps_what_was_appended(rt: HostRuntime) -> Result<(), Fail> {
    let mut shelf = MemShelf::make(rt.alloc());
    shelf.place("CELL", b"abcde")?;
    check_reads(&rt, &mut shelf);
    check_writes(&rt, &mut shelf)?;
    check_content(&rt, shelf.file("CELL"), b"abcde");
    assert!(rt; shelf.file("OTHER").is_none());
    Ok(())
}

/// Which of four calls of a store fail: a read, a file begun anew, bytes appended to another, and a read again.
fn which_fail(shelf: &mut MemShelf) -> Result<[bool; 4], AllocError> {
    let mut into = [0u8; 8];
    let first_read = shelf.read_at("CELL", 0, &mut into);
    let made = shelf.make("CELL");
    shelf.place("OUT", b"o")?;
    let appended = shelf.append("OUT", b"ut");
    let second_read = shelf.read_at("CELL", 0, &mut into);
    Ok([
        first_read.is_err(),
        made.is_err(),
        appended.is_err(),
        second_read.is_err(),
    ])
}

/// How many bytes a file has.
fn length_of(shelf: &MemShelf, name: &str) -> Option<usize> {
    Some(shelf.file(name)?.len())
}

/// Which calls fail of a store that is to fail one of them, and the lengths of its two files after them.
fn calls_with_failing(
    alloc: Global,
    failing: u64,
) -> Result<([bool; 4], [Option<usize>; 2]), AllocError> {
    let mut shelf = MemShelf::make(alloc);
    shelf.place("CELL", b"abc")?;
    shelf.fail_at(failing);
    let fail = which_fail(&mut shelf)?;
    Ok((fail, [length_of(&shelf, "CELL"), length_of(&shelf, "OUT")]))
}

/// The numbers of calls that are to fail, which of four calls then do, and the lengths of the two files.
const FAILING: [(u64, [bool; 4], [Option<usize>; 2]); 4] = [
    (1, [true, false, false, false], [Some(0), Some(3)]),
    (2, [false, true, false, false], [Some(3), Some(3)]),
    (3, [false, false, true, false], [Some(0), Some(1)]),
    (4, [false, false, false, true], [Some(0), Some(3)]),
];

#[test]
fn one_call_of_a_store_fails(rt: HostRuntime) -> Result<(), Fail> {
    for (failing, fail, lengths) in &FAILING {
        assert_eq!(rt;
            calls_with_failing(rt.alloc(), *failing)?,
            (*fail, *lengths)
        );
    }
    Ok(())
}

#[test]
fn one_call_of_a_sink_fails(rt: HostRuntime) {
    let mut sink = MemSink::make(rt.alloc());
    sink.fail_at(2);
    let answers = [sink.put(b"ab"), sink.put(b"cd"), sink.put(b"ef")];
    assert_eq!(rt; answers, [Ok(2), Err(Failed), Ok(2)]);
    assert_eq!(rt; sink.bytes(), b"abef".as_slice());
}

#[test]
fn nobody_waits_without_a_rendezvous(rt: HostRuntime) {
    assert_eq!(rt; NoMeet.arrive(1, 1), Ok(()));
}

/// Checks that no call fails of a store whose one file is `abcde`.
fn check_sure_calls(rt: &impl Abort, shelf: &mut SureShelf) {
    let mut into = [0u8; 3];
    let found = shelf.read_at("CELL", 3, &mut into);
    assert_eq!(rt; (found, into), (Ok(Got::Bytes(2)), *b"de\0"));
    assert_eq!(rt; shelf.read_at("NONE", 0, &mut into), Ok(Got::Absent));
    assert_eq!(rt; shelf.make("OUT"), Ok(()));
    assert_eq!(rt; shelf.append("OUT", b"yz"), Ok(2));
    check_content(rt, shelf.file("OUT"), b"yz");
}

#[test]
fn a_sure_store_does_not_fail(rt: HostRuntime) -> Result<(), Fail> {
    let mut inner = MemShelf::make(rt.alloc());
    inner.place("CELL", b"abcde")?;
    inner.fail_at(1);
    check_sure_calls(&rt, &mut SureShelf::make(inner));
    Ok(())
}

#[test]
fn a_sure_sink_does_not_fail(rt: HostRuntime) {
    let mut sink = SureSink::make(rt.alloc());
    let answers = [sink.put(b"one"), sink.put(b"two")];
    assert_eq!(rt; answers, [Ok(3), Ok(3)]);
    assert_eq!(rt; sink.bytes(), b"onetwo".as_slice());
}
