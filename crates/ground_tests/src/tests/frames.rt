//! Records that are read.

use iso_frame::{Frame, FrameFault, next_record};
use std::alloc::Global;
use std::process::Abort;
use std::test::Fail;

/// A connected node: a record number, an identifier and one position.
const NODE: [u8; 67] = *b"00067 D     00046   12040001300VRID903SG2D912\x1e\
       \x03\x00\x1e\x78\x01\x00\x00\x00\x01\x00\x01\x1e\x00\x00\x00\x00\x00\x00\x00\x00\x1e";

/// The same with wide entries.
const WIDE_NODE: [u8; 88] =
    *b"00088 D     00067   550400010000300000VRID0000900003SG2D0000900012\x1e\
       \x03\x00\x1e\x78\x01\x00\x00\x00\x01\x00\x01\x1e\x00\x00\x00\x00\x00\x00\x00\x00\x1e";

/// The tags and contents of the node's fields.
const NODE_FIELDS: [([u8; 4], &[u8]); 3] = [
    (*b"0001", b"\x03\x00\x1e"),
    (*b"VRID", b"\x78\x01\x00\x00\x00\x01\x00\x01\x1e"),
    (*b"SG2D", b"\x00\x00\x00\x00\x00\x00\x00\x00\x1e"),
];

/// The record at the start of these bytes.
fn record_in(bytes: &[u8]) -> Result<Frame<'_>, Fail> {
    match next_record(bytes, 0, false) {
        Ok(frame) => Ok(frame),
        Err(_) => Err(Fail::from("it is a record")),
    }
}

/// Checks that bytes are a record of these fields.
fn check_fields(rt: &impl Abort, bytes: &[u8], fields: &[([u8; 4], &[u8])]) -> Result<(), Fail> {
    let frame = record_in(bytes)?;
    assert_eq!(rt; frame.length(), bytes.len());
    assert_eq!(rt; frame.count(), fields.len());
    for (k, field) in fields.iter().enumerate() {
        assert_eq!(rt; frame.field(k), *field);
    }
    Ok(())
}

#[test]
fn a_node_has_three_fields(rt: HostRuntime) -> Result<(), Fail> {
    check_fields(&rt, &NODE, &NODE_FIELDS)?;
    check_fields(&rt, &WIDE_NODE, &NODE_FIELDS)
}

/// Appends a digit behind zeros, so many bytes in all.
fn push_padded(text: &mut Vec<u8>, digit: u8, width: u8) -> Result<(), Fail> {
    for _ in 1..width {
        text.push(b'0')?;
    }
    text.push(digit)?;
    Ok(())
}

/// A record of one field of three bytes whose directory has entries of these sizes.
fn record_with_entry_map(
    alloc: Global,
    length_size: u8,
    position_size: u8,
) -> Result<Vec<u8>, Fail> {
    let base = 29 + u32::from(length_size) + u32::from(position_size);
    let text = format!(in alloc;
        "{:05} D     {base:05}   {length_size}{position_size}040001",
        base + 3
    )?;
    let mut record = Vec::from_slice(alloc, text.as_bytes())?;
    push_padded(&mut record, b'3', length_size)?;
    push_padded(&mut record, b'0', position_size)?;
    record.extend_from_slice(b"\x1e\x07\x00\x1e")?;
    Ok(record)
}

/// The field of the records that follow.
const ONE_FIELD: [([u8; 4], &[u8]); 1] = [(*b"0001", b"\x07\x00\x1e")];

#[test]
fn entry_maps_from_one_to_nine(rt: HostRuntime) -> Result<(), Fail> {
    for size in 1..10u8 {
        let record = record_with_entry_map(rt.alloc(), size, 10 - size)?;
        check_fields(&rt, &record, &ONE_FIELD)?;
    }
    Ok(())
}

#[test]
fn fields_may_overlap_and_leave_gaps(rt: HostRuntime) -> Result<(), Fail> {
    let frame = record_in(b"00045 D     00037   1104AAAA31BBBB22\x1eabcdefg\x1e")?;
    assert_eq!(rt; frame.count(), 2);
    let contents = [frame.field(0).1, frame.field(1).1];
    assert_eq!(rt; contents, [b"bcd".as_slice(), b"cd"]);
    Ok(())
}

/// The fault of the record at the start of these bytes.
fn fault_of(bytes: &[u8], first: bool) -> Option<FrameFault> {
    next_record(bytes, 0, first).err()
}

/// Bytes in which no record is, with the fault.
const FAULTS: [(&[u8], FrameFault); 13] = [
    // The identifier of the first record.
    (b"00067 L     00046   1204", FrameFault::BadLeader),
    // No digits: the length, the base address.
    (b"0006x D     00046   1204", FrameFault::BadLeader),
    (b"00067 D     0004x   1204", FrameFault::BadLeader),
    // Sizes of an entry: 0 digits, more than 9, a tag that isn't of four bytes.
    (b"00067 D     00046   0204", FrameFault::BadLeader),
    (b"00067 D     00046   1:04", FrameFault::BadLeader),
    (b"00067 D     00046   1205", FrameFault::BadLeader),
    // A base address inside the leader, and one past the record, of a record that is cut short too.
    (b"00067 D     00024   1204", FrameFault::BadLeader),
    (b"00045 D     00046   1204", FrameFault::BadLeader),
    // The directory: no terminator, no whole entries, no digit, no byte, past the record.
    (
        b"00032 D     00032   11040001107\x1f",
        FrameFault::BadDirectory,
    ),
    (
        b"00033 D     00033   110400011070\x1e",
        FrameFault::BadDirectory,
    ),
    (
        b"00033 D     00032   11040001x0\x1e\x1e\x1e",
        FrameFault::BadDirectory,
    ),
    (
        b"00033 D     00031   1104000100\x1e\x1e\x1e",
        FrameFault::BadDirectory,
    ),
    (
        b"00033 D     00031   1104000121\x1e\x1e\x1e",
        FrameFault::BadDirectory,
    ),
];

#[test]
fn the_first_failing_test_gives_the_fault(rt: HostRuntime) {
    for (bytes, fault) in &FAULTS {
        assert_eq!(rt; fault_of(bytes, false), Some(*fault));
    }
    assert_eq!(rt; fault_of(&NODE, false), None);
    assert_eq!(rt; fault_of(&NODE, true), Some(FrameFault::BadLeader));
}

#[test]
fn a_record_that_is_cut_is_short(rt: HostRuntime) {
    for length in [0, 23, 66] {
        assert_eq!(rt; fault_of(&NODE[..length], false), Some(FrameFault::Short));
    }
}
