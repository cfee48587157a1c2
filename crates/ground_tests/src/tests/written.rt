//! Records that are written.

use frame_write::{LeaderKind, OutField, write_record};
use std::alloc::Global;
use std::test::Fail;

/// The bytes to which the record of fields with these tags and contents was appended.
fn written(
    alloc: Global,
    kind: LeaderKind,
    parts: &[([u8; 4], &[u8])],
    before: &[u8],
) -> Result<Vec<u8>, Fail> {
    let mut fields = Vec::new(alloc);
    for (tag, content) in parts {
        let bytes = Vec::from_slice(alloc, content)?;
        fields.push(OutField { tag: *tag, bytes })?;
    }
    let mut out = Vec::from_slice(alloc, before)?;
    write_record(alloc, kind, fields.as_slice(), &mut out)?;
    Ok(out)
}

/// A connected node: a record number, an identifier and one position.
const NODE: [([u8; 4], &[u8]); 3] = [
    (*b"0001", b"\x03\x00\x1e"),
    (*b"VRID", b"\x78\x01\x00\x00\x00\x01\x00\x01\x1e"),
    (*b"SG2D", b"\x00\x00\x00\x00\x00\x00\x00\x00\x1e"),
];

#[test]
fn a_node_is_appended(rt: HostRuntime) -> Result<(), Fail> {
    let out = written(rt.alloc(), LeaderKind::Dr, &NODE, b"before")?;
    assert_eq!(rt;
        out.as_slice(),
        b"before00067 D     00046   12040001300VRID903SG2D912\x1e\
          \x03\x00\x1e\x78\x01\x00\x00\x00\x01\x00\x01\x1e\x00\x00\x00\x00\x00\x00\x00\x00\x1e"
            .as_slice()
    );
    Ok(())
}

#[test]
fn a_data_descriptive_record_has_its_leader(rt: HostRuntime) -> Result<(), Fail> {
    let parts: [([u8; 4], &[u8]); 1] = [(*b"0000", b"0000;&   \x1f\x1e")];
    let out = written(rt.alloc(), LeaderKind::Ddr, &parts, b"")?;
    assert_eq!(rt;
        out.as_slice(),
        b"000433LE1 0900032 ! 21040000110\x1e0000;&   \x1f\x1e".as_slice()
    );
    Ok(())
}
