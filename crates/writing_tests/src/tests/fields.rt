//! Each field of a record as bytes and as a value.

use super::parts::are_parts;
use s57_fields::*;
use s57_types::{Attrs, End, Ends, Kind, Lnam, Partners, Places, RecName, Spot};
use std::alloc::{AllocError, Global};
use std::test::Fail;

/// The head fields of a cell `MAKE.000`.
const DSID: &[u8] =
    b"\x0a\x01\x00\x00\x00\x01\x05MAKE.000\x1f1\x1f0\x1f202401012024010203.1\x01\x1f2.0\x1f\x01\x01\x00\x1f\x1e";

const DSPM: &[u8] =
    b"\x14\x01\x00\x00\x00\x02\x17\x17\x10\x27\x00\x00\x01\x01\x01\x01\x80\x96\x98\x00\x0a\x00\x00\x00ab\x1f\x1e";

const DSSI: &[u8] =
    b"\x02\x01\x02\x00\x01\x00\x00\x01\x00\x00\x00\x02\x00\x00\x00\x03\x00\x00\x00\x04\x00\x00\x00\x05\x00\x00\x00\x06\x00\x00\x00\x00\x00\x00\x01\x1e";

/// The fields 0001, FRID, FOID and VRID.
const IDENTIFIERS: [&[u8]; 4] = [
    b"\x03\x00\x1e",
    b"\x64\x01\x00\x00\x00\x03\x01\x2a\x00\x01\x00\x01\x1e",
    b"\x01\x00\x02\x01\x00\x00\x03\x00\x1e",
    b"\x78\x01\x00\x00\x00\x01\x00\x01\x1e",
];

/// The fields VRPT, FSPT, SG2D and SG3D.
const ROWS: [&[u8]; 4] = [
    b"\x78\x01\x00\x00\x00\xff\xff\x02\xff\x1e",
    b"\x82\x07\x00\x00\x00\x01\x02\xff\x1e",
    b"\xff\xff\xff\xff\x64\x00\x00\x00\x1e",
    b"\x01\x00\x00\x00\xfe\xff\xff\xff\x00\x00\x00\x80\x1e",
];

fn name(kind: Kind, id: u32) -> RecName {
    RecName { kind, id }
}

fn is_dsid(dsid: &Dsid) -> bool {
    let numbers = [
        dsid.rcid,
        u32::from(dsid.intu),
        u32::from(dsid.prof),
        u32::from(dsid.agen),
    ];
    numbers == [1, 5, 1, 1]
        && dsid.isdt == *b"20240102"
        && dsid.dsnm.as_slice() == b"MAKE.000".as_slice()
}

#[test]
fn dsid_is_read_and_written(rt: HostRuntime) -> Result<(), Fail> {
    let alloc = rt.alloc();
    let dsid = read_dsid(alloc, DSID)?;
    let mut out = Vec::new(alloc);
    write_dsid(alloc, &dsid, &mut out)?;
    assert!(rt; is_dsid(&dsid) && out.as_slice() == DSID);
    Ok(())
}

fn is_dspm(dspm: &Dspm) -> bool {
    dspm.hdat == 2 && [dspm.cscl, dspm.comf, dspm.somf] == [10_000, 10_000_000, 10]
}

#[test]
fn dspm_is_read_and_written(rt: HostRuntime) -> Result<(), Fail> {
    let alloc = rt.alloc();
    let dspm = read_dspm(alloc, DSPM)?;
    let mut out = Vec::new(alloc);
    write_dspm(alloc, &dspm, &mut out)?;
    assert!(rt; is_dspm(&dspm) && out.as_slice() == DSPM);
    Ok(())
}

#[test]
fn dssi_is_read_and_written(rt: HostRuntime) -> Result<(), Fail> {
    let alloc = rt.alloc();
    let dssi = read_dssi(alloc, DSSI)?;
    let is_dssi = [dssi.dstr, dssi.aall, dssi.nall] == [2, 1, 2]
        && dssi.counts == [256, 1, 2, 3, 4, 5, 6, 16_777_216];
    let mut out = Vec::new(alloc);
    write_dssi(alloc, &dssi, &mut out)?;
    assert!(rt; is_dssi && out.as_slice() == DSSI);
    Ok(())
}

/// Appends the identifiers as they are written again. The answer says whether they had the values that are typed out.
fn identifiers_again(alloc: Global, out: &mut Vec<u8>) -> Result<bool, FieldRefusal> {
    let [number, frid, foid, vrid] = IDENTIFIERS;
    let number = read_0001(alloc, number)?;
    let frid = read_frid(alloc, frid)?;
    let foid = read_foid(alloc, foid)?;
    let vrid = read_vrid(alloc, vrid)?;
    write_0001(alloc, &number, out)?;
    write_frid(alloc, &frid, out)?;
    write_foid(alloc, &foid, out)?;
    write_vrid(alloc, &vrid, out)?;
    let area = Frid {
        rcid: 1,
        prim: 3,
        grup: 1,
        objl: 42,
        rver: 1,
        ruin: 1,
    };
    let lnam = Lnam {
        agen: 1,
        fidn: 258,
        fids: 3,
    };
    let node = Vrid {
        name: name(Kind::Vc, 1),
        rver: 1,
        ruin: 1,
    };
    Ok(number == 3 && frid == area && foid == lnam && vrid == node)
}

#[test]
fn identifiers_are_read_and_written(rt: HostRuntime) -> Result<(), Fail> {
    let alloc = rt.alloc();
    let mut out = Vec::new(alloc);
    let are_read = identifiers_again(alloc, &mut out)?;
    assert!(rt; are_read && are_parts(&out, &IDENTIFIERS));
    Ok(())
}

/// Appends the pointers of an edge as they are written again.
fn ends_again(alloc: Global, bytes: &[u8], out: &mut Vec<u8>) -> Result<bool, FieldRefusal> {
    let ends = read_vrpt(alloc, bytes)?;
    write_vrpt(alloc, &ends, out)?;
    let end = End {
        to: name(Kind::Vc, 1),
        ornt: 255,
        usag: 255,
        topi: 2,
        mask: 255,
    };
    Ok(ends.as_slice() == [end].as_slice())
}

/// Appends the pointers of a feature as they are written again.
fn places_again(alloc: Global, bytes: &[u8], out: &mut Vec<u8>) -> Result<bool, FieldRefusal> {
    let places = read_fspt(alloc, bytes)?;
    write_fspt(alloc, &places, out)?;
    let spot = Spot {
        to: name(Kind::Ve, 7),
        ornt: 1,
        usag: 2,
        mask: 255,
    };
    Ok(places.as_slice() == [spot].as_slice())
}

/// Appends coordinates as they are written again.
fn plane_again(alloc: Global, bytes: &[u8], out: &mut Vec<u8>) -> Result<bool, FieldRefusal> {
    let plane = read_sg2d(alloc, bytes)?;
    write_sg2d(alloc, &plane, out)?;
    Ok(plane.as_slice() == [(-1, 100)].as_slice())
}

/// Appends soundings as they are written again.
fn deep_again(alloc: Global, bytes: &[u8], out: &mut Vec<u8>) -> Result<bool, FieldRefusal> {
    let deep = read_sg3d(alloc, bytes)?;
    write_sg3d(alloc, &deep, out)?;
    Ok(deep.as_slice() == [(1, -2, i32::MIN)].as_slice())
}

/// Appends the fields of rows as they are written again.
fn rows_again(alloc: Global, out: &mut Vec<u8>) -> Result<bool, FieldRefusal> {
    let [ends, places, plane, deep] = ROWS;
    let are_pointers = ends_again(alloc, ends, out)? && places_again(alloc, places, out)?;
    Ok(are_pointers && plane_again(alloc, plane, out)? && deep_again(alloc, deep, out)?)
}

#[test]
fn rows_of_numbers_are_read_and_written(rt: HostRuntime) -> Result<(), Fail> {
    let alloc = rt.alloc();
    let mut out = Vec::new(alloc);
    let are_read = rows_again(alloc, &mut out)?;
    assert!(rt; are_read && are_parts(&out, &ROWS));
    Ok(())
}

/// Appends attributes as they are written again, by the fields of a feature and of a vector record.
fn attributes_again(alloc: Global, bytes: &[u8], out: &mut Vec<u8>) -> Result<bool, FieldRefusal> {
    let attrs = read_attf(alloc, bytes)?;
    write_attf(alloc, &attrs, out)?;
    write_attv(alloc, &attrs, out)?;
    let [first, second] = attrs.as_slice() else {
        return Ok(false);
    };
    Ok([first.code, second.code] == [18, 87] && first.value.as_slice() == b"1".as_slice())
}

#[test]
fn attributes_are_read_and_written(rt: HostRuntime) -> Result<(), Fail> {
    let alloc = rt.alloc();
    let bytes: &[u8] = b"\x12\x001\x1f\x57\x00\x1f\x1e";
    let of_vector = read_attv(alloc, bytes)?.len();
    let mut out = Vec::new(alloc);
    let are_read = attributes_again(alloc, bytes, &mut out)?;
    assert!(rt; are_read && of_vector == 2 && are_parts(&out, &[bytes, bytes]));
    Ok(())
}

fn are_partners(partners: &Partners) -> bool {
    let [partner] = partners.as_slice() else {
        return false;
    };
    let to = Lnam {
        agen: 1,
        fidn: 2,
        fids: 3,
    };
    partner.to == to && partner.rind == 2 && partner.comt.as_slice() == b"hi".as_slice()
}

#[test]
fn partners_are_read_and_written(rt: HostRuntime) -> Result<(), Fail> {
    let alloc = rt.alloc();
    let bytes = b"\x01\x00\x02\x00\x00\x00\x03\x00\x02hi\x1f\x1e";
    let partners = read_ffpt(alloc, bytes)?;
    let mut out = Vec::new(alloc);
    write_ffpt(alloc, &partners, &mut out)?;
    assert!(rt; are_partners(&partners) && out.as_slice() == bytes.as_slice());
    Ok(())
}

/// Appends national attributes of two-byte units as they are written again.
fn national_again(alloc: Global, bytes: &[u8], out: &mut Vec<u8>) -> Result<bool, FieldRefusal> {
    let natf = read_natf(alloc, 2, bytes)?;
    write_natf(alloc, 2, &natf, out)?;
    let [attr] = natf.as_slice() else {
        return Ok(false);
    };
    Ok(attr.value.as_slice() == b"A\x00\x1f\x01".as_slice())
}

#[test]
fn national_attributes_end_with_one_byte_or_two(rt: HostRuntime) -> Result<(), Fail> {
    let alloc = rt.alloc();
    let short = b"\x12\x00A\x00\x1f\x01\x1f\x00\x1e";
    let long = b"\x12\x00A\x00\x1f\x01\x1f\x00\x1e\x00";
    for bytes in [short.as_slice(), long] {
        let mut out = Vec::new(alloc);
        let is_read = national_again(alloc, bytes, &mut out)?;
        assert!(rt; is_read && out.as_slice() == long.as_slice());
    }
    Ok(())
}

/// Whether the fields of no row are read as no row.
fn no_row_is_read(alloc: Global) -> Result<bool, FieldRefusal> {
    let is_national_empty = read_natf(alloc, 2, b"\x1e\x00")?.is_empty()
        && read_natf(alloc, 2, b"\x1e")?.is_empty();
    Ok(
        is_national_empty
            && read_attf(alloc, b"\x1e")?.is_empty()
            && read_fspt(alloc, b"\x1e")?.is_empty()
            && read_sg3d(alloc, b"\x1e")?.is_empty(),
    )
}

/// Appends fields of no row.
fn write_no_row(alloc: Global, out: &mut Vec<u8>) -> Result<(), AllocError> {
    let attrs = Attrs::make(alloc);
    write_natf(alloc, 2, &attrs, out)?;
    write_attf(alloc, &attrs, out)?;
    write_ffpt(alloc, &Partners::make(alloc), out)?;
    write_fspt(alloc, &Places::make(alloc), out)?;
    write_vrpt(alloc, &Ends::make(alloc), out)
}

#[test]
fn a_field_of_no_row_is_its_terminator(rt: HostRuntime) -> Result<(), Fail> {
    let alloc = rt.alloc();
    assert!(rt; no_row_is_read(alloc)?);
    let mut out = Vec::new(alloc);
    write_no_row(alloc, &mut out)?;
    assert_eq!(rt; out.as_slice(), b"\x1e\x00\x1e\x1e\x1e\x1e".as_slice());
    Ok(())
}

#[test]
fn a_field_without_a_byte_is_bad(rt: HostRuntime) {
    let answer = read_attf(rt.alloc(), b"");
    assert!(rt; matches!(answer, Err(FieldRefusal::BadField)));
}
