//! Which records can be written.

use crate::heads::head;
use crate::texts::{long_text, text};
use record_fit::fits;
use s57_types::{
    Attr, Attrs, Deep, End, Ends, Feature, Kind, Lnam, Partner, Partners, Places, Plane, Rec,
    RecName, Spot, Text, Unfit, Vector,
};
use std::alloc::{AllocError, Global};
use std::test::Fail;

fn name(kind: Kind) -> RecName {
    RecName { kind, id: 7 }
}

fn attribute(alloc: Global, value: Text) -> Result<Attrs, AllocError> {
    let mut attrs = Attrs::make(alloc);
    attrs.push(Attr { code: 300, value })?;
    Ok(attrs)
}

fn vector(alloc: Global, kind: Kind, attrs: Attrs) -> Vector {
    Vector {
        name: name(kind),
        rver: 1,
        attrs,
        ends: Ends::make(alloc),
        plane: Plane::make(alloc),
        deep: Deep::make(alloc),
    }
}

fn feature(alloc: Global, kind: Kind, natf: Attrs) -> Feature {
    Feature {
        name: name(kind),
        prim: 3,
        grup: 1,
        objl: 42,
        rver: 1,
        foid: Lnam {
            agen: 1,
            fidn: 2,
            fids: 3,
        },
        attf: Attrs::make(alloc),
        natf,
        partners: Partners::make(alloc),
        places: Places::make(alloc),
    }
}

/// What is told of a node or an edge with these attributes.
fn node_fits(alloc: Global, kind: Kind, attrs: Attrs, nall: u8) -> Result<(), Unfit> {
    fits(&Rec::V(vector(alloc, kind, attrs)), nall)
}

/// What is told of an area with these national attributes.
fn area_fits(alloc: Global, kind: Kind, natf: Attrs, nall: u8) -> Result<(), Unfit> {
    fits(&Rec::F(feature(alloc, kind, natf)), nall)
}

#[test]
fn records_of_every_kind_fit_under_their_own_names(rt: HostRuntime) {
    let alloc = rt.alloc();
    for kind in [Kind::Vi, Kind::Vc, Kind::Ve] {
        assert_eq!(rt; node_fits(alloc, kind, Attrs::make(alloc), 0), Ok(()));
        let answer = area_fits(alloc, kind, Attrs::make(alloc), 0);
        assert_eq!(rt; answer, Err(Unfit::BadName));
    }
    for kind in [Kind::Fe, Kind::Head] {
        let answer = node_fits(alloc, kind, Attrs::make(alloc), 0);
        assert_eq!(rt; answer, Err(Unfit::BadName));
    }
    assert_eq!(rt; area_fits(alloc, Kind::Fe, Attrs::make(alloc), 0), Ok(()));
    let answer = area_fits(alloc, Kind::Head, Attrs::make(alloc), 0);
    assert_eq!(rt; answer, Err(Unfit::BadName));
}

#[test]
fn a_head_is_no_record_of_a_list(rt: HostRuntime) -> Result<(), Fail> {
    let alloc = rt.alloc();
    let head = head(alloc, Text::make(alloc))?;
    let rec = Rec::of_head(alloc, head)?;
    assert_eq!(rt; fits(&rec, 2), Err(Unfit::BadName));
    Ok(())
}

/// An edge with a pointer to a record of this kind.
fn edge_to(alloc: Global, kind: Kind) -> Result<Rec, AllocError> {
    let end = End {
        to: name(kind),
        ornt: 255,
        usag: 255,
        topi: 1,
        mask: 255,
    };
    let ends = [end].to_vec(alloc)?;
    let mut edge = vector(alloc, Kind::Ve, Attrs::make(alloc));
    edge.ends = Ends::of_vec(ends);
    Ok(Rec::V(edge))
}

/// An area with a pointer to a record of this kind.
fn area_at(alloc: Global, kind: Kind) -> Result<Rec, AllocError> {
    let spot = Spot {
        to: name(kind),
        ornt: 1,
        usag: 1,
        mask: 255,
    };
    let places = [spot].to_vec(alloc)?;
    let mut area = feature(alloc, Kind::Fe, Attrs::make(alloc));
    area.places = Places::of_vec(places);
    Ok(Rec::F(area))
}

/// What is told of an edge with such a pointer.
fn edge_fits(alloc: Global, kind: Kind) -> Result<Result<(), Unfit>, AllocError> {
    Ok(fits(&edge_to(alloc, kind)?, 0))
}

/// What is told of an area with such a pointer.
fn places_fit(alloc: Global, kind: Kind) -> Result<Result<(), Unfit>, AllocError> {
    Ok(fits(&area_at(alloc, kind)?, 0))
}

#[test]
fn a_pointer_names_a_vector_record(rt: HostRuntime) -> Result<(), Fail> {
    let alloc = rt.alloc();
    for (kind, answer) in [
        (Kind::Vc, Ok(())),
        (Kind::Fe, Err(Unfit::BadName)),
        (Kind::Head, Err(Unfit::BadName)),
    ] {
        assert_eq!(rt; edge_fits(alloc, kind)?, answer);
        assert_eq!(rt; places_fit(alloc, kind)?, answer);
    }
    Ok(())
}

/// What is told of an area with this national text.
fn national_fits(alloc: Global, value: &[u8], nall: u8) -> Result<Result<(), Unfit>, AllocError> {
    let natf = attribute(alloc, text(alloc, value)?)?;
    Ok(area_fits(alloc, Kind::Fe, natf, nall))
}

#[test]
fn national_texts_are_looked_at_by_their_level(rt: HostRuntime) -> Result<(), Fail> {
    let alloc = rt.alloc();
    let bad = Err(Unfit::BadText);
    let table: [(&[u8], Result<(), Unfit>, Result<(), Unfit>); 8] = [
        (b"", Ok(()), Ok(())),
        (b"ab", Ok(()), Ok(())),
        (b"abc", Ok(()), bad),
        (b"a\x1E", bad, Ok(())),
        (b"\x1F\x01\0\x1E", bad, Ok(())),
        (b"a\0\x1F\0", bad, bad),
        (b"a\0\x1E\0", bad, bad),
        (b"a\x1F\0b", bad, Ok(())),
    ];
    for (value, narrow, wide) in table {
        assert_eq!(rt; national_fits(alloc, value, 1)?, narrow, "{value:?}");
        assert_eq!(rt; national_fits(alloc, value, 2)?, wide, "{value:?}");
    }
    Ok(())
}

/// An area with an attribute that isn't national.
fn area_with_attribute(alloc: Global, value: &[u8]) -> Result<Rec, AllocError> {
    let attf = attribute(alloc, text(alloc, value)?)?;
    let mut area = feature(alloc, Kind::Fe, Attrs::make(alloc));
    area.attf = attf;
    Ok(Rec::F(area))
}

/// An area with a comment beside a pointer to itself.
fn area_with_comment(alloc: Global, value: &[u8]) -> Result<Rec, AllocError> {
    let comt = text(alloc, value)?;
    let mut area = feature(alloc, Kind::Fe, Attrs::make(alloc));
    area.partners.push(Partner {
        to: area.foid,
        rind: 2,
        comt,
    })?;
    Ok(Rec::F(area))
}

#[test]
fn other_texts_have_one_byte_a_character_at_every_level(rt: HostRuntime) -> Result<(), Fail> {
    let alloc = rt.alloc();
    for (value, answer) in [
        (b"\x1D\x20", Ok(())),
        (b"\x1E1", Err(Unfit::BadText)),
        (b"1\x1F", Err(Unfit::BadText)),
    ] {
        let attrs = attribute(alloc, text(alloc, value)?)?;
        assert_eq!(rt; node_fits(alloc, Kind::Vi, attrs, 2), answer);
        assert_eq!(rt; fits(&area_with_attribute(alloc, value)?, 2), answer);
        assert_eq!(rt; fits(&area_with_comment(alloc, value)?, 2), answer);
    }
    Ok(())
}

#[test]
fn names_are_looked_at_before_texts_and_texts_before_length(rt: HostRuntime) -> Result<(), Fail> {
    let alloc = rt.alloc();
    let attrs = attribute(alloc, text(alloc, b"\x1E")?)?;
    assert_eq!(rt; node_fits(alloc, Kind::Fe, attrs, 0), Err(Unfit::BadName));
    let mut long = long_text(alloc, 100_000)?;
    long.push(0x1E)?;
    let attrs = attribute(alloc, long)?;
    assert_eq!(rt; node_fits(alloc, Kind::Vc, attrs, 0), Err(Unfit::BadText));
    Ok(())
}

// 58 bytes of leader and directory, fields of 3 and 9 bytes, and the attribute with 4 bytes beside its text
#[test]
fn a_record_has_at_most_99_999_bytes(rt: HostRuntime) -> Result<(), Fail> {
    let alloc = rt.alloc();
    for (length, answer) in [(99_925, Ok(())), (99_926, Err(Unfit::TooLong))] {
        let attrs = attribute(alloc, long_text(alloc, length)?)?;
        assert_eq!(rt; node_fits(alloc, Kind::Vi, attrs, 0), answer);
    }
    // 69 bytes, fields of 3, 13 and 9 bytes, and the attribute with 6 bytes beside its text
    for (length, answer) in [(99_898, Ok(())), (99_900, Err(Unfit::TooLong))] {
        let natf = attribute(alloc, long_text(alloc, length)?)?;
        assert_eq!(rt; area_fits(alloc, Kind::Fe, natf, 2), answer);
    }
    Ok(())
}
