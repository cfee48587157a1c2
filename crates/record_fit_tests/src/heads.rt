//! Which heads can be written, and which of their records.

use crate::texts::{long_text, text};
use cell_make::make_head;
use record_fit::{
    has_plain_texts, head_fits, identification_record_length, is_general_information_short,
    is_geographic_reference_short,
};
use s57_types::{Dsid, Dspm, Dssi, Head, HeadEdit, Level, Text};
use std::alloc::{AllocError, Global};
use std::test::Fail;

/// The head of the generated cell, at the lexical levels 1 and 2 and with this comment in its second record.
pub fn head(alloc: Global, comment: Text) -> Result<Head, AllocError> {
    let mut head = make_head(alloc)?;
    head.aall = 1;
    head.nall = 2;
    head.dspm_comt = comment;
    Ok(head)
}

/// Whether a head with this comment can be written.
fn comment_fits(alloc: Global, comment: Text) -> Result<bool, AllocError> {
    Ok(head_fits(&head(alloc, comment)?))
}

/// Whether a head with these levels and this date of issue can be written.
fn levels_fit(alloc: Global, aall: u8, nall: u8, isdt: [u8; 8]) -> Result<bool, AllocError> {
    let mut head = head(alloc, Text::make(alloc))?;
    head.aall = aall;
    head.nall = nall;
    head.isdt = isdt;
    Ok(head_fits(&head))
}

// 45 bytes of leader and directory, and fields of 3 and 26 bytes beside the comment
#[test]
fn heads_that_can_be_written(rt: HostRuntime) -> Result<(), Fail> {
    let alloc = rt.alloc();
    assert!(rt; comment_fits(alloc, long_text(alloc, 99_925)?)?);
    assert!(rt; !comment_fits(alloc, long_text(alloc, 99_926)?)?);
    assert!(rt; !comment_fits(alloc, text(alloc, b"\x1F")?)?);
    for (aall, nall, isdt, answer) in [
        (1, 2, *b"20240101", true),
        (0, 0, *b"20240101", true),
        (2, 2, *b"20240101", false),
        (0, 3, *b"20240101", false),
        (0, 0, *b"2024010\x1E", false),
    ] {
        assert_eq!(rt; levels_fit(alloc, aall, nall, isdt)?, answer);
    }
    Ok(())
}

/// How long the first record of a head with this edition number is, and whether the head can be written.
fn length_with(alloc: Global, edtn: Text) -> Result<(usize, bool), AllocError> {
    let mut head = head(alloc, Text::make(alloc))?;
    head.edtn = edtn;
    Ok((identification_record_length(&head), head_fits(&head)))
}

// 49 bytes of leader and directory, and fields of 3, 51 and 36 bytes; with long texts 67 bytes, and 73 where a length has six digits
#[test]
fn the_first_head_record_has_its_length(rt: HostRuntime) -> Result<(), Fail> {
    let alloc = rt.alloc();
    assert_eq!(rt; length_with(alloc, text(alloc, b"1")?)?, (139, true));
    for (length, bytes, answer) in [
        (99_843, 99_999, true),
        (99_844, 100_000, false),
        (99_999, 100_161, false),
    ] {
        assert_eq!(rt;
            length_with(alloc, long_text(alloc, length)?)?,
            (bytes, answer)
        );
    }
    Ok(())
}

/// An edit of a head with these texts in the places of its edition and update number and of its comment.
fn edit(alloc: Global, texts: [&[u8]; 3], dates: [[u8; 8]; 2]) -> Result<HeadEdit, AllocError> {
    let [edtn, updn, comt] = texts;
    let [uadt, isdt] = dates;
    Ok(HeadEdit {
        edtn: text(alloc, edtn)?,
        updn: text(alloc, updn)?,
        uadt,
        isdt,
        aall: Level::One,
        comt: text(alloc, comt)?,
    })
}

/// Whether no text of such an edit holds a control byte.
fn is_plain(alloc: Global, texts: [&[u8]; 3], dates: [[u8; 8]; 2]) -> Result<bool, AllocError> {
    Ok(has_plain_texts(&edit(alloc, texts, dates)?))
}

#[test]
fn no_text_of_an_edit_holds_a_control_byte(rt: HostRuntime) -> Result<(), Fail> {
    let alloc = rt.alloc();
    let dates = [*b"20240101", *b"\x1d\x20\0\xff2024"];
    let table: [([&[u8]; 3], bool); 4] = [
        ([b"2", b"", b"\xe4\x1d"], true),
        ([b"2\x1e", b"", b""], false),
        ([b"2", b"\x1f", b""], false),
        ([b"2", b"", b"a\x1eb"], false),
    ];
    for (texts, answer) in table {
        assert_eq!(rt; is_plain(alloc, texts, dates)?, answer);
    }
    let [good, _] = dates;
    for bad in [*b"\x1e0240101", *b"2024010\x1f"] {
        assert!(rt; !is_plain(alloc, [b"2", b"", b""], [bad, good])?);
        assert!(rt; !is_plain(alloc, [b"2", b"", b""], [good, bad])?);
    }
    Ok(())
}

/// The record of general information with this comment and no other long text.
fn general_information(alloc: Global, comt: Text) -> Dsid {
    Dsid {
        rcid: 1,
        expp: 1,
        intu: 5,
        dsnm: Text::make(alloc),
        edtn: Text::make(alloc),
        updn: Text::make(alloc),
        uadt: *b"20240101",
        isdt: *b"20240101",
        sted: *b"03.1",
        prsp: 1,
        psdn: Text::make(alloc),
        pred: Text::make(alloc),
        prof: 1,
        agen: 1,
        comt,
    }
}

// 67 bytes of leader and directory, and fields of 3, 38 and 36 bytes beside the comment
#[test]
fn general_information_has_at_most_99_999_bytes(rt: HostRuntime) -> Result<(), Fail> {
    let alloc = rt.alloc();
    let dssi = Dssi {
        dstr: 2,
        aall: 0,
        nall: 0,
        counts: [0; 8],
    };
    for (length, answer) in [(99_855, true), (99_856, false)] {
        let dsid = general_information(alloc, long_text(alloc, length)?);
        assert_eq!(rt; is_general_information_short(&dsid, dssi), answer);
    }
    Ok(())
}

/// The geographic reference with this comment and the largest numbers: each number has a width of its own, whatever it is.
fn parameters(comt: Text) -> Dspm {
    Dspm {
        rcid: u32::MAX,
        hdat: u8::MAX,
        vdat: u8::MAX,
        sdat: u8::MAX,
        cscl: u32::MAX,
        duni: u8::MAX,
        huni: u8::MAX,
        puni: u8::MAX,
        coun: u8::MAX,
        comf: u32::MAX,
        somf: u32::MAX,
        comt,
    }
}

#[test]
fn geographic_reference_has_at_most_99_999_bytes(rt: HostRuntime) -> Result<(), Fail> {
    let alloc = rt.alloc();
    for (length, answer) in [(99_925, true), (99_926, false)] {
        let dspm = parameters(long_text(alloc, length)?);
        assert_eq!(rt; is_geographic_reference_short(&dspm), answer);
    }
    Ok(())
}
