use super::*;
use cell_make::make_cell;
use cell_write::write_cell;
use enc_outside::{MemShelf, MemSink};
use s57_types::CellFault;
use std::test::Fail;

mod pictures;

use pictures::{DIAGONAL_RECORDS, DIAGONALS, HOLE, HOLE_RECORDS, SQUARE, empty_picture};

/// How many bytes of a generated file stand before its first node: a file of these alone is one of no record.
const HEAD_LENGTH: usize = 1785;

/// How many of them stand before the name of the data set, which is `MAKE.000`.
const NAME_START: usize = 1637;

fn words_of(alloc: Global, words: &[&str]) -> Result<Vec<String>, Fail> {
    let mut list = Vec::new(alloc);
    for word in words {
        list.push(String::from_str(alloc, word)?)?;
    }
    Ok(list)
}

/// What a call with these words ends with and puts, where the file `CELL` has the bytes.
fn drawn(rt: &HostRuntime, bytes: &[u8], words: &[&str]) -> Result<(Ending, Vec<u8>), Fail> {
    let alloc = rt.alloc();
    let mut shelf = MemShelf::make(alloc);
    shelf.place("CELL", bytes)?;
    let mut out = MemSink::make(alloc);
    let ending = draw(alloc, &words_of(alloc, words)?, &mut shelf, &mut out);
    Ok((ending, out.bytes().to_vec(alloc)?))
}

/// The file of one generated square.
fn square(alloc: Global) -> Result<Vec<u8>, Fail> {
    Ok(write_cell(alloc, &make_cell(alloc, 1)?)?)
}

/// The bytes of a generated file before its first node.
fn head(alloc: Global) -> Result<Vec<u8>, Fail> {
    let mut file = square(alloc)?;
    file.truncate(HEAD_LENGTH);
    Ok(file)
}

/// The file of these records.
fn file_of(alloc: Global, records: &[&[u8]]) -> Result<Vec<u8>, Fail> {
    let mut file = head(alloc)?;
    for record in records {
        file.extend_from_slice(record)?;
    }
    Ok(file)
}

/// The file of so many connected nodes at the origin, all records of which have the same length: leader, directory, record and name, position.
fn heap(alloc: Global, count: u8) -> Result<Vec<u8>, Fail> {
    let mut file = head(alloc)?;
    for id in 1..=count {
        file.extend_from_slice(b"00067 D     00046   12040001300VRID903SG2D912\x1e")?;
        file.extend_from_slice(&[id, 0, 0x1e, 120, id, 0, 0, 0, 1, 0, 1, 0x1e])?;
        file.extend_from_slice(&[0, 0, 0, 0, 0, 0, 0, 0, 0x1e])?;
    }
    Ok(file)
}

/// How many lines of a picture begin and end so.
fn count_lines(picture: &[u8], beginning: &str, end: &str) -> Result<usize, Fail> {
    let text = str::from_utf8(picture).or(Err("the picture is no text"))?;
    Ok(
        text.lines()
            .filter(|line| line.starts_with(beginning) && line.ends_with(end))
            .count(),
    )
}

/// The text of parts.
fn joined(alloc: Global, parts: &[&str]) -> Result<Vec<u8>, Fail> {
    let mut text = Vec::new(alloc);
    for part in parts {
        text.extend_from_slice(part.as_bytes())?;
    }
    Ok(text)
}

#[test]
fn the_square_is_drawn(rt: HostRuntime) -> Result<(), Fail> {
    let file = square(rt.alloc())?;
    let (ending, text) = drawn(&rt, &file, &["CELL"])?;
    assert_eq!(rt; ending, Ending::Done);
    assert_eq!(rt; text, joined(rt.alloc(), &SQUARE)?);
    Ok(())
}

#[test]
fn an_empty_cell_is_drawn(rt: HostRuntime) -> Result<(), Fail> {
    let (ending, text) = drawn(&rt, &head(rt.alloc())?, &["CELL"])?;
    assert_eq!(rt; ending, Ending::Done);
    assert_eq!(rt; text, joined(rt.alloc(), &empty_picture("MAKE.000"))?);
    Ok(())
}

/// A file's own texts come out as references by number where they have markup. Of these a picture has the name of the data set alone.
#[test]
fn markup_in_a_name_is_escaped(rt: HostRuntime) -> Result<(), Fail> {
    let plain = head(rt.alloc())?;
    let name = plain.get(NAME_START..NAME_START + 8);
    assert_eq!(rt; name, Some(b"MAKE.000".as_slice()));
    let mut file = plain
        .get(..NAME_START)
        .ok_or("no head")?
        .to_vec(rt.alloc())?;
    file.extend_from_slice(b"<&'\">.00")?;
    file.extend_from_slice(plain.get(NAME_START + 8..).ok_or("no head")?)?;
    let (ending, text) = drawn(&rt, &file, &["CELL"])?;
    assert_eq!(rt; ending, Ending::Done);
    let name = "&#60;&#38;&#39;&#34;&#62;.00";
    assert_eq!(rt; text, joined(rt.alloc(), &empty_picture(name))?);
    Ok(())
}

/// The edges go from corner to corner of the plane and cross in its middle.
#[test]
fn the_longest_diagonals_are_drawn(rt: HostRuntime) -> Result<(), Fail> {
    let file = file_of(rt.alloc(), &DIAGONAL_RECORDS)?;
    let (ending, text) = drawn(&rt, &file, &["CELL"])?;
    assert_eq!(rt; ending, Ending::Done);
    assert_eq!(rt; text, joined(rt.alloc(), &DIAGONALS)?);
    Ok(())
}

/// The hole is a loop of its area's path, which is filled by the rule of even and odd.
#[test]
fn a_hole_is_left_open(rt: HostRuntime) -> Result<(), Fail> {
    let file = file_of(rt.alloc(), &HOLE_RECORDS)?;
    let (ending, text) = drawn(&rt, &file, &["CELL"])?;
    assert_eq!(rt; ending, Ending::Done);
    assert_eq!(rt;
        count_lines(
            &text,
            "<path class='coverage'",
            "<title>rec fe 1</title></path>"
        )?,
        1
    );
    assert_eq!(rt; count_lines(&text, HOLE, "</path>")?, 1);
    assert_eq!(rt;
        count_lines(&text, ".group1,.coverage{fill-rule:evenodd}", "")?,
        1
    );
    Ok(())
}

/// Three rows of three squares have sixteen nodes, twenty-four edges, nine areas of Group 1 and one of coverage.
#[test]
fn each_record_is_drawn_once(rt: HostRuntime) -> Result<(), Fail> {
    let alloc = rt.alloc();
    let file = write_cell(alloc, &make_cell(alloc, 3)?)?;
    let (ending, text) = drawn(&rt, &file, &["CELL"])?;
    assert_eq!(rt; ending, Ending::Done);
    for (class, kind, count) in [("node", "vc", 16), ("edge", "ve", 24)] {
        let beginning = format!(in alloc; "<path class='{class}' d='M ")?;
        let all = count_lines(&text, beginning.as_str(), "</title></path>")?;
        assert_eq!(rt; all, count);
        for id in 1..=count {
            let end = format!(in alloc; "<title>rec {kind} {id}</title></path>")?;
            let found = count_lines(&text, beginning.as_str(), end.as_str())?;
            assert_eq!(rt; found, 1);
        }
    }
    assert_eq!(rt;
        count_lines(&text, "<path class='group1' d='M ", "</path>")?,
        9
    );
    assert_eq!(rt;
        count_lines(&text, "<path class='coverage' d='M ", "</path>")?,
        1
    );
    Ok(())
}

/// Each two of the nodes are in one place: of 32 nodes that is found 32 * 31 / 2 = 496 times, of 33 nodes 33 * 32 / 2 = 528 times.
#[test]
fn over_500_findings_are_dots(rt: HostRuntime) -> Result<(), Fail> {
    for (nodes, marks, spots, rows) in [(32, 496, 0, 496), (33, 0, 528, 528)] {
        let file = heap(rt.alloc(), nodes)?;
        let (ending, text) = drawn(&rt, &file, &["CELL"])?;
        assert_eq!(rt; ending, Ending::Done);
        assert_eq!(rt;
            count_lines(&text, "<g><title>pair vc ", " SamePlace")?,
            marks
        );
        assert_eq!(rt;
            count_lines(&text, "<path class='spot'", " SamePlace")?,
            spots
        );
        assert_eq!(rt;
            count_lines(&text, "<text class='row'", " SamePlace")?,
            rows
        );
    }
    Ok(())
}

#[test]
fn other_calls_draw_nothing(rt: HostRuntime) -> Result<(), Fail> {
    let file = square(rt.alloc())?;
    let (ending, text) = drawn(&rt, &file, &["OTHER"])?;
    assert_eq!(rt; ending, Ending::Absent);
    assert_eq!(rt; text.len(), 0);
    let (ending, text) = drawn(&rt, &file, &["CELL", "CELL"])?;
    assert_eq!(rt; ending, Ending::Usage);
    assert_eq!(rt; text.len(), 0);
    Ok(())
}

/// One byte stands behind the description record and the two of the head: the fourth record is cut short there, which is code 1.
#[test]
fn a_bad_cell_is_told_by_its_first_fault(rt: HostRuntime) -> Result<(), Fail> {
    let mut file = head(rt.alloc())?;
    file.push(b'0')?;
    let (ending, text) = drawn(&rt, &file, &["CELL"])?;
    let fault = CellFault {
        number: 4,
        offset: 1785,
        code: 1,
    };
    assert_eq!(rt; ending, Ending::BadCell(fault));
    assert_eq!(rt; text.len(), 0);
    assert_eq!(rt; ending.number(), 4);
    let mut line = Vec::new(rt.alloc());
    push_ending(&mut line, ending, "CELL")?;
    assert_eq!(rt;
        line.as_slice(),
        b"enc_draw: bad cell record 4 offset 1785 code 1\n".as_slice()
    );
    Ok(())
}

/// The second read, behind 4,096 bytes of the file, and the first put fail.
#[test]
fn failing_devices_are_told(rt: HostRuntime) -> Result<(), Fail> {
    let alloc = rt.alloc();
    let file = write_cell(alloc, &make_cell(alloc, 3)?)?;
    for (read, put, ending) in [(2, 0, Ending::ReadFault), (0, 1, Ending::WriteFault)] {
        let mut shelf = MemShelf::make(alloc);
        shelf.place("CELL", &file)?;
        shelf.fail_at(read);
        let mut out = MemSink::make(alloc);
        out.fail_at(put);
        let words = words_of(alloc, &["CELL"])?;
        assert_eq!(rt; draw(alloc, &words, &mut shelf, &mut out), ending);
        assert_eq!(rt; out.bytes().len(), 0);
    }
    Ok(())
}
