//! The text of what is told of the areas round a point.

ghost use Rattle.std.specs.Prelude.{◌≡◌, ◌++◌, ◌∷◌, [], OnErr, OnOk, decimal};
ghost use Rattle.std.specs.Fmt.{signed_decimal};
ghost use Rattle.std.specs.List.{flat_map};
ghost use Rattle.text_spec.specs.Lines.{line, spaced};
ghost use Rattle.skin_probe.specs.ProbeText.{point_line, probe_text, sums_line, wind_line};

use crate::sheet::ProbeSheet;
use geo_exact::Point;
use itoa::Buffer;
use std::alloc::{AllocError, Global};
use text_lines::{push_bytes, push_number, push_numbered, push_text, push_word};

/// Appends a signed number behind a space.
fn push_signed(out: &mut Vec<u8>, number: i64) -> Result<(), AllocError>
    ensures { OnOk result (out.new.items ≡ out.old.items ++ spaced (signed_decimal number)) }
{
    let mut buffer = Buffer::new();
    push_word(out, buffer.format(number))
}

/// Appends a coordinate behind a space.
fn push_coordinate(out: &mut Vec<u8>, number: i32) -> Result<(), AllocError>
    ensures { OnOk result (out.new.items ≡ out.old.items ++ spaced (signed_decimal number)) }
{
    let mut buffer = Buffer::new();
    push_word(out, buffer.format(number))
}

/// Appends the line of the point.
fn push_point(out: &mut Vec<u8>, at: Point) -> Result<(), AllocError>
    ensures { OnOk result (out.new.items ≡ out.old.items ++ point_line at) }
{
    push_text(out, "probe")?;
    push_coordinate(out, at.0)?;
    push_coordinate(out, at.1)?;
    push_text(out, "\n")
}

/// Appends the line of an area.
fn push_wind(out: &mut Vec<u8>, sort: &str, wind: (u32, i64)) -> Result<(), AllocError>
    ensures { OnOk result (out.new.items ≡ out.old.items ++ wind_line sort.now wind) }
{
    push_text(out, sort)?;
    push_numbered(out, "fe", wind.0)?;
    push_word(out, "wind")?;
    push_signed(out, wind.1)?;
    push_text(out, "\n")
}

/// Appends the lines of areas.
fn push_winds(out: &mut Vec<u8>, sort: &str, winds: &[(u32, i64)]) -> Result<(), AllocError>
    ensures { OnOk result (out.new.items ≡ out.old.items ++ flat_map (wind_line sort.now) winds.now) }
{
    for wind in winds {
        push_wind(out, sort, *wind)?;
    }
    Ok(())
}

/// Appends the line of the sums.
fn push_sums(out: &mut Vec<u8>, sums: (i64, i64)) -> Result<(), AllocError>
    ensures { OnOk result (out.new.items ≡ out.old.items ++ sums_line sums) }
{
    push_text(out, "sums")?;
    push_signed(out, sums.0)?;
    push_signed(out, sums.1)?;
    push_text(out, "\n")
}

/// Appends a line of a word and a number.
fn push_count(out: &mut Vec<u8>, word: &str, count: u32) -> Result<(), AllocError>
    ensures { OnOk result (out.new.items ≡ out.old.items ++ line word.now (decimal count ∷ [])) }
{
    push_text(out, word)?;
    push_number(out, count)?;
    push_text(out, "\n")
}

/// Appends the text of what is told, after an `Err` perhaps a beginning of it.
fn push_lines(out: &mut Vec<u8>, at: Point, sheet: &ProbeSheet) -> Result<(), AllocError>
    ensures { OnOk result (out.new.items ≡ out.old.items ++ probe_text at sheet.now) }
{
    push_point(out, at)?;
    push_winds(out, "group1", sheet.group1.as_slice())?;
    push_winds(out, "coverage", sheet.cover.as_slice())?;
    push_sums(out, sheet.sums)?;
    push_count(out, "unbalanced", sheet.unbalanced)?;
    push_text(out, "end\n")?;
    Ok(())
}

/// Appends what is told of the areas round a point, latitude first: the point, a line for each area that goes round it, the sums, and how
/// many sides are unbalanced.
///
/// An `Err` means out of memory, and leaves the text as it was.
pub fn push_sheet(
    alloc: Global,
    at: Point,
    sheet: &ProbeSheet,
    out: &mut Vec<u8>,
) -> Result<(), AllocError>
    ensures ok { OnOk result (out.new.items ≡ out.old.items ++ probe_text at sheet.now) }
    ensures err { OnErr result (out.new.items ≡ out.old.items) }
{
    let mut lines = Vec::new(alloc);
    push_lines(&mut lines, at, sheet)?;
    push_bytes(out, &lines)
}
