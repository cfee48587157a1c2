//! The items of a record's line.

ghost use Rattle.std.specs.Prelude.{◌≡◌, ◌++◌, ◌∷◌, [], ◌<◌, decimal, map, OnOk};
ghost use Rattle.std.specs.Fmt.{signed_decimal};
ghost use Rattle.s57_types.specs.Heads.{level_number};
ghost use Rattle.text_spec.specs.CellText.{kind_word};
ghost use Rattle.text_spec.specs.EditLine.{attribute_item, deep_item, end_item, hexadecimal, item, partner_item, place_item, plane_item};
ghost use Rattle.text_spec.specs.EditLine.{stands_for_itself as spec_stands_for_itself, text_byte, text_word};
ghost use Rattle.text_spec.specs.Lines.{spaced, spaced_words};

use crate::words::{push_text, push_word, word_of_kind};
use itoa::Buffer;
use s57_types::{Attr, End, Level, Partner, RecName, Spot};
use std::alloc::AllocError;

/// The upper-case hexadecimal digit of a number below 16.
fn hexadecimal_digit(digit: u8) -> u8
    requires { digit < 16 }
    ensures { result ≡ hexadecimal digit }
{
    if digit < 10 {
        b'0' + digit
    } else {
        b'A' - 10 + digit
    }
}

/// Whether a byte stands for itself in a text.
fn stands_for_itself(byte: u8) -> bool
    ensures { result ≡ spec_stands_for_itself byte }
{
    33 <= byte && byte <= 126 && byte != b'%'
}

/// Appends a byte of a text.
fn push_text_byte(out: &mut Vec<u8>, byte: u8) -> Result<(), AllocError>
    ensures { OnOk result (out.new.items ≡ out.old.items ++ text_byte byte) }
{
    if stands_for_itself(byte) {
        out.push(byte)?;
        return Ok(());
    }
    out.push(b'%')?;
    out.push(hexadecimal_digit(byte / 16))?;
    out.push(hexadecimal_digit(byte % 16))?;
    Ok(())
}

/// Appends a text as a part of a word.
fn push_text_word(out: &mut Vec<u8>, text: &[u8]) -> Result<(), AllocError>
    ensures { OnOk result (out.new.items ≡ out.old.items ++ text_word text.now) }
{
    for byte in text {
        push_text_byte(out, *byte)?;
    }
    Ok(())
}

/// Appends a number as it is.
fn push_plain(out: &mut Vec<u8>, number: u32) -> Result<(), AllocError>
    ensures { OnOk result (out.new.items ≡ out.old.items ++ decimal number) }
{
    let mut buffer = Buffer::new();
    push_text(out, buffer.format(number))
}

/// Appends a number behind a colon.
fn push_part(out: &mut Vec<u8>, number: u32) -> Result<(), AllocError>
    ensures { OnOk result (out.new.items ≡ out.old.items ++ (58 ∷ decimal number)) }
{
    out.push(b':')?;
    push_plain(out, number)
}

/// Appends a coordinate.
fn push_coordinate(out: &mut Vec<u8>, number: i32) -> Result<(), AllocError>
    ensures { OnOk result (out.new.items ≡ out.old.items ++ signed_decimal number) }
{
    let mut buffer = Buffer::new();
    push_text(out, buffer.format(number))
}

/// Appends a coordinate behind a comma.
fn push_next_coordinate(out: &mut Vec<u8>, number: i32) -> Result<(), AllocError>
    ensures { OnOk result (out.new.items ≡ out.old.items ++ (44 ∷ signed_decimal number)) }
{
    out.push(b',')?;
    push_coordinate(out, number)
}

/// Appends the name that a pointer has.
fn push_target(out: &mut Vec<u8>, name: RecName) -> Result<(), AllocError>
    ensures { OnOk result (out.new.items ≡ out.old.items ++ kind_word name.kind ++ (58 ∷ decimal name.id)) }
{
    push_text(out, word_of_kind(name.kind))?;
    push_part(out, name.id)
}

/// Appends the attributes of a record, each as an item with this letter.
pub fn push_attributes(out: &mut Vec<u8>, letter: &str, attrs: &[Attr]) -> Result<(), AllocError>
    ensures { OnOk result (out.new.items ≡ out.old.items ++ spaced_words (map (attribute_item letter.now) attrs.now)) }
{
    for attr in attrs {
        push_attribute(out, letter, attr)?;
    }
    Ok(())
}

fn push_attribute(out: &mut Vec<u8>, letter: &str, attr: &Attr) -> Result<(), AllocError>
    ensures { OnOk result (out.new.items ≡ out.old.items ++ spaced (attribute_item letter.now attr.now)) }
{
    push_word(out, letter)?;
    out.push(b'=')?;
    push_plain(out, u32::from(attr.code))?;
    out.push(b':')?;
    push_text_word(out, attr.value.as_slice())
}

/// Appends the pointers of a vector record.
pub fn push_ends(out: &mut Vec<u8>, ends: &[End]) -> Result<(), AllocError>
    ensures { OnOk result (out.new.items ≡ out.old.items ++ spaced_words (map end_item ends.now)) }
{
    for end in ends {
        push_end(out, *end)?;
    }
    Ok(())
}

fn push_end(out: &mut Vec<u8>, end: End) -> Result<(), AllocError>
    ensures { OnOk result (out.new.items ≡ out.old.items ++ spaced (end_item end)) }
{
    push_word(out, "e=")?;
    push_target(out, end.to)?;
    push_part(out, u32::from(end.ornt))?;
    push_part(out, u32::from(end.usag))?;
    push_part(out, u32::from(end.topi))?;
    push_part(out, u32::from(end.mask))
}

/// Appends 2-D coordinates.
pub fn push_plane(out: &mut Vec<u8>, points: &[(i32, i32)]) -> Result<(), AllocError>
    ensures { OnOk result (out.new.items ≡ out.old.items ++ spaced_words (map plane_item points.now)) }
{
    for point in points {
        push_point(out, *point)?;
    }
    Ok(())
}

fn push_point(out: &mut Vec<u8>, point: (i32, i32)) -> Result<(), AllocError>
    ensures { OnOk result (out.new.items ≡ out.old.items ++ spaced (plane_item point)) }
{
    push_word(out, "p=")?;
    push_coordinate(out, point.0)?;
    push_next_coordinate(out, point.1)
}

/// Appends soundings.
pub fn push_deep(out: &mut Vec<u8>, soundings: &[(i32, i32, i32)]) -> Result<(), AllocError>
    ensures { OnOk result (out.new.items ≡ out.old.items ++ spaced_words (map deep_item soundings.now)) }
{
    for sounding in soundings {
        push_sounding(out, *sounding)?;
    }
    Ok(())
}

fn push_sounding(out: &mut Vec<u8>, sounding: (i32, i32, i32)) -> Result<(), AllocError>
    ensures { OnOk result (out.new.items ≡ out.old.items ++ spaced (deep_item sounding)) }
{
    push_word(out, "d=")?;
    push_coordinate(out, sounding.0)?;
    push_next_coordinate(out, sounding.1)?;
    push_next_coordinate(out, sounding.2)
}

/// Appends the pointers of a feature to features.
pub fn push_partners(out: &mut Vec<u8>, partners: &[Partner]) -> Result<(), AllocError>
    ensures { OnOk result (out.new.items ≡ out.old.items ++ spaced_words (map partner_item partners.now)) }
{
    for partner in partners {
        push_partner(out, partner)?;
    }
    Ok(())
}

fn push_partner(out: &mut Vec<u8>, partner: &Partner) -> Result<(), AllocError>
    ensures { OnOk result (out.new.items ≡ out.old.items ++ spaced (partner_item partner.now)) }
{
    push_word(out, "f=")?;
    push_plain(out, u32::from(partner.to.agen))?;
    push_part(out, partner.to.fidn)?;
    push_part(out, u32::from(partner.to.fids))?;
    push_part(out, u32::from(partner.rind))?;
    out.push(b':')?;
    push_text_word(out, partner.comt.as_slice())
}

/// Appends the pointers of a feature to vector records.
pub fn push_places(out: &mut Vec<u8>, places: &[Spot]) -> Result<(), AllocError>
    ensures { OnOk result (out.new.items ≡ out.old.items ++ spaced_words (map place_item places.now)) }
{
    for place in places {
        push_place(out, *place)?;
    }
    Ok(())
}

fn push_place(out: &mut Vec<u8>, place: Spot) -> Result<(), AllocError>
    ensures { OnOk result (out.new.items ≡ out.old.items ++ spaced (place_item place)) }
{
    push_word(out, "s=")?;
    push_target(out, place.to)?;
    push_part(out, u32::from(place.ornt))?;
    push_part(out, u32::from(place.usag))?;
    push_part(out, u32::from(place.mask))
}

/// Appends a new text of a head, as an item with the name of its subfield.
pub fn push_value(out: &mut Vec<u8>, name: &str, value: &[u8]) -> Result<(), AllocError>
    ensures { OnOk result (out.new.items ≡ out.old.items ++ spaced (item name.now 58 (text_word value.now) [])) }
{
    push_word(out, name)?;
    out.push(b'=')?;
    push_text_word(out, value)
}

/// Appends a new level of a head, as an item with the name of its subfield.
pub fn push_level(out: &mut Vec<u8>, name: &str, level: Level) -> Result<(), AllocError>
    ensures { OnOk result (out.new.items ≡ out.old.items ++ spaced (item name.now 58 (decimal (level_number level)) [])) }
{
    push_word(out, name)?;
    out.push(b'=')?;
    push_plain(out, u32::from(level.number()))
}
