//! The items of records: the value that each stands for, by what follows its letter.

ghost use Rattle.std.specs.Prelude.{◌≡◌, ◌++◌, ◌∷◌, [], ℤ, List, ℕ, codes, false, IfOk, MatchOption, OnOk};
ghost use Rattle.s57_types.specs.declared.record.Attr.{Attr};
ghost use Rattle.s57_types.specs.declared.record.End.{End};
ghost use Rattle.s57_types.specs.declared.record.Spot.{Spot};
ghost use Rattle.s57_types.specs.declared.record.Partner.{Partner};
ghost use Rattle.text_spec.specs.EditLine.{attribute_item, deep_item, end_item, partner_item, place_item, plane_item, text_word};
ghost use Rattle.script_text.specs.Items.{begins, IsListTaken};
ghost use Rattle.script_text.specs.Widths.{IsAttributeOfWidth, IsEndOfWidth, IsPartnerOfWidth, IsPlaceOfWidth, IsPointOfWidth, IsSoundingOfWidth};
ghost use Rattle.script_text.specs.Widths.{IsTextOfWidth};

use crate::cut::next_part;
use crate::text::text_of;
use crate::value::{byte_of, coordinate_of, identity_of, name_of, short_of};
use s57_types::{Attr, Attrs, Deep, End, Ends, Partner, Partners, Places, Plane, Spot, Text};
use std::alloc::{AllocError, Global};

/// What follows the letter of a word, if it begins with this letter.
fn behind_letter(letter: u8, word: &[u8]) -> Option<&[u8]>
    ensures { MatchOption result (begins letter word.now ≡ false) (λ parts. word.now ≡ letter ∷ parts.now) }
{
    match word.split_first() {
        Some((first, parts)) => { if *first == letter { Some(parts) } else { None } }
        None => None,
    }
}

/// The text behind a colon.
///
/// An `Err` means out of memory.
fn text_behind(alloc: Global, parts: &[u8]) -> Result<Text, AllocError>
    ensures width { IfOk result IsTextOfWidth }
    ensures found { (value : List ℕ) → IsTextOfWidth value → parts.now ≡ 58 ∷ text_word value → IfOk result (λ text. text ≡ value) }
{
    match parts.split_first() {
        Some((_, part)) => text_of(alloc, part),
        None => Ok(Text::make(alloc)),
    }
}

/// The attribute that an item stands for.
///
/// An `Err` means out of memory.
fn attribute_of(alloc: Global, parts: &[u8]) -> Result<Attr, AllocError>
    ensures width { IfOk result IsAttributeOfWidth }
    ensures found { (attr : Attr) → IsAttributeOfWidth attr → attribute_item [] attr ≡ parts.now → IfOk result (λ read. read ≡ attr) }
{
    let (code, parts) = next_part(b':', parts);
    let value = text_behind(alloc, parts)?;
    Ok(Attr {
        code: short_of(code),
        value,
    })
}

/// The pointer of a vector record that an item stands for.
fn end_of(parts: &[u8]) -> End
    ensures width { IsEndOfWidth result }
    ensures found { (end : End) → IsEndOfWidth end → end_item end ≡ codes "e" ++ parts.now → result ≡ end }
{
    let (kind, parts) = next_part(b':', parts);
    let (id, parts) = next_part(b':', parts);
    let (ornt, parts) = next_part(b':', parts);
    let (usag, parts) = next_part(b':', parts);
    let (topi, parts) = next_part(b':', parts);
    let (mask, _) = next_part(b':', parts);
    End {
        to: name_of(kind, id),
        ornt: byte_of(ornt),
        usag: byte_of(usag),
        topi: byte_of(topi),
        mask: byte_of(mask),
    }
}

/// The coordinates that an item stands for. Latitude first, in integer coordinate units.
fn point_of(parts: &[u8]) -> (i32, i32)
    ensures width { IsPointOfWidth result }
    ensures found { (point : ℤ × ℤ) → IsPointOfWidth point → plane_item point ≡ codes "p" ++ parts.now → result ≡ point }
{
    let (latitude, parts) = next_part(b',', parts);
    let (longitude, _) = next_part(b',', parts);
    (coordinate_of(latitude), coordinate_of(longitude))
}

/// The sounding that an item stands for: latitude, longitude and depth, in integer coordinate and sounding units.
fn sounding_of(parts: &[u8]) -> (i32, i32, i32)
    ensures width { IsSoundingOfWidth result }
    ensures found { (sounding : ℤ × ℤ × ℤ) → IsSoundingOfWidth sounding → deep_item sounding ≡ codes "d" ++ parts.now → result ≡ sounding }
{
    let (latitude, parts) = next_part(b',', parts);
    let (longitude, parts) = next_part(b',', parts);
    let (depth, _) = next_part(b',', parts);
    (
        coordinate_of(latitude),
        coordinate_of(longitude),
        coordinate_of(depth),
    )
}

/// The pointer to a feature that an item stands for.
///
/// An `Err` means out of memory.
fn partner_of(alloc: Global, parts: &[u8]) -> Result<Partner, AllocError>
    ensures width { IfOk result IsPartnerOfWidth }
    ensures found { (partner : Partner) → IsPartnerOfWidth partner → partner_item partner ≡ codes "f" ++ parts.now → IfOk result (λ read. read ≡ partner) }
{
    let (agen, parts) = next_part(b':', parts);
    let (fidn, parts) = next_part(b':', parts);
    let (fids, parts) = next_part(b':', parts);
    let (rind, parts) = next_part(b':', parts);
    let comt = text_behind(alloc, parts)?;
    Ok(Partner {
        to: identity_of(agen, fidn, fids),
        rind: byte_of(rind),
        comt,
    })
}

/// The pointer of a feature to a vector record that an item stands for.
fn place_of(parts: &[u8]) -> Spot
    ensures width { IsPlaceOfWidth result }
    ensures found { (place : Spot) → IsPlaceOfWidth place → place_item place ≡ codes "s" ++ parts.now → result ≡ place }
{
    let (kind, parts) = next_part(b':', parts);
    let (id, parts) = next_part(b':', parts);
    let (ornt, parts) = next_part(b':', parts);
    let (usag, parts) = next_part(b':', parts);
    let (mask, _) = next_part(b':', parts);
    Spot {
        to: name_of(kind, id),
        ornt: byte_of(ornt),
        usag: byte_of(usag),
        mask: byte_of(mask),
    }
}

/// Appends the attribute that a word stands for, if it begins with this letter.
pub fn take_attribute(
    alloc: Global,
    letter: u8,
    word: &[u8],
    attrs: &mut Attrs,
) -> Result<(), AllocError>
    ensures { OnOk result (IsListTaken letter (attribute_item (letter ∷ [])) IsAttributeOfWidth word.now attrs.old attrs.new) }
{
    match behind_letter(letter, word) {
        Some(parts) => attrs.push(attribute_of(alloc, parts)?),
        None => Ok(()),
    }
}

/// Appends the pointer that a word stands for, if it is one of a vector record.
pub fn take_end(word: &[u8], ends: &mut Ends) -> Result<(), AllocError>
    ensures { OnOk result (IsListTaken 101 end_item IsEndOfWidth word.now ends.old ends.new) }
{
    match behind_letter(b'e', word) {
        Some(parts) => ends.push(end_of(parts)),
        None => Ok(()),
    }
}

/// Appends the 2-D coordinates that a word stands for, if it has some.
pub fn take_point(word: &[u8], plane: &mut Plane) -> Result<(), AllocError>
    ensures { OnOk result (IsListTaken 112 plane_item IsPointOfWidth word.now plane.old plane.new) }
{
    match behind_letter(b'p', word) {
        Some(parts) => plane.push(point_of(parts)),
        None => Ok(()),
    }
}

/// Appends the sounding that a word stands for, if it is one.
pub fn take_sounding(word: &[u8], deep: &mut Deep) -> Result<(), AllocError>
    ensures { OnOk result (IsListTaken 100 deep_item IsSoundingOfWidth word.now deep.old deep.new) }
{
    match behind_letter(b'd', word) {
        Some(parts) => deep.push(sounding_of(parts)),
        None => Ok(()),
    }
}

/// Appends the pointer to a feature that a word stands for, if it is one.
pub fn take_partner(alloc: Global, word: &[u8], partners: &mut Partners) -> Result<(), AllocError>
    ensures { OnOk result (IsListTaken 102 partner_item IsPartnerOfWidth word.now partners.old partners.new) }
{
    match behind_letter(b'f', word) {
        Some(parts) => partners.push(partner_of(alloc, parts)?),
        None => Ok(()),
    }
}

/// Appends the pointer that a word stands for, if it is one of a feature to a vector record.
pub fn take_place(word: &[u8], places: &mut Places) -> Result<(), AllocError>
    ensures { OnOk result (IsListTaken 115 place_item IsPlaceOfWidth word.now places.old places.new) }
{
    match behind_letter(b's', word) {
        Some(parts) => places.push(place_of(parts)),
        None => Ok(()),
    }
}
