//! The texts in a record.

ghost use Rattle.std.specs.Prelude.{◌≡◌, ◌==◌, ◌&&◌, ◌||◌};
ghost use Rattle.std.specs.List.{list_all, flat_map};
ghost use Rattle.s57_types.specs.Subfield.{is_plain, text_of, wide_text_of};
ghost use Rattle.s57_types.specs.FieldRows.{level_text, partner_row};
ghost use Rattle.s57_types.specs.Fitness.{attribute_texts, has_good_texts};

use s57_types::{Attr, Partner, Rec};

/// The byte that ends a field.
const FIELD_TERMINATOR: u8 = 0x1E;

/// The byte that ends a text.
const UNIT_TERMINATOR: u8 = 0x1F;

/// Whether no text of the record holds a control byte of the format; its national attributes are at the level NALL.
pub fn has_good_texts(rec: &Rec, nall: u8) -> bool
    ensures { result ≡ has_good_texts nall rec.now }
{
    match rec {
        Rec::V(vector) => are_attributes_plain(vector.attrs.as_slice(), 0),
        Rec::F(feature) => {
            are_attributes_plain(feature.attf.as_slice(), 0)
                && are_attributes_plain(feature.natf.as_slice(), nall)
                && are_partners_plain(feature.partners.as_slice())
        }
        Rec::H(_) => true,
    }
}

fn are_attributes_plain(attrs: &[Attr], level: u8) -> bool
    ensures { result ≡ list_all is_plain (attribute_texts level attrs.now) }
{
    for attr in attrs {
        if !is_attribute_plain(attr, level) {
            return false;
        }
    }
    true
}

fn are_partners_plain(partners: &[Partner]) -> bool
    ensures { result ≡ list_all is_plain (flat_map partner_row partners.now) }
{
    for partner in partners {
        if !is_partner_plain(partner) {
            return false;
        }
    }
    true
}

fn is_attribute_plain(attr: &Attr, level: u8) -> bool
    ensures { result ≡ is_plain (level_text level attr.now.value) }
{
    let text = attr.value.as_slice();
    if level == 2 {
        is_wide_text_plain(text)
    } else {
        is_text_plain(text)
    }
}

fn is_partner_plain(partner: &Partner) -> bool
    ensures { result ≡ is_plain (text_of partner.now.comt) }
{
    is_text_plain(partner.comt.as_slice())
}

/// Whether a text of one byte a character holds no control byte.
pub fn is_text_plain(text: &[u8]) -> bool
    ensures { result ≡ is_plain (text_of text.now) }
{
    !(text.contains(&FIELD_TERMINATOR) || text.contains(&UNIT_TERMINATOR))
}

/// Whether a text of two-byte units, the low byte first, is whole and holds no control unit.
fn is_wide_text_plain(text: &[u8]) -> bool
    ensures { result ≡ is_plain (wide_text_of text.now) }
{
    let mut rest = text;
    while rest.len() > 1 {
        if is_control_unit(rest[0], rest[1]) {
            return false;
        }
        let (_, behind) = rest.split_at(2);
        rest = behind;
    }
    rest.is_empty()
}

/// Whether a two-byte unit is a terminator.
fn is_control_unit(low: u8, high: u8) -> bool
    ensures { result ≡ (((low == 30) && (high == 0)) || ((low == 31) && (high == 0))) }
{
    high == 0 && (low == FIELD_TERMINATOR || low == UNIT_TERMINATOR)
}
