//! The line of an edit.

ghost use Rattle.std.specs.Prelude.{◌≡◌, ◌++◌, ◌∷◌, [], codes, decimal, map, true, OnErr, OnOk};
ghost use Rattle.text_spec.specs.CellText.{name_words};
ghost use Rattle.text_spec.specs.EditLine.{attribute_item, edit_line, feature_words, has_line, head_words, partner_item, place_item, record_words};
ghost use Rattle.text_spec.specs.EditLine.{vector_words};
ghost use Rattle.text_spec.specs.Lines.{spaced_words};

use crate::item::{
    push_attributes, push_deep, push_ends, push_level, push_partners, push_places, push_plane,
    push_value,
};
use crate::words::{
    push_bytes, push_identity, push_name, push_number, push_text, push_word, word_of_kind,
};
use cell_spec::Edit;
use s57_types::{Feature, HeadEdit, Kind, Rec, Vector};
use std::alloc::{AllocError, Global};

/// Appends the line of an edit, or nothing. A record has a name of its own sort, and only an edit of the head names the head.
///
/// An `Err` means out of memory.
pub fn write_edit(alloc: Global, edit: &Edit, out: &mut Vec<u8>) -> Result<(), AllocError>
    requires { has_line edit.now ≡ true }
    ensures ok { OnOk result (out.new.items ≡ out.old.items ++ edit_line edit.now) }
    ensures err { OnErr result (out.new.items ≡ out.old.items) }
{
    let mut line = Vec::new(alloc);
    push_edit(&mut line, edit)?;
    push_bytes(out, &line)
}

/// Appends the line of an edit.
fn push_edit(out: &mut Vec<u8>, edit: &Edit) -> Result<(), AllocError>
    requires { has_line edit.now ≡ true }
    ensures { OnOk result (out.new.items ≡ out.old.items ++ edit_line edit.now) }
{
    match edit {
        Edit::Add(rec) => {
            push_text(out, "add")?;
            push_record(out, rec)?;
        }
        Edit::Set(rec) => {
            push_text(out, "set")?;
            push_record(out, rec)?;
        }
        Edit::Del(name) => {
            push_text(out, "del")?;
            push_name(out, *name)?;
        }
        Edit::Head(head) => {
            push_text(out, "set")?;
            push_word(out, word_of_kind(Kind::Head))?;
            push_head(out, head)?;
        }
    }
    push_text(out, "\n")
}

/// Appends the words of a record that isn't the head. The head has none.
fn push_record(out: &mut Vec<u8>, rec: &Rec) -> Result<(), AllocError>
    ensures { OnOk result (out.new.items ≡ out.old.items ++ spaced_words (record_words rec.now)) }
{
    match rec {
        Rec::V(vector) => push_vector(out, vector),
        Rec::F(feature) => push_feature(out, feature),
        Rec::H(_) => Ok(()),
    }
}

/// Appends the words of a vector record.
fn push_vector(out: &mut Vec<u8>, vector: &Vector) -> Result<(), AllocError>
    ensures { OnOk result (out.new.items ≡ out.old.items ++ spaced_words (vector_words vector.now)) }
{
    push_name(out, vector.name)?;
    push_number(out, u32::from(vector.rver))?;
    push_attributes(out, "a", vector.attrs.as_slice())?;
    push_ends(out, vector.ends.as_slice())?;
    push_plane(out, vector.plane.as_slice())?;
    push_deep(out, vector.deep.as_slice())
}

/// Appends the words of a feature record before its items.
fn push_feature_head(out: &mut Vec<u8>, feature: &Feature) -> Result<(), AllocError>
    ensures { OnOk result (out.new.items ≡ out.old.items ++ spaced_words (name_words feature.now.name
        ++ (decimal feature.now.rver ∷ decimal feature.now.prim ∷ decimal feature.now.grup ∷ decimal feature.now.objl ∷ []))) }
{
    push_name(out, feature.name)?;
    push_number(out, u32::from(feature.rver))?;
    push_number(out, u32::from(feature.prim))?;
    push_number(out, u32::from(feature.grup))?;
    push_number(out, u32::from(feature.objl))
}

/// Appends the items of a feature record.
fn push_feature_items(out: &mut Vec<u8>, feature: &Feature) -> Result<(), AllocError>
    ensures { OnOk result (out.new.items ≡ out.old.items ++ spaced_words (
        map (attribute_item (codes "a")) feature.now.attf ++ map (attribute_item (codes "n")) feature.now.natf
        ++ map partner_item feature.now.partners ++ map place_item feature.now.places)) }
{
    push_attributes(out, "a", feature.attf.as_slice())?;
    push_attributes(out, "n", feature.natf.as_slice())?;
    push_partners(out, feature.partners.as_slice())?;
    push_places(out, feature.places.as_slice())
}

/// Appends the words of a feature record.
fn push_feature(out: &mut Vec<u8>, feature: &Feature) -> Result<(), AllocError>
    ensures { OnOk result (out.new.items ≡ out.old.items ++ spaced_words (feature_words feature.now)) }
{
    push_feature_head(out, feature)?;
    push_identity(out, feature.foid)?;
    push_feature_items(out, feature)
}

/// Appends the new values of a head.
fn push_head(out: &mut Vec<u8>, head: &HeadEdit) -> Result<(), AllocError>
    ensures { OnOk result (out.new.items ≡ out.old.items ++ spaced_words (head_words head.now)) }
{
    push_value(out, "edtn", head.edtn.as_slice())?;
    push_value(out, "updn", head.updn.as_slice())?;
    push_value(out, "uadt", &head.uadt)?;
    push_value(out, "isdt", &head.isdt)?;
    push_level(out, "aall", head.aall)?;
    push_value(out, "comt", head.comt.as_slice())
}
