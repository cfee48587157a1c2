//! The tags of the fields of a record.

ghost use Rattle.std.specs.Prelude.{◌≡◌, ◌≤◌, ◌<◌, ◌&&◌, List, ℕ, not, length, find, take, nat_eq, Some};
ghost use Rattle.std.specs.Cmp.Lexicographic.{pointwise};
ghost use Rattle.std.specs.List.{list_any};
ghost use Rattle.std.specs.Option.{option_map};
ghost use Rattle.frame_spec.specs.RecordFrame.{Field};
ghost use Rattle.file_spec.specs.FieldTags.{tag_text, is_tagged, tag_in, may_repeat};
ghost use Rattle.file_spec.specs.RecordReading.{record_type, type_of_leading};
ghost use Rattle.file_spec.specs.declared.tag.FieldTag.TheVariants as tags;

use file_spec::{FieldTag, RecordFault, RecordType};
use iso_frame::Frame;

/// How a tag is written.
pub fn tag_text(tag: FieldTag) -> [u8; 4]
    ensures { result ≡ tag_text tag }
{
    match tag {
        FieldTag::RecordNumber => *b"0001",
        FieldTag::Dsid => *b"DSID",
        FieldTag::Dssi => *b"DSSI",
        FieldTag::Dspm => *b"DSPM",
        FieldTag::Frid => *b"FRID",
        FieldTag::Foid => *b"FOID",
        FieldTag::Attf => *b"ATTF",
        FieldTag::Natf => *b"NATF",
        FieldTag::Ffpt => *b"FFPT",
        FieldTag::Fspt => *b"FSPT",
        FieldTag::Vrid => *b"VRID",
        FieldTag::Attv => *b"ATTV",
        FieldTag::Vrpt => *b"VRPT",
        FieldTag::Sg2d => *b"SG2D",
        FieldTag::Sg3d => *b"SG3D",
    }
}

/// Whether two tags are spelled alike. Four bytes are compared one by one, since a comparison of lists takes far longer.
fn is_text(name: &[u8; 4], text: &[u8; 4]) -> bool
    ensures { result ≡ pointwise nat_eq name.now text.now }
{
    let [first, second, third, fourth] = *name;
    let [one, two, three, four] = *text;
    first == one && second == two && third == three && fourth == four
}

/// Whether a field of this name has a tag.
fn is_tagged(tag: FieldTag, name: &[u8; 4]) -> bool
    ensures { result ≡ pointwise nat_eq name.now (tag_text tag) }
{
    is_text(name, &tag_text(tag))
}

/// Whether a record may have several fields of a tag.
fn may_repeat(tag: FieldTag) -> bool
    ensures { result ≡ may_repeat tag }
{
    match tag {
        FieldTag::RecordNumber
        | FieldTag::Ffpt
        | FieldTag::Fspt
        | FieldTag::Vrpt
        | FieldTag::Sg2d
        | FieldTag::Sg3d => true,
        FieldTag::Dsid
        | FieldTag::Dssi
        | FieldTag::Dspm
        | FieldTag::Frid
        | FieldTag::Foid
        | FieldTag::Attf
        | FieldTag::Natf
        | FieldTag::Vrid
        | FieldTag::Attv => false,
    }
}

/// The first of some tags that a name writes.
fn tag_among(tags: &[FieldTag], name: &[u8; 4]) -> Option<FieldTag>
    ensures { result ≡ find (λ tag. pointwise nat_eq name.now (tag_text tag)) tags.now }
{
    for tag in tags {
        if is_tagged(*tag, name) {
            return Some(*tag);
        }
    }
    None
}

/// The tag that a name writes, if it is one of the record's.
pub fn tag_in(kind: RecordType, name: &[u8; 4]) -> Option<FieldTag>
    ensures { (bytes : List ℕ) → result ≡ tag_in kind (record { tag = name.now; bytes = bytes }) }
{
    match kind {
        RecordType::GeneralInformation => tag_among(
            &[FieldTag::RecordNumber, FieldTag::Dsid, FieldTag::Dssi],
            name,
        ),
        RecordType::GeographicReference => {
            tag_among(&[FieldTag::RecordNumber, FieldTag::Dspm], name)
        }
        RecordType::Vector => tag_among(
            &[
                FieldTag::RecordNumber,
                FieldTag::Vrid,
                FieldTag::Attv,
                FieldTag::Vrpt,
                FieldTag::Sg2d,
                FieldTag::Sg3d,
            ],
            name,
        ),
        RecordType::Feature => tag_among(
            &[
                FieldTag::RecordNumber,
                FieldTag::Frid,
                FieldTag::Foid,
                FieldTag::Attf,
                FieldTag::Natf,
                FieldTag::Ffpt,
                FieldTag::Fspt,
            ],
            name,
        ),
    }
}

/// Whether one of the first so many fields has a tag of this text.
pub fn stands_before(frame: &Frame<'_>, text: &[u8; 4], k: usize) -> bool
    requires { k ≤ length frame.now.fields }
    ensures { result ≡ list_any (λ (f : Field). pointwise nat_eq f.tag text.now) (take k frame.now.fields) }
{
    let mut stands = false;
    for j in 0..k {
        stands |= is_text(&frame.tag(j), text);
    }
    stands
}

/// Whether a tag that may stand once stands among the first so many fields.
///
/// Only a tag that may stand once is looked for, so a record's fields are looked through a few times at most.
pub fn stands_twice(frame: &Frame<'_>, tag: FieldTag, k: usize) -> bool
    requires { k ≤ length frame.now.fields }
    ensures { result ≡ (list_any (is_tagged tag) (take k frame.now.fields) && not (may_repeat tag)) }
{
    if may_repeat(tag) {
        return false;
    }
    stands_before(frame, &tag_text(tag), k)
}

/// The name of the first field but the record identifier.
#[tactic(auto, using(crate::proofs::FieldSteps::named_here, crate::proofs::FieldSteps::named_later))]
fn leading_name(frame: &Frame<'_>) -> Option<[u8; 4]>
    ensures { result ≡ option_map (λ (f : Field). f.tag) (find (λ field. not (is_tagged tags.RecordNumber field)) frame.now.fields) }
{
    let count = frame.count();
    for k in 0..count {
        let name = frame.tag(k);
        if !is_tagged(FieldTag::RecordNumber, &name) {
            return Some(name);
        }
    }
    None
}

/// The type of the record that a field of this name leads.
fn type_of_leading(name: &[u8; 4]) -> Option<RecordType>
    ensures { (bytes : List ℕ) → result ≡ type_of_leading (record { tag = name.now; bytes = bytes }) }
{
    if is_tagged(FieldTag::Dsid, name) {
        Some(RecordType::GeneralInformation)
    } else if is_tagged(FieldTag::Dspm, name) {
        Some(RecordType::GeographicReference)
    } else if is_tagged(FieldTag::Vrid, name) {
        Some(RecordType::Vector)
    } else if is_tagged(FieldTag::Frid, name) {
        Some(RecordType::Feature)
    } else {
        None
    }
}

/// The type of a record, by its first field but the record identifier.
#[tactic(auto, using(crate::proofs::FieldSteps::type_by_leading, crate::proofs::FieldSteps::type_missing))]
pub fn record_type(frame: &Frame<'_>) -> Result<RecordType, RecordFault>
    ensures { result ≡ record_type frame.now.fields }
{
    let Some(name) = leading_name(frame) else {
        return Err(RecordFault::MissingField);
    };
    type_of_leading(&name).ok_or(RecordFault::ForeignTag)
}
