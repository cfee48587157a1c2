//! The tags of the control fields of an update record, and its fields by their tags.

ghost use Rattle.std.specs.Prelude.{◌≡◌, List, ℕ, find, nat_eq, ◌∷◌, []};
ghost use Rattle.std.specs.Cmp.Lexicographic.{pointwise};
ghost use Rattle.std.specs.List.{list_any};
ghost use Rattle.std.specs.Option.{option_map};
ghost use Rattle.frame_spec.specs.RecordFrame.{Field};
ghost use Rattle.update_spec.specs.ControlFields.{control_in, control_text, has_controls};

use cell_read::stands_before;
use file_spec::RecordType;
use iso_frame::Frame;
use update_spec::ControlTag;

/// How the tag of a control field is written.
pub fn control_text(tag: ControlTag) -> [u8; 4]
    ensures { result ≡ control_text tag }
{
    match tag {
        ControlTag::Vrpc => *b"VRPC",
        ControlTag::Sgcc => *b"SGCC",
        ControlTag::Ffpc => *b"FFPC",
        ControlTag::Fspc => *b"FSPC",
    }
}

/// The control field that a name writes, if it is one of the record's.
pub fn control_in(kind: RecordType, name: &[u8; 4]) -> Option<ControlTag>
    ensures { (bytes : List ℕ) → result ≡ control_in kind (record { tag = name.now; bytes = bytes }) }
{
    match kind {
        RecordType::GeneralInformation | RecordType::GeographicReference => None,
        RecordType::Vector => one_of(ControlTag::Vrpc, ControlTag::Sgcc, name),
        RecordType::Feature => one_of(ControlTag::Ffpc, ControlTag::Fspc, name),
    }
}

/// The first of two control fields that a name writes.
fn one_of(first: ControlTag, second: ControlTag, name: &[u8; 4]) -> Option<ControlTag>
    ensures { result ≡ find (λ tag. pointwise nat_eq name.now (control_text tag)) (first ∷ second ∷ []) }
{
    if *name == control_text(first) {
        Some(first)
    } else if *name == control_text(second) {
        Some(second)
    } else {
        None
    }
}

/// Whether a record has a field of a tag of this text.
pub fn has_field(frame: &Frame<'_>, text: &[u8; 4]) -> bool
    ensures { result ≡ list_any (λ (f : Field). pointwise nat_eq f.tag text.now) frame.now.fields }
{
    stands_before(frame, text, frame.count())
}

/// Whether one of the fields is a control field of the record.
pub fn has_controls(frame: &Frame<'_>, kind: RecordType) -> bool
    ensures { result ≡ has_controls kind frame.now.fields }
{
    let mut has_one = false;
    let count = frame.count();
    for k in 0..count {
        has_one |= control_in(kind, &frame.tag(k)).is_some();
    }
    has_one
}

/// The bytes of the first field of a tag of this text.
pub fn first_field<'a>(frame: &'a Frame<'_>, text: &[u8; 4]) -> Option<&'a [u8]>
    ensures { option_map (λ b. b.now) result ≡ option_map (λ (f : Field). f.bytes) (find (λ (f : Field). pointwise nat_eq f.tag text.now) frame.now.fields) }
{
    let count = frame.count();
    for k in 0..count {
        if frame.tag(k) == *text {
            let (_, bytes) = frame.field(k);
            return Some(bytes);
        }
    }
    None
}
