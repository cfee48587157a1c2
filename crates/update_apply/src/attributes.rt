//! The attributes of a record after an update.

ghost use Rattle.std.specs.Prelude.{◌≡◌, IfOk};
ghost use Rattle.field_spec.specs.Contents.{attribute_content};
ghost use Rattle.file_spec.specs.RecordReading.{rows_of};
ghost use Rattle.update_spec.specs.UpdatedAttributes.{updated_attributes};

use crate::coded::CodedAttrs;
use crate::given::rows_of;
use file_spec::FieldTag;
use iso_frame::Frame;
use s57_types::{Attrs, Duplicate};
use std::alloc::{AllocError, Global};

/// The attributes after an update that gives attributes at a lexical level.
///
/// An `Err` means out of memory.
#[tactic(auto, unfolding(update_spec::specs::UpdatedAttributes::updated_attributes))]
fn updated_attributes(
    alloc: Global,
    level: u8,
    given: &Attrs,
    attrs: &Attrs,
) -> Result<Attrs, AllocError>
    ensures { IfOk result (λ updated. updated ≡ updated_attributes level given.now attrs.now) }
{
    if given.is_empty() {
        return attrs.copy(alloc);
    }
    let mut coded = CodedAttrs::copy_of(alloc, attrs)?;
    for attr in given.as_slice() {
        coded.take_given(alloc, level, attr)?;
    }
    coded.into_attrs(alloc)
}

/// The attributes after an update by a record that gives attributes of a tag at a lexical level.
///
/// An `Err` means out of memory.
pub fn modified_attributes(
    alloc: Global,
    frame: &Frame<'_>,
    tag: FieldTag,
    level: u8,
    attrs: &Attrs,
) -> Result<Attrs, AllocError>
    ensures { IfOk result (λ modified. modified ≡ updated_attributes level (rows_of tag (attribute_content level) frame.now.fields) attrs.now) }
{
    let given = rows_of(alloc, frame, tag, level)?;
    updated_attributes(alloc, level, &given, attrs)
}
