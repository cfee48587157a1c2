//! Control fields.

ghost use Rattle.std.specs.Prelude.{◌≡◌, ◌<◌, MatchOption, IfSome, Ok, Err};
ghost use Rattle.field_spec.specs.declared.fault.FieldFault.TheVariants.{BadField};
ghost use Rattle.update_spec.specs.ControlFields.{control_among, control_content};

use crate::tags::{control_text, first_field};
use iso_frame::Frame;
use s57_fields::{field_body, take_u8, take_u16};
use update_spec::{Control, ControlTag};

/// What a control field says, or None where it is bad.
#[tactic(auto, unfolding(update_spec::specs::ControlFields::control_content))]
pub fn read_control(bytes: &[u8]) -> Option<Control>
    ensures counted { IfSome result (λ control. control.count < 65536) }
    ensures said { MatchOption result (control_content bytes.now ≡ Err BadField) (λ control. control_content bytes.now ≡ Ok control) }
{
    let (instruction, rest) = take_u8(field_body(bytes)?)?;
    let (index, rest) = take_u16(rest)?;
    let (count, rest) = take_u16(rest)?;
    if !rest.is_empty() {
        return None;
    }
    Some(Control {
        instruction,
        index,
        count,
    })
}

/// What the control field of a tag says, if the record has it.
pub fn control_among(frame: &Frame<'_>, tag: ControlTag) -> Option<Control>
    ensures counted { IfSome result (λ control. control.count < 65536) }
    ensures said { result ≡ control_among tag frame.now.fields }
{
    let bytes = first_field(frame, &control_text(tag))?;
    read_control(bytes)
}
