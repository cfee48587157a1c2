//! Where the answers to names are likely to stand.

ghost use Rattle.std.specs.Prelude.{◌≡◌, IfSome};
ghost use Rattle.s57_types.specs.declared.cell.Cell.{Cell as SpecCell};
ghost use Rattle.cell_spec.specs.declared.key.Key.TheVariants.{Name as KeyName};
ghost use Rattle.near_records.specs.Near.{AreAnswers, answer_held, answer_to};

use crate::near::{Answer, is_to_name};
use cell_spec::Key;
use s57_types::{Kind, RecName};
use std::alloc::{AllocError, Global};

/// At most this many answers have no slots: they are gone through from the front.
pub(crate) const FEW_ANSWERS: usize = 16;

/// Numbers that rise by one, multiplied by this, lie far apart: 2 to the power of 32 divided by the golden ratio.
const SPREAD: u32 = 0x9E37_79B1;

/// The slot of a name among some slots.
fn slot_of(name: RecName, slots: usize) -> usize {
    let number = if name.kind == Kind::Ve {
        !name.id
    } else {
        name.id
    };
    let spread = number.wrapping_mul(SPREAD);
    ((spread as u64).wrapping_mul(slots as u64) >> 32) as usize
}

/// Has the slot of an answer's name say where it stands.
fn put_place(slots: &mut [usize], answer: &Answer<'_>, place: usize) {
    let Key::Name(name) = answer.key else {
        return;
    };
    let count = slots.len();
    if let Some(slot) = slots.get_mut(slot_of(name, count)) {
        *slot = place;
    }
}

/// Where the answers to names stand, by the names' slots, of which there are two for each answer; where names share one, the last of them.
/// Few answers have no slots.
pub(crate) fn slots_of(alloc: Global, answers: &[Answer<'_>]) -> Result<Vec<usize>, AllocError> {
    if answers.len() <= FEW_ANSWERS {
        return Ok(Vec::new(alloc));
    }
    let count = answers.len().saturating_mul(2);
    let mut slots = vec![in alloc; 0usize; count]?;
    for (place, answer) in answers.iter().enumerate() {
        put_place(&mut slots, answer, place);
    }
    Ok(slots)
}

/// The answer to a name, if it stands where the name's slot says.
pub(crate) fn answer_in_slot<'a, 'b>(
    answers: &'b [Answer<'a>],
    slots: &[usize],
    name: RecName,
) -> Option<&'b Answer<'a>>
    ensures { (c : SpecCell) → AreAnswers c answers.now → IfSome result (λ answer. answer_held answer.now ≡ answer_to c (KeyName name)) }
{
    let place = slots.get(slot_of(name, slots.len()))?;
    let answer = answers.get(*place)?;
    if is_to_name(answer, name) {
        Some(answer)
    } else {
        None
    }
}
