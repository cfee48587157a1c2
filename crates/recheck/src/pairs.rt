//! Pairs of which both were gathered.

ghost use Rattle.std.specs.Prelude.{◌≡◌, All, IfSome};
ghost use Rattle.s57_types.specs.declared.cell.Cell.{Cell as SpecCell};
ghost use Rattle.cell_spec.specs.declared.key.Subject.TheVariants.{Pair as SpecPair};
ghost use Rattle.check_pairs.specs.Parts.{IsPart};

use cell_spec::Subject;
use check_pairs::ChainPart;
use s57_types::RecName;

/// How many places are looked at before parts are searched by halves.
const PLACES_BEHIND: usize = 4;

/// Where the two of the pair before stand among parts: most pairs have the first or the second of the pair before, and another that stands
/// not far behind.
#[derive(Clone, Copy)]
pub(crate) struct PairPlaces {
    first: usize,
    second: usize,
}

impl PairPlaces {
    /// Those before the first pair.
    pub(crate) fn start() -> PairPlaces {
        PairPlaces {
            first: 0,
            second: 0,
        }
    }
}

/// The part of a name among parts in the order of their names: it is looked for first at `near` and a few places behind, then by halves, and
/// `near` becomes its place. Among parts in another order it may miss one.
fn part_near<'a, 'b>(
    parts: &'b [ChainPart<'a>],
    near: &mut usize,
    name: RecName,
) -> Option<&'b ChainPart<'a>>
    ensures named { IfSome result (λ part. part.now.name ≡ name) }
    ensures held { (c : SpecCell) → All (IsPart c) parts.now → IfSome result (λ part. IsPart c part.now) }
{
    for place in *near..near.saturating_add(PLACES_BEHIND) {
        match parts.get(place) {
            Some(part) if part.name() == name => {
                *near = place;
                return Some(part);
            }
            _ => {}
        }
    }
    *near = parts.partition_point(|part| part.name() < name);
    let part = parts.get(*near)?;
    if part.name() != name {
        return None;
    }
    Some(part)
}

/// The two of a pair, if both are among these parts.
pub(crate) fn both_among<'a, 'b>(
    parts: &'b [ChainPart<'a>],
    near: &mut PairPlaces,
    subject: Subject,
) -> Option<(&'b ChainPart<'a>, &'b ChainPart<'a>)>
    ensures named { IfSome result (λ both. subject ≡ SpecPair both.0.now.name both.1.now.name) }
    ensures first { (c : SpecCell) → All (IsPart c) parts.now → IfSome result (λ both. IsPart c both.0.now) }
    ensures second { (c : SpecCell) → All (IsPart c) parts.now → IfSome result (λ both. IsPart c both.1.now) }
{
    let Subject::Pair(first, second) = subject else {
        return None;
    };
    let first = part_near(parts, &mut near.first, first)?;
    let second = part_near(parts, &mut near.second, second)?;
    Some((first, second))
}
