//! The connected nodes and edges of pairs.

ghost use Rattle.std.specs.Prelude.{◌≡◌, ◌<◌, ◌||◌, All, IfOk, IsTrue, List, OnOk};
ghost use Rattle.std.specs.List.{flat_map};
ghost use Rattle.std.specs.Ordering.{is_eq};
ghost use Rattle.s57_types.specs.{declared.cell.Cell.{Cell as SpecCell}, declared.name.RecName.{RecName as SpecRecName}};
ghost use Rattle.cell_spec.specs.{Ascending.{ascending}, Names.{name_order}, declared.key.Subject.{Subject as SpecSubject}};
ghost use Rattle.rule_spec.specs.{Findings.{is_subject}, Records.{is_chain_part}};
ghost use Rattle.subject_rows.specs.Names.{AreThere, is_among, names_of_pair};

use cell_spec::{Names, Subject, ascending_names};
use s57_types::RecName;
use std::alloc::{AllocError, Global};

/// How many names of pairs are known at a time.
const PLACES: usize = 64;

/// Names that are known to stand among others, each in the place that its number tells. One that comes later takes the place.
#[derive(Drop)]
struct KnownNames {
    places: [Option<RecName>; PLACES],
}

impl KnownNames {
    /// No names.
    fn none() -> KnownNames
        ensures { (names : List SpecRecName) → AreThere result names }
    {
        KnownNames {
            places: [None; PLACES],
        }
    }

    /// The place of a name.
    fn place_of(name: RecName) -> usize
        ensures { result < 64 }
    {
        name.id as usize % PLACES
    }
}

/// Appends a name, unless it is known to be there.
fn push_unknown(
    names: &mut Vec<RecName>,
    known: &mut KnownNames,
    name: RecName,
) -> Result<(), AllocError>
    requires { AreThere known.old names.old.items }
    ensures names { OnOk result ((n : SpecRecName) → is_among names.new.items n ≡ (is_among names.old.items n || is_eq (name_order n name))) }
    ensures there { OnOk result (AreThere known.new names.new.items) }
{
    let place = KnownNames::place_of(name);
    if known.places[place] == Some(name) {
        return Ok(());
    }
    names.push(name)?;
    known.places[place] = Some(name);
    Ok(())
}

/// Appends the names of a subject, if it is a pair.
fn push_names_of(
    names: &mut Vec<RecName>,
    known: &mut KnownNames,
    subject: Subject,
) -> Result<(), AllocError>
    requires { AreThere known.old names.old.items }
    ensures names { OnOk result ((n : SpecRecName) → is_among names.new.items n ≡ (is_among names.old.items n || is_among (names_of_pair subject) n)) }
    ensures there { OnOk result (AreThere known.new names.new.items) }
{
    match subject {
        Subject::Rec(_) | Subject::Side(_) | Subject::Ident(_) => Ok(()),
        Subject::Pair(first, second) => {
            push_unknown(names, known, first)?;
            push_unknown(names, known, second)
        }
    }
}

/// Appends the names of pairs. A record stands in many pairs: its name mostly comes once for all of them, so that few are put in order.
fn push_pair_names(names: &mut Vec<RecName>, subjects: &[Subject]) -> Result<(), AllocError>
    ensures { OnOk result ((n : SpecRecName) → is_among names.new.items n
        ≡ (is_among names.old.items n || is_among (flat_map names_of_pair subjects.now) n)) }
{
    let mut known = KnownNames::none();
    for subject in subjects {
        push_names_of(names, &mut known, *subject)?;
    }
    Ok(())
}

/// The names of the connected nodes and edges of the pairs among subjects, ascending, each once: those of which parts are gathered.
///
/// An `Err` means out of memory.
pub fn part_names(alloc: Global, subjects: &[Subject]) -> Result<Names, AllocError>
    ensures names { IfOk result (λ names. names ≡ ascending name_order (flat_map names_of_pair subjects.now)) }
    ensures chained { (c : SpecCell) → All (λ (s : SpecSubject). IsTrue (is_subject c s)) subjects.now
        → IfOk result (λ names. All (λ (n : SpecRecName). IsTrue (is_chain_part c n)) names) }
{
    let mut names = Vec::with_capacity(alloc, subjects.len())?;
    push_pair_names(&mut names, subjects)?;
    Ok(ascending_names(names))
}
