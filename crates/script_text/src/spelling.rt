//! Writing the line of a command.

ghost use Rattle.std.specs.Prelude.{◌≡◌, ◌++◌, not, OnOk, true};
ghost use Rattle.std.specs.List.{list_all};
ghost use Rattle.s57_types.specs.Fitness.{is_feature_kind};
ghost use Rattle.s57_types.specs.declared.record.End.{End};
ghost use Rattle.s57_types.specs.declared.record.Rec.{Rec};
ghost use Rattle.s57_types.specs.declared.record.Spot.{Spot};
ghost use Rattle.text_spec.specs.EditLine.{guard_has_line as spec_guard_has_line, has_line as spec_has_line, record_has_line as spec_record_has_line};
ghost use Rattle.text_spec.specs.EditLine.{is_head as spec_is_head};
ghost use Rattle.text_spec.specs.ScriptLines.{command_line};
ghost use Rattle.script_text.specs.Guess.{can_stand as spec_can_stand};

use cell_spec::Edit;
use s57_types::{End, Feature, Kind, Rec, RecName, Spot, Vector};
use std::alloc::{AllocError, Global};
use text_lines::{push_name, push_number, push_text, write_edit};
use text_spec::Command;

/// The most findings that a command shows.
const MOST_SHOWN: u32 = 20;

pub fn is_feature(kind: Kind) -> bool
    ensures { result ≡ is_feature_kind kind }
{
    matches!(kind, Kind::Fe)
}

pub fn is_head(kind: Kind) -> bool
    ensures { result ≡ spec_is_head kind }
{
    matches!(kind, Kind::Head)
}

/// Whether the pointers of a vector record name other records than the head.
fn ends_have_line(ends: &[End]) -> bool
    ensures { result ≡ list_all (λ (e : End). not (spec_is_head e.to.kind)) ends.now }
{
    ends.iter().all(|end| !is_head(end.to.kind))
}

/// Whether the pointers of a feature name other records than the head.
fn places_have_line(places: &[Spot]) -> bool
    ensures { result ≡ list_all (λ (s : Spot). not (spec_is_head s.to.kind)) places.now }
{
    places.iter().all(|place| !is_head(place.to.kind))
}

fn vector_has_line(vector: &Vector) -> bool
    ensures { result ≡ spec_record_has_line (Rec.V vector.now) }
{
    let kind = vector.name.kind;
    !is_feature(kind) && !is_head(kind) && ends_have_line(vector.ends.as_slice())
}

fn feature_has_line(feature: &Feature) -> bool
    ensures { result ≡ spec_record_has_line (Rec.F feature.now) }
{
    is_feature(feature.name.kind) && places_have_line(feature.places.as_slice())
}

/// Whether a record has a name of its own sort, and none of its pointers names the head.
fn record_has_line(rec: &Rec) -> bool
    ensures { result ≡ spec_record_has_line rec.now }
{
    match rec {
        Rec::V(vector) => vector_has_line(vector),
        Rec::F(feature) => feature_has_line(feature),
        Rec::H(_) => false,
    }
}

fn has_line(edit: &Edit) -> bool
    ensures { result ≡ spec_has_line edit.now }
{
    match edit {
        Edit::Add(rec) | Edit::Set(rec) => record_has_line(rec),
        Edit::Del(name) => !is_head(name.kind),
        Edit::Head(_) => true,
    }
}

/// Whether a guard is the name of a record or the one name of the head.
fn guard_has_line(name: RecName) -> bool
    ensures { result ≡ spec_guard_has_line name }
{
    !is_head(name.kind) || name.id == RecName::of_head().id
}

/// Whether a command has a line.
pub fn can_stand(command: &Command) -> bool
    ensures { result ≡ spec_can_stand command.now }
{
    match command {
        Command::View | Command::Commit | Command::Drop => true,
        Command::List(shown) => *shown <= MOST_SHOWN,
        Command::Push(edit) => has_line(edit),
        Command::Guard(name) => guard_has_line(*name),
    }
}

/// Appends the line of a command.
///
/// An `Err` means out of memory.
pub fn push_line(alloc: Global, command: &Command, line: &mut Vec<u8>) -> Result<(), AllocError>
    requires { spec_can_stand command.now ≡ true }
    ensures { OnOk result (line.new.items ≡ line.old.items ++ command_line command.now) }
{
    match command {
        Command::View => push_text(line, "view")?,
        Command::Commit => push_text(line, "commit")?,
        Command::Drop => push_text(line, "drop")?,
        Command::List(shown) => {
            push_text(line, "list")?;
            push_number(line, *shown)?;
        }
        Command::Push(edit) => return write_edit(alloc, edit, line),
        Command::Guard(name) => {
            push_text(line, "guard")?;
            push_name(line, *name)?;
        }
    }
    push_text(line, "\n")
}
