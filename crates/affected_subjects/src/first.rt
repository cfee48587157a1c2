//! The first round: the subjects that read a touched key, and those that it names.

ghost use Rattle.std.specs.Prelude.{◌≡◌, IfOk, OnOk};
ghost use Rattle.rule_spec.specs.Affected.{named_by};
ghost use Rattle.finding_laws.specs.Tables.{readers_in};
ghost use Rattle.cell_spec.specs.declared.key.Key.TheVariants.{Name};
ghost use Rattle.affected_subjects.specs.Rounds.{add_all, first_of, looked_at};

use crate::once::Considered;
use cell_spec::{Key, Subject};
use check_words::is_edge_name;
use depend_map::DependMap;
use s57_types::RecName;
use std::alloc::{AllocError, Global};

// Adds the subjects that read a key.
fn add_readers(set: &mut Considered, map: &DependMap, key: Key) -> Result<(), AllocError>
    ensures { OnOk result (set.new ≡ add_all set.old (readers_in map.now key)) }
{
    for subject in map.readers(key) {
        set.add(subject)?;
    }
    Ok(())
}

// Adds the record and the side of a name. The head is no subject.
fn add_name(set: &mut Considered, name: RecName) -> Result<(), AllocError>
    ensures { OnOk result (set.new ≡ add_all set.old (named_by (Name name))) }
{
    if name != RecName::of_head() {
        set.add(Subject::Rec(name))?;
    }
    if is_edge_name(name) {
        set.add(Subject::Side(name))?;
    }
    Ok(())
}

// Adds the subjects that a key names.
fn add_named(set: &mut Considered, key: Key) -> Result<(), AllocError>
    ensures { OnOk result (set.new ≡ add_all set.old (named_by key)) }
{
    match key {
        Key::Name(name) => add_name(set, name),
        Key::Refs(_) => Ok(()),
        Key::Foid(foid) => set.add(Subject::Ident(foid)),
    }
}

// Adds those that read a key, then those that it names.
fn add_looked_at(set: &mut Considered, map: &DependMap, key: Key) -> Result<(), AllocError>
    ensures { OnOk result (set.new ≡ add_all set.old (looked_at map.now key)) }
{
    add_readers(set, map, key)?;
    add_named(set, key)
}

/// The subjects of the first round in its order, each once.
pub(crate) fn first_round(
    alloc: Global,
    map: &DependMap,
    keys: &[Key],
) -> Result<Considered, AllocError>
    ensures { IfOk result (λ set. set ≡ first_of map.now keys.now) }
{
    let mut set = Considered::none(alloc)?;
    for key in keys {
        add_looked_at(&mut set, map, *key)?;
    }
    Ok(set)
}
