//! The read set of a record.

ghost use Rattle.std.specs.Prelude.{◌≡◌, ◌==◌, ◌++◌, [], IfOk, OnOk, Some, flat_map, if◌then◌else◌, map};
ghost use Rattle.s57_types.specs.{declared.cell.Cell.{Cell as SpecCell}, declared.name.RecName.{RecName as SpecName}, declared.record.Rec.TheVariants.{F, V}};
ghost use Rattle.s57_types.specs.declared.record.Spot.{Spot as SpecSpot};
ghost use Rattle.cell_spec.specs.{declared.key.Subject.TheVariants.{Rec as SubjectRec}, Ascending.{ascending}, Lookup.{lookup_record}};
ghost use Rattle.cell_spec.specs.Names.{key_order, name_order};
ghost use Rattle.cell_spec.specs.declared.key.Key.TheVariants.{Name as KeyName};
ghost use Rattle.rule_spec.specs.Reads.{end_keys, read_set};
ghost use Rattle.near_records.specs.Near.{IsNear};
ghost use Rattle.check_record.specs.EndKeys.{ends_of_answer, named_by, partner_keys};

use cell_spec::{Key, Keys, Names, ascending_keys, ascending_names};
use check_words::AREA;
use near_records::{Answer, NearRecords};
use read_sets::push_vector_keys;
use s57_types::{Feature, Items, Kind, Rec, RecName, Vector};
use std::alloc::{AllocError, Global};

/// The read set of a node or an edge: its name, and for an edge the names of the records that its ends name.
pub(crate) fn vector_reads(
    alloc: Global,
    name: RecName,
    vector: &Vector,
) -> Result<Keys, AllocError>
    ensures { (c : SpecCell) → lookup_record c name ≡ Some (V vector.now) → IfOk result (λ keys. keys ≡ read_set c (SubjectRec name)) }
{
    let room = vector.ends.len().saturating_add(1);
    let mut keys = Vec::with_capacity(alloc, room)?;
    push_vector_keys(&mut keys, name, vector)?;
    Ok(ascending_keys(keys))
}

/// Appends the keys of names.
fn push_name_keys(keys: &mut Vec<Key>, names: &[RecName]) -> Result<(), AllocError>
    ensures { OnOk result (keys.new.items ≡ keys.old.items ++ map KeyName names.now) }
{
    for name in names {
        keys.push(Key::Name(*name))?;
    }
    Ok(())
}

/// From so many names on they are put in order by a sort that merges what rises or falls already, as the names of a boundary mostly do.
const MANY_NAMES: usize = 32;

/// The names in order, each once.
fn in_order(mut names: Vec<RecName>) -> Result<Names, AllocError>
    ensures { IfOk result (λ held. held ≡ ascending name_order names.items) }
{
    if names.len() < MANY_NAMES {
        return Ok(ascending_names(names));
    }
    names.sort()?;
    Ok(ascending_names(names))
}

/// The keys of names in order, each once, with room for `more`. Names take less to put in order than their keys.
fn keys_of_names(alloc: Global, names: Vec<RecName>, more: usize) -> Result<Keys, AllocError>
    ensures { IfOk result (λ keys. keys ≡ ascending key_order (map KeyName names.items)) }
{
    let names = in_order(names)?;
    let mut keys = Vec::with_capacity(alloc, names.len().saturating_add(more))?;
    push_name_keys(&mut keys, names.as_slice())?;
    Ok(Items::of_vec(keys))
}

/// Appends the names of the records that a feature's spatial pointers name (FSPT, S-57 Part 3, 7.6.8).
fn push_place_names(names: &mut Vec<RecName>, feature: &Feature) -> Result<(), AllocError>
    ensures { OnOk result (map KeyName names.new.items ≡ map KeyName names.old.items ++ map (λ (s : SpecSpot). KeyName s.to) feature.now.places) }
{
    for spot in feature.places.as_slice() {
        names.push(spot.to)?;
    }
    Ok(())
}

/// The names of a feature, of the head and of the records that its spatial pointers name, each once. Those of the pointers come first, as they
/// do in order: so the names mostly ascend already.
pub(crate) fn named_keys(
    alloc: Global,
    name: RecName,
    feature: &Feature,
) -> Result<Keys, AllocError>
    ensures { IfOk result (λ keys. keys ≡ named_by name feature.now) }
{
    let room = feature.places.len().saturating_add(2);
    let mut names = Vec::with_capacity(alloc, room)?;
    push_place_names(&mut names, feature)?;
    names.push(name)?;
    names.push(RecName::of_head())?;
    keys_of_names(alloc, names, 0)
}

/// Appends the names that the ends of an edge name.
fn push_end_names(names: &mut Vec<RecName>, edge: &Vector) -> Result<(), AllocError>
    ensures { OnOk result (map KeyName names.new.items ≡ map KeyName names.old.items ++ end_keys edge.now) }
{
    for end in edge.ends.as_slice() {
        names.push(end.to)?;
    }
    Ok(())
}

/// Appends the names that the ends of an edge name that is an answer.
fn push_ends_of(names: &mut Vec<RecName>, answer: &Answer<'_>) -> Result<(), AllocError>
    ensures { OnOk result (map KeyName names.new.items ≡ map KeyName names.old.items ++ ends_of_answer answer.now) }
{
    match answer.record() {
        Some(Rec::V(edge)) if edge.name.kind == Kind::Ve => push_end_names(names, edge),
        _ => Ok(()),
    }
}

/// The names that the ends of an area's edges name, each once; of another feature none. There is room for `more` keys.
fn boundary_keys(
    alloc: Global,
    prim: u8,
    answers: &[Answer<'_>],
    more: usize,
) -> Result<Keys, AllocError>
    ensures { IfOk result (λ keys. keys ≡ ascending key_order (if prim == 3 then flat_map ends_of_answer answers.now else [])) }
{
    if prim != AREA {
        return Ok(Keys::of_vec(Vec::with_capacity(alloc, more)?));
    }
    // Mostly an edge has two ends.
    let mut names = Vec::with_capacity(alloc, answers.len().saturating_mul(2))?;
    for answer in answers {
        push_ends_of(&mut names, answer)?;
    }
    keys_of_names(alloc, names, more)
}

/// Appends the identifiers of the features that a feature points to (FFPT, S-57 Part 3, 7.6.6).
fn push_partner_keys(keys: &mut Vec<Key>, feature: &Feature) -> Result<(), AllocError>
    ensures { OnOk result (keys.new.items ≡ keys.old.items ++ partner_keys feature.now) }
{
    for partner in feature.partners.as_slice() {
        keys.push(Key::Foid(partner.to))?;
    }
    Ok(())
}

/// The keys of a feature, where `named` are those of its name, of the head and of the records that its spatial pointers name, with the
/// answers to them. The connected nodes of an area come first, as they do in order: so the keys mostly ascend already.
fn gathered_keys(
    alloc: Global,
    feature: &Feature,
    named: &[Key],
    answers: &[Answer<'_>],
) -> Result<Vec<Key>, AllocError>
    ensures { IfOk result (λ keys. keys.items ≡ (ascending key_order
        (if feature.now.prim == 3 then flat_map ends_of_answer answers.now else [])
        ++ named.now) ++ partner_keys feature.now) }
{
    let more = named.len().saturating_add(feature.partners.len());
    let bounds = boundary_keys(alloc, feature.prim, answers, more)?;
    let mut keys = bounds.into_vec();
    keys.extend_from_slice(named)?;
    push_partner_keys(&mut keys, feature)?;
    Ok(keys)
}

/// The read set of a feature, where `named` are the keys of its name, of the head and of the records that its spatial pointers name, and
/// `known` what the cell answers to them.
pub(crate) fn feature_reads(
    alloc: Global,
    feature: &Feature,
    named: &[Key],
    known: &NearRecords<'_>,
) -> Result<Keys, AllocError>
    ensures { (c : SpecCell) (n : SpecName) → lookup_record c n ≡ Some (F feature.now) → named.now ≡ named_by n feature.now
        → IsNear c named.now known.now → IfOk result (λ keys. keys ≡ read_set c (SubjectRec n)) }
{
    let keys = gathered_keys(alloc, feature, named, known.answers())?;
    Ok(ascending_keys(keys))
}
