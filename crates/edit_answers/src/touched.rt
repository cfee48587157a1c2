//! The keys that an edit touches.

ghost use Rattle.std.specs.Prelude.{◌≡◌, ◌++◌, OnErr, OnOk, length, map, take};
ghost use Rattle.std.specs.Option.{option_copied};
ghost use Rattle.s57_types.specs.declared.record.End.{End as SpecEnd};
ghost use Rattle.s57_types.specs.declared.record.Spot.{Spot as SpecSpot};
ghost use Rattle.cell_spec.specs.Edits.{keys_answered_by};
ghost use Rattle.cell_spec.specs.declared.key.Key.TheVariants.{Refs};
ghost use Rattle.edit_answers.specs.Touched.{keys_touched_by};

use cell_spec::{Edit, Key};
use s57_types::{End, Rec, Spot, cut_back};
use std::alloc::AllocError;

// Appends the key of the pointers to each of the ends' targets, or some of them where memory goes out.
fn push_ends(keys: &mut Vec<Key>, ends: &[End]) -> Result<(), AllocError>
    ensures ok { OnOk result (keys.new.items ≡ keys.old.items ++ map Refs (map (λ (e : SpecEnd). e.to) ends.now)) }
    ensures front { take (length keys.old.items) keys.new.items ≡ keys.old.items }
{
    for end in ends {
        keys.push(Key::Refs(end.to))?;
    }
    Ok(())
}

// Appends the key of the pointers to each of the spots' targets, or some of them where memory goes out.
fn push_spots(keys: &mut Vec<Key>, spots: &[Spot]) -> Result<(), AllocError>
    ensures ok { OnOk result (keys.new.items ≡ keys.old.items ++ map Refs (map (λ (s : SpecSpot). s.to) spots.now)) }
    ensures front { take (length keys.old.items) keys.new.items ≡ keys.old.items }
{
    for spot in spots {
        keys.push(Key::Refs(spot.to))?;
    }
    Ok(())
}

// Appends the keys, beside its name, that a record is an answer to, or some of them where memory goes out.
fn push_some_answered(keys: &mut Vec<Key>, rec: &Rec) -> Result<(), AllocError>
    ensures ok { OnOk result (keys.new.items ≡ keys.old.items ++ keys_answered_by rec.now) }
    ensures front { take (length keys.old.items) keys.new.items ≡ keys.old.items }
{
    match rec {
        Rec::V(vector) => push_ends(keys, vector.ends.as_slice()),
        Rec::F(feature) => {
            push_spots(keys, feature.places.as_slice())?;
            keys.push(Key::Foid(feature.foid))?;
            Ok(())
        }
        Rec::H(_) => Ok(()),
    }
}

/// Appends the keys, beside its name, that a record is an answer to, all or none.
///
/// An `Err` means out of memory.
pub fn push_answered(keys: &mut Vec<Key>, rec: &Rec) -> Result<(), AllocError>
    ensures ok { OnOk result (keys.new.items ≡ keys.old.items ++ keys_answered_by rec.now) }
    ensures err { OnErr result (keys.new.items ≡ keys.old.items) }
{
    let count = keys.len();
    let pushed = push_some_answered(keys, rec);
    cut_back(keys, count, pushed)
}

// Appends the keys that an edit touches where this record, or none, has its name before it, or some of them where memory goes out.
fn push_some_touched(keys: &mut Vec<Key>, old: Option<&Rec>, edit: &Edit) -> Result<(), AllocError>
    ensures ok { OnOk result (keys.new.items ≡ keys.old.items ++ keys_touched_by (option_copied old.entry) edit.now) }
    ensures front { take (length keys.old.items) keys.new.items ≡ keys.old.items }
{
    keys.push(Key::Name(edit.name()))?;
    if let Some(rec) = old {
        push_answered(keys, rec)?;
    }
    if let Some(rec) = edit.record() {
        push_answered(keys, rec)?;
    }
    Ok(())
}

/// Appends the keys that an edit touches where this record, or none, has its name before it, all or none.
///
/// An `Err` means out of memory.
pub fn push_touched(keys: &mut Vec<Key>, old: Option<&Rec>, edit: &Edit) -> Result<(), AllocError>
    ensures ok { OnOk result (keys.new.items ≡ keys.old.items ++ keys_touched_by (option_copied old.entry) edit.now) }
    ensures err { OnErr result (keys.new.items ≡ keys.old.items) }
{
    let count = keys.len();
    let pushed = push_some_touched(keys, old, edit);
    cut_back(keys, count, pushed)
}
