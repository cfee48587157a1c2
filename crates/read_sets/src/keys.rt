//! The keys that the findings about a vector record depend on.

ghost use Rattle.std.specs.Prelude.{◌≡◌, ◌∷◌, ◌++◌, [], IfOk, List, OnOk, Some, map, true};
ghost use Rattle.s57_types.specs.declared.record.Rec.TheVariants.{V};
ghost use Rattle.s57_types.specs.declared.cell.Cell.{Cell as SpecCell};
ghost use Rattle.cell_spec.specs.declared.key.Key.{Key as SpecKey};
ghost use Rattle.cell_spec.specs.declared.key.Key.TheVariants.{Name};
ghost use Rattle.cell_spec.specs.Ascending.{ascending};
ghost use Rattle.cell_spec.specs.Lookup.{lookup_record};
ghost use Rattle.cell_spec.specs.Names.{key_order};
ghost use Rattle.rule_spec.specs.Reads.{end_keys, record_keys};
ghost use Rattle.read_sets.specs.Rising.{IsRising};

use cell_spec::{Key, orders_are_by_parts};
use s57_types::{Kind, RecName, Vector};
use std::alloc::AllocError;
use std::cmp::Ordering;

/// Appends the names of the records that an edge's ends name (VRPT, S-57 Part 3, 7.7.1.4), in their order.
///
/// An `Err` means out of memory.
pub fn push_end_keys(keys: &mut Vec<Key>, edge: &Vector) -> Result<(), AllocError>
    ensures { OnOk result (keys.new.items ≡ keys.old.items ++ end_keys edge.now) }
{
    for end in edge.ends.as_slice() {
        keys.push(Key::Name(end.to))?;
    }
    Ok(())
}

/// Appends what the findings about a node or an edge depend on, where `vector` is the record that a cell has under
/// `name`: the name, and for an edge the names of the records that its ends name.
///
/// An `Err` means out of memory.
pub fn push_vector_keys(
    keys: &mut Vec<Key>,
    name: RecName,
    vector: &Vector,
) -> Result<(), AllocError>
    ensures { (c : SpecCell) → lookup_record c name ≡ Some (V vector.now) → OnOk result (keys.new.items ≡ keys.old.items ++ record_keys c name) }
{
    keys.push(Key::Name(name))?;
    if vector.name.kind == Kind::Ve {
        push_end_keys(keys, vector)?;
    }
    Ok(())
}

/// Appends the key of a name behind the key of the name before it, if it is the greater one. One that is the same isn't put in again. Whether the names
/// ascend.
fn push_next(keys: &mut Vec<Key>, before: RecName, name: RecName) -> Result<bool, AllocError>
    ensures { (those : List SpecKey) → IsRising those before keys.old.items
        → IfOk result (λ rising. rising ≡ true → IsRising (those ++ Name name ∷ []) name keys.new.items) }
{
    orders_are_by_parts();
    match before.cmp(&name) {
        Ordering::Less => {
            keys.push(Key::Name(name))?;
            Ok(true)
        }
        Ordering::Equal => Ok(true),
        Ordering::Greater => Ok(false),
    }
}

/// Puts the keys of names into an empty list as long as the names ascend, each once where it comes more than once. Whether they all do: then
/// they are all in.
///
/// An `Err` means out of memory.
pub fn push_rising(keys: &mut Vec<Key>, names: &[RecName]) -> Result<bool, AllocError>
    requires { keys.old.items ≡ [] }
    ensures { IfOk result (λ rising. rising ≡ true → keys.new.items ≡ ascending key_order (map Name names.now)) }
{
    let [first, rest @ ..] = names else {
        return Ok(true);
    };
    keys.push(Key::Name(*first))?;
    let mut before = *first;
    for name in rest {
        if !push_next(keys, before, *name)? {
            return Ok(false);
        }
        before = *name;
    }
    Ok(true)
}
