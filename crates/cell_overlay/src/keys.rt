//! The keys that edits touch.

ghost use Rattle.std.specs.Prelude.{◌≡◌, ◌+◌, ◌≤◌, IfOk, flat_map, length};
ghost use Rattle.cell_spec.specs.Edits.{keys_of_edit, touched_keys};

use cell_spec::{Edit, Key, Keys, ascending_keys};
use chain_topo::{Look, Steps};
use edit_answers::push_touched;
use edit_sets::EditSet;
use std::alloc::{AllocError, Global};
use std::sync::ledger::Ledger;

// The keys that each of the edits touches, in the order of the edits. It looks up the name of each.
fn keys_of<B: Look, L: Ledger>(
    alloc: Global,
    look: &B,
    edits: &[Edit],
    steps: &mut Steps<L>,
) -> Result<Vec<Key>, AllocError>
    ensures keys { IfOk result (λ keys. keys.items ≡ flat_map (keys_of_edit (B.cell look.now)) edits.now) }
    ensures steps { steps.new ≤ steps.old + length edits.now }
{
    let mut keys = Vec::new(alloc);
    for edit in edits {
        push_touched(&mut keys, look.get(edit.name(), steps), edit)?;
    }
    Ok(keys)
}

/// The keys whose answers the edits can change, ascending, each once. It looks up the name of each edit.
///
/// An `Err` means out of memory.
#[tactic(auto, unfolding(cell_spec::specs::Edits::touched_keys))]
pub fn touched<B: Look, L: Ledger>(
    alloc: Global,
    look: &B,
    edits: &EditSet,
    steps: &mut Steps<L>,
) -> Result<Keys, AllocError>
    ensures keys { IfOk result (λ keys. keys ≡ touched_keys edits.now.edits (B.cell look.now)) }
    ensures steps { steps.new ≤ steps.old + length edits.now.edits }
{
    let keys = keys_of(alloc, look, edits.edits(), steps)?;
    Ok(ascending_keys(keys))
}
