//! The generated scripts.

ghost use Rattle.std.specs.Prelude.{◌≡◌, ◌+◌, ◌*◌, ◌≤◌, ◌<◌, ◌++◌, IfOk, OnOk, pos};
ghost use Rattle.cell_make.specs.GeneratedScripts.{choice as choice_of, generated_edit, generated_round, generated_script, generated_scripts};
ghost use Rattle.cell_make.specs.GeneratedScripts.{moved_node as moved_node_of};

use crate::record::SIDE;
use cell_spec::Edit;
use s57_types::{Items, Kind, Rec, RecName, Vector};
use script_text::Script;
use std::alloc::{AllocError, Global};
use text_spec::Command;

/// The rounds of a script.
const ROUNDS: u32 = 10;

/// The number by which a round of a script chooses its record.
fn choice(script: u32, round: u32) -> u32
    requires script { script ≤ 16 }
    requires round { round ≤ 10 }
    ensures { result ≡ choice_of script round }
{
    37 * script + 101 * round
}

/// A coordinate some units from a row or a column.
fn moved(count: u32, units: u32) -> i32
    requires count { count ≤ 100 }
    requires units { units ≤ 16 }
    ensures { result ≡ pos (40000 * count + units) }
{
    (SIDE * count + units) as i32
}

/// The node at a place of the list of nodes, moved so many units north and east, in its second version.
fn moved_node(alloc: Global, n: u32, place: u32, north: u32, east: u32) -> Result<Rec, AllocError>
    requires size { n ≤ 100 }
    requires place { place < (n + 1) * (n + 1) }
    requires north { north ≤ 10 }
    requires east { east ≤ 16 }
    ensures { IfOk result (λ rec. rec ≡ moved_node_of n place north east) }
{
    let row = place / (n + 1);
    let column = place % (n + 1);
    let position = (moved(row, north), moved(column, east));
    Ok(Rec::V(Vector {
        name: RecName {
            kind: Kind::Vc,
            id: 1 + place,
        },
        rver: 2,
        attrs: Items::make(alloc),
        ends: Items::make(alloc),
        plane: Items::of_vec(vec![in alloc; position]?),
        deep: Items::make(alloc),
    }))
}

/// The edit of a round: an odd one moves a node, an even one deletes a depth area.
fn edit(alloc: Global, n: u32, script: u32, round: u32) -> Result<Edit, AllocError>
    requires some { 1 ≤ n }
    requires size { n ≤ 100 }
    requires script { script ≤ 16 }
    requires round { round ≤ 10 }
    ensures { IfOk result (λ edit. edit ≡ generated_edit n script round) }
{
    let chosen = choice(script, round);
    if round % 2 == 1 {
        let place = chosen % ((n + 1) * (n + 1));
        let node = moved_node(alloc, n, place, round, script)?;
        Ok(Edit::Set(node))
    } else {
        Ok(Edit::Del(RecName {
            kind: Kind::Fe,
            id: 1 + chosen % (n * n),
        }))
    }
}

/// Appends a round: a view, an edit and a commit.
fn push_round(
    alloc: Global,
    n: u32,
    script: u32,
    round: u32,
    commands: &mut Vec<Command>,
) -> Result<(), AllocError>
    requires some { 1 ≤ n }
    requires size { n ≤ 100 }
    requires script { script ≤ 16 }
    requires round { round ≤ 10 }
    ensures { OnOk result (commands.new.items ≡ commands.old.items ++ generated_round n script round) }
{
    let edit = edit(alloc, n, script, round)?;
    commands.push(Command::View)?;
    commands.push(Command::Push(edit))?;
    commands.push(Command::Commit)?;
    Ok(())
}

/// The commands of a script: its ten rounds.
#[tactic(auto, using(crate::proofs::Ranges::rounds_more))]
fn commands_of(alloc: Global, n: u32, script: u32) -> Result<Vec<Command>, AllocError>
    requires some { 1 ≤ n }
    requires size { n ≤ 100 }
    requires script { script ≤ 16 }
    ensures { IfOk result (λ commands. commands.items ≡ generated_script n script) }
{
    let mut commands = Vec::new(alloc);
    for k in 0..ROUNDS {
        push_round(alloc, n, script, k + 1, &mut commands)?;
    }
    Ok(commands)
}

/// The scripts of k sessions, from 1 to 16, on the cell of n rows of n squares: ten rounds of a view, an edit and a commit
/// each. Odd rounds move a node north and east by a few units, even rounds delete a depth area.
///
/// An `Err` means out of memory.
#[tactic(auto, using(crate::proofs::Ranges::scripts_more))]
pub fn make_scripts(alloc: Global, n: u32, k: u32) -> Result<Vec<Script>, AllocError>
    requires some { 1 ≤ n }
    requires size { n ≤ 100 }
    requires one_session { 1 ≤ k }
    requires sessions { k ≤ 16 }
    ensures { IfOk result (λ scripts. scripts.items ≡ generated_scripts n k) }
{
    let mut scripts = Vec::new(alloc);
    for session in 0..k {
        let commands = commands_of(alloc, n, session + 1)?;
        scripts.push(Script::of_vec(commands))?;
    }
    Ok(scripts)
}
