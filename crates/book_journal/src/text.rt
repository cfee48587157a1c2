//! The text of edits, and the edits of a text.

ghost use Rattle.std.specs.Prelude.{◌≡◌, ◌<◌, ◌^◌, ◌↔◌, All, IfOk, IsTrue, List, MatchOption, length, map, true};
ghost use Rattle.std.specs.Option.{option_map};
ghost use Rattle.cell_spec.specs.declared.edit.Edit.{Edit as SpecEdit};
ghost use Rattle.text_spec.specs.EditLine.{has_line};
ghost use Rattle.text_spec.specs.declared.command.Command.TheVariants.{Push};
ghost use Rattle.book_journal.specs.Entries.{edit_lines};
ghost use Rattle.book_journal.specs.Texts.{AreEditsRead, IsScriptRead, IsSetRead};

use cell_spec::Edit;
use edit_sets::{EditSet, FormRefusal};
use s57_types::Duplicate;
use script_text::{Command, Script, ScriptRefusal, read_script};
use std::alloc::{AllocError, Global};
use text_lines::write_edit;

/// The lines of edits.
pub(crate) fn text_of(alloc: Global, edits: &[Edit]) -> Result<Vec<u8>, AllocError>
    requires { All (λ edit. has_line edit ≡ true) edits.now }
    ensures { IfOk result (λ text. text.items ≡ edit_lines edits.now) }
{
    let mut text = Vec::new(alloc);
    for edit in edits {
        write_edit(alloc, edit, &mut text)?;
    }
    Ok(text)
}

/// Whether a text is the lines of edits.
fn is_text_of(alloc: Global, edits: &[Edit], text: &[u8]) -> Result<bool, AllocError>
    requires { All (λ edit. has_line edit ≡ true) edits.now }
    ensures { IfOk result (λ same. IsTrue same ↔ (edit_lines edits.now ≡ text.now)) }
{
    let spelled = text_of(alloc, edits)?;
    Ok(spelled.as_slice() == text)
}

/// Copies of the edits that commands push, if they push edits and do nothing else.
fn edits_of(alloc: Global, commands: &[Command]) -> Result<Option<Vec<Edit>>, AllocError>
    ensures { IfOk result (λ read. MatchOption read ((edits : List SpecEdit) → commands.now ≡ map Push edits → ⊥)
        (λ edits. commands.now ≡ map Push edits.items)) }
{
    let mut edits = Vec::new(alloc);
    for command in commands {
        let Command::Push(edit) = command else {
            return Ok(None);
        };
        edits.push(edit.copy(alloc)?)?;
    }
    Ok(Some(edits))
}

/// The script that a text is, if it is one.
fn script_of(alloc: Global, text: &[u8]) -> Result<Option<Script>, AllocError>
    requires { length text.now < 2 ^ 32 }
    ensures { IfOk result (IsScriptRead text.now) }
{
    match read_script(alloc, text) {
        Ok(script) => Ok(Some(script)),
        Err(ScriptRefusal::Fault { .. }) => Ok(None),
        Err(ScriptRefusal::NoMemory) => Err(AllocError),
    }
}

/// The edits whose lines a text is, if it is lines of edits and of nothing else.
fn read_edits(alloc: Global, text: &[u8]) -> Result<Option<Vec<Edit>>, AllocError>
    requires { length text.now < 2 ^ 32 }
    ensures { IfOk result (λ read. AreEditsRead text.now (option_map (λ edits. edits.items) read)) }
{
    let Some(script) = script_of(alloc, text)? else {
        return Ok(None);
    };
    let Some(edits) = edits_of(alloc, script.commands())? else {
        return Ok(None);
    };
    // A script may have lines that are passed over.
    let same = is_text_of(alloc, &edits, text)?;
    Ok(same.then_some(edits))
}

/// The edit set that a text is at a level of national texts, if it is one.
pub(crate) fn read_set(alloc: Global, text: &[u8], level: u8) -> Result<Option<EditSet>, AllocError>
    requires { length text.now < 2 ^ 32 }
    ensures { IfOk result (IsSetRead level text.now) }
{
    let Some(edits) = read_edits(alloc, text)? else {
        return Ok(None);
    };
    match EditSet::make(alloc, &edits, &[], level) {
        Ok(set) => Ok(Some(set)),
        Err(FormRefusal::Fault(_)) => Ok(None),
        Err(FormRefusal::NoMemory) => Err(AllocError),
    }
}
