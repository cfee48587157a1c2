//! Laws of scripts. The first two are contracts of functions that do nothing.

ghost use Rattle.std.specs.Prelude.{◌≡◌, ℕ, List, Result, Some, true, IfOk};
ghost use Rattle.text_spec.specs.EditLine.{has_line};
ghost use Rattle.text_spec.specs.ScriptLines.{command_line, IsCommand, IsEditOfWidth};
ghost use Rattle.text_spec.specs.declared.command.Command.{Command};
ghost use Rattle.script_text.specs.Reading.{IsReading};

use crate::reading::read_command;
use cell_spec::Edit;
use std::alloc::{AllocError, Global};
use text_lines::write_edit;
use text_spec::Command;

/// A line is the line of one command at most.
pub fn a_line_is_of_one_command()
    ensures { (command other : Command) → IsCommand command → IsCommand other → command_line command ≡ command_line other → command ≡ other }
{}

/// A text is a script of one list of commands or has one first fault, and never both.
pub fn a_text_has_one_reading()
    ensures { (bytes : List ℕ) (reading other : Result (List Command) (ℕ × ℕ)) → IsReading bytes reading → IsReading bytes other → reading ≡ other }
{}

/// What the written line of an edit is read as: that edit.
///
/// An `Err` means out of memory.
pub fn read_written(alloc: Global, edit: &Edit) -> Result<Option<Command>, AllocError>
    requires sort { has_line edit.now ≡ true }
    requires width { IsEditOfWidth edit.now }
    ensures { IfOk result (λ read. read ≡ Some (Command.Push edit.now)) }
{
    let mut line = Vec::new(alloc);
    write_edit(alloc, edit, &mut line)?;
    read_command(alloc, line.as_slice())
}
