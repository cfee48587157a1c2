//! A script.

ghost use Rattle.std.specs.Prelude.{◌≡◌, ◌≤◌, ◌<◌, ◌++◌, ◌∷◌, [], length, count_by, OnOk};
ghost use Rattle.text_spec.specs.ScriptLines.{command_limit, is_shared as spec_is_shared};

use std::alloc::{AllocError, Global};
use std::marker::Model;
use text_spec::Command;

/// The most commands of a script.
pub(crate) const MOST_COMMANDS: usize = 50_000;

/// The commands of one session, at most 50,000. It is seen as their list.
#[derive(Debug)]
pub struct Script {
    commands: Vec<Command>,
}

impl Drop for Script {
    fn drop(self) {
        let Script { commands: _ } = self;
    }
}

impl Model for Script {
    ghost use Rattle.std.specs.Prelude.{List, length, ◌≤◌};
    ghost use Rattle.text_spec.specs.declared.command.Command.{Command};
    ghost use Rattle.text_spec.specs.ScriptLines.{command_limit};

    ghost Value = { List Command };

    ghost view = { λ script. script.commands.items };

    ghost invariant = { λ script. length script.commands.items ≤ command_limit };
}

impl Script {
    /// The script of no command.
    pub(crate) fn make(alloc: Global) -> Script
        ensures { result ≡ [] }
    {
        Script {
            commands: Vec::new(alloc),
        }
    }

    /// Appends a command.
    ///
    /// An `Err` means out of memory.
    pub(crate) fn push(&mut self, command: Command) -> Result<(), AllocError>
        requires { length self.old < command_limit }
        ensures { OnOk result (self.new ≡ self.old ++ command ∷ []) }
    {
        self.commands.push(command)?;
        Ok(())
    }

    /// The script of these commands. It takes no memory.
    pub fn of_vec(commands: Vec<Command>) -> Script
        requires { length commands.items ≤ command_limit }
        ensures { result ≡ commands.items }
    {
        Script { commands }
    }

    /// The commands one after the other.
    pub fn commands(&self) -> &[Command]
        ensures { result.now ≡ self.now }
    {
        self.commands.as_slice()
    }

    /// How many commands there are that every session sees: views and commits.
    pub fn shared(&self) -> u32
        ensures { result ≡ count_by spec_is_shared self.now }
    {
        let mut shared = 0;
        for command in self.commands.as_slice() {
            if is_shared(command) {
                shared += 1;
            }
        }
        shared
    }
}

/// Whether every session sees a command.
fn is_shared(command: &Command) -> bool
    ensures { result ≡ spec_is_shared command.now }
{
    matches!(command, Command::View | Command::Commit)
}
