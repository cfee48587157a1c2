//! Why no script was read.

ghost use Rattle.std.specs.Prelude.{◌≡◌};
ghost use Rattle.script_text.specs.Faults.{fault_code};

use std::alloc::AllocError;

/// Why a text wasn't read as a script.
#[derive(Clone, Copy, Debug, PartialEq, Eq)]
pub enum ScriptRefusal {
    /// The first fault: the number of its line, from 1, and its code.
    ///
    /// The codes: 1 the last line has no line feed; 2 the first word of the line is no command's; 3 the rest of the line
    /// isn't of the command's form; 4 the line has the 50,001st command.
    Fault { line: u32, code: u8 },
    NoMemory,
}

/// What is wrong with a line.
#[derive(Clone, Copy)]
pub(crate) enum LineFault {
    NoLineFeed,
    UnknownWord,
    WrongForm,
    TooManyCommands,
}

impl LineFault {
    /// The code of a fault.
    pub(crate) fn code(self) -> u8
        ensures { result ≡ fault_code self }
    {
        match self {
            LineFault::NoLineFeed => 1,
            LineFault::UnknownWord => 2,
            LineFault::WrongForm => 3,
            LineFault::TooManyCommands => 4,
        }
    }
}

/// Why a line wasn't taken.
#[derive(Clone, Copy)]
pub(crate) enum LineRefusal {
    Fault(LineFault),
    NoMemory,
}

impl From<AllocError> for LineRefusal {
    ghost use Rattle.std.specs.Prelude.{◌≡◌};
    ghost use Rattle.script_text.specs.declared.refusal.LineRefusal.TheVariants.{NoMemory};

    ghost from_gives = { λ _ refusal. refusal ≡ NoMemory };

    fn from(_error: AllocError) -> LineRefusal {
        LineRefusal::NoMemory
    }
}
