//! Commands that no other session sees.

ghost use Rattle.std.specs.Prelude.{◌≡◌, ◌++◌, ◌+◌, ◌<◌, ◌^◌, ◌∷◌, [], false, length, OnErr, OnOk};
ghost use Rattle.history_spec.specs.ReportText.{draft_line};
ghost use Rattle.history_spec.specs.Served.{draft_after, local_lines};
ghost use Rattle.text_spec.specs.ScriptLines.{is_shared};

use crate::draft::Draft;
use cell_bench::Bench;
use cell_spec::Edit;
use report_text::Transcript;
use s57_types::{Duplicate, RecName};
use std::alloc::{AllocError, Global};
use text_spec::Command;

/// Puts an edit into the draft. All memory is taken before the line is written.
fn push_edit(
    alloc: Global,
    draft: &mut Draft,
    transcript: &mut Transcript,
    edit: &Edit,
) -> Result<(), AllocError>
    requires { length draft.old.edits + 1 < 2 ^ 32 }
    ensures edits { OnOk result (draft.new.edits ≡ draft.old.edits ++ edit.now ∷ []) }
    ensures guards { draft.new.guards ≡ draft.old.guards }
    ensures lines { OnOk result (transcript.new ≡ transcript.old ++ draft_line (length draft.old.edits + 1)) }
    ensures draft_stays { OnErr result (draft.new.edits ≡ draft.old.edits) }
    ensures lines_stay { OnErr result (transcript.new ≡ transcript.old) }
{
    let twin = edit.copy(alloc)?;
    draft.edits.reserve(1)?;
    transcript.push_draft(draft.edits.len() as u32 + 1)?;
    let Ok(()) = draft.edits.push(twin) else {
        unreachable!()
    };
    Ok(())
}

/// Puts a guard into the draft. All memory is taken before the line is written.
fn push_guard(
    draft: &mut Draft,
    transcript: &mut Transcript,
    name: RecName,
) -> Result<(), AllocError>
    requires { length draft.old.edits < 2 ^ 32 }
    ensures guards { OnOk result (draft.new.guards ≡ draft.old.guards ++ name ∷ []) }
    ensures edits { draft.new.edits ≡ draft.old.edits }
    ensures lines { OnOk result (transcript.new ≡ transcript.old ++ draft_line (length draft.old.edits)) }
    ensures draft_stays { OnErr result (draft.new.guards ≡ draft.old.guards) }
    ensures lines_stay { OnErr result (transcript.new ≡ transcript.old) }
{
    draft.guards.reserve(1)?;
    transcript.push_draft(draft.edits.len() as u32)?;
    let Ok(()) = draft.guards.push(name) else {
        unreachable!()
    };
    Ok(())
}

/// Does a command that no other session sees, on a bench of the cell after the session's base.
///
/// An `Err` means out of memory, and leaves the draft and the lines as they were.
pub(crate) fn do_local(
    alloc: Global,
    draft: &mut Draft,
    transcript: &mut Transcript,
    command: &Command,
    base: u32,
    bench: &Bench,
) -> Result<(), AllocError>
    requires local { is_shared command.now ≡ false }
    requires few { length draft.old.edits + 1 < 2 ^ 32 }
    ensures draft { OnOk result (draft.new ≡ draft_after command.now draft.old) }
    ensures lines { OnOk result (transcript.new ≡ transcript.old ++ local_lines bench.now base draft.old command.now) }
    ensures draft_stays { OnErr result (draft.new ≡ draft.old) }
    ensures lines_stay { OnErr result (transcript.new ≡ transcript.old) }
{
    match command {
        Command::View | Command::Commit => unreachable!(),
        Command::Drop => {
            transcript.push_draft(0)?;
            *draft = Draft::make(alloc);
            Ok(())
        }
        Command::List(shown) => transcript.push_list(base, *shown, bench),
        Command::Push(edit) => push_edit(alloc, draft, transcript, edit),
        Command::Guard(name) => push_guard(draft, transcript, *name),
    }
}
