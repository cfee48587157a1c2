//! The work of a run of scripts.

ghost use Rattle.std.specs.Prelude.{◌≡◌, IfOk, List};
ghost use Rattle.enc_top.specs.Task.{run_task};
ghost use Rattle.call_files.specs.Task.{task_of};
ghost use Rattle.history_spec.specs.Entries.{AreInterleaved, order_of_entries};
ghost use Rattle.history_spec.specs.EntriesReport.{AreTranscripts};
ghost use Rattle.text_spec.specs.declared.command.Command.{Command};

use call_files::{Export, Work};
use commit_book::Book;
use report_text::{Transcript, print_report};
use room_laws::a_history_has_the_report_of_its_order;
use std::alloc::{AllocError, Global};

/// The report of a log and of the lines of its sessions, and the file of the cell that is left: those of one thread that runs the sessions'
/// scripts in the order of the log's entries. The memory of the lines and of the log is given back before the file takes its own.
pub(crate) fn work_of(
    alloc: Global,
    out: &str,
    book: Book,
    transcripts: Vec<Transcript>,
) -> Result<Work, AllocError>
    ensures { (scripts : List (List Command)) → AreInterleaved book.opening scripts book.entries
        → AreTranscripts book.opening book.entries 1 scripts transcripts.items
        → IfOk result (λ work. task_of work ≡ run_task book.opening out.now scripts (order_of_entries book.entries)) }
{
    a_history_has_the_report_of_its_order();
    let mut text = Vec::new(alloc);
    print_report(alloc, &book, &transcripts, &mut text)?;
    drop(transcripts);
    let export = Export::of_bench(alloc, book.into_bench(), out)?;
    Ok(Work {
        text,
        export: Some(export),
    })
}
