//! What is counted at the end of a drill.

ghost use Rattle.std.specs.Prelude.{◌≡◌, ◌≤◌, List, count_by, length};
ghost use Rattle.commit_book.specs.Books.{entry_limit};
ghost use Rattle.history_spec.specs.Entries.{AreInterleaved, order_of_entries};
ghost use Rattle.text_spec.specs.declared.command.Command.{Command};
ghost use Rattle.drill_run.specs.Drills.{counts_of_run, is_refusal as is_refusal_of, is_refused_entry};

use commit_book::Book;
use history_spec::{Brief, Entry};
use room_laws::entries_are_a_run;

/// How many commits were accepted and how many refused, and how many findings are left.
#[derive(Clone, Copy, Debug, PartialEq, Eq)]
pub struct Drilled {
    pub accepted: u32,
    pub refused: u32,
    pub findings: u32,
}

/// Whether an answer refuses a commit.
fn is_refusal(brief: &Brief) -> bool
    ensures { result ≡ is_refusal_of brief.now }
{
    match brief {
        Brief::Formed(_) | Brief::Newer { .. } | Brief::Refused(_) => true,
        Brief::Viewed { .. } | Brief::Accepted { .. } => false,
    }
}

/// How many commits were refused.
fn count_refusals(entries: &[Entry]) -> u32
    requires { length entries.now ≤ entry_limit }
    ensures { result ≡ count_by is_refused_entry entries.now }
{
    let mut count = 0;
    for entry in entries {
        if is_refusal(&entry.brief) {
            count += 1;
        }
    }
    count
}

/// The counts of a log: those of the run of the scripts whose entries it has, in the order of the entries.
pub(crate) fn counts_of(book: &Book) -> Drilled
    ensures { (scripts : List (List Command)) → AreInterleaved book.now.opening scripts book.now.entries
        → result ≡ counts_of_run book.now.opening scripts (order_of_entries book.now.entries) }
{
    entries_are_a_run();
    book.known();
    Drilled {
        accepted: book.commits(),
        refused: count_refusals(book.entries()),
        findings: book.bench().finding_count(),
    }
}
