//! Whether an answer accepts a commit.

ghost use Rattle.std.specs.Prelude.{MatchBool};
ghost use Rattle.commit_book.specs.Books.{LeavesCommits};
ghost use Rattle.book_journal.specs.Journals.{IsAcceptance};

use commit_book::Reply;

/// Whether an answer accepts a commit. Every other answer leaves the commits as they are.
pub(crate) fn is_accepted(reply: &Reply) -> bool
    ensures { MatchBool result (IsAcceptance reply.now) (LeavesCommits reply.now) }
{
    matches!(reply, Reply::Accepted { .. })
}
