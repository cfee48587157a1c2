//! Why a journal isn't opened, and why a commit isn't kept.

ghost use Rattle.std.specs.Prelude.{◌≡◌};

use commit_book::{BookRefusal, LoadRefusal};
use crash_disk::DiskFailed;
use std::alloc::AllocError;

/// Why a journal isn't opened.
#[derive(Clone, Copy, Debug, PartialEq, Eq)]
pub enum OpenRefusal {
    /// The entry at this place of the file, from 0, is damaged.
    BadJournal(u64),
    /// A call of the disk failed.
    DiskFault,
    /// It has so many commits, which is over the limit.
    JournalFull(u64),
    /// The cell has more findings than the limit.
    FindingsFull,
    NoMemory,
}

impl From<AllocError> for OpenRefusal {
    ghost use Rattle.book_journal.specs.declared.refusal.OpenRefusal.TheVariants.{NoMemory};

    ghost from_gives = { λ _ refusal. refusal ≡ NoMemory };

    fn from(_error: AllocError) -> OpenRefusal {
        OpenRefusal::NoMemory
    }
}

impl From<DiskFailed> for OpenRefusal {
    ghost use Rattle.book_journal.specs.declared.refusal.OpenRefusal.TheVariants.{DiskFault};

    ghost from_gives = { λ _ refusal. refusal ≡ DiskFault };

    fn from(_failed: DiskFailed) -> OpenRefusal {
        OpenRefusal::DiskFault
    }
}

impl From<LoadRefusal> for OpenRefusal {
    ghost use Rattle.book_journal.specs.Refusals.{open_refusal_of};

    ghost from_gives = { λ why refusal. refusal ≡ open_refusal_of why };

    fn from(why: LoadRefusal) -> OpenRefusal {
        match why {
            LoadRefusal::FindingsFull => OpenRefusal::FindingsFull,
            LoadRefusal::NoMemory => OpenRefusal::NoMemory,
        }
    }
}

/// Why a commit isn't kept.
#[derive(Clone, Copy, Debug, PartialEq, Eq)]
pub enum KeepRefusal {
    /// A call of the disk failed. The book has the commit, and the journal is to be opened again.
    DiskFault,
    /// An earlier call of this journal ended in a fault of the disk.
    Broken,
    /// The text of the edits has so many bytes, which is over the limit.
    EntryTooLong(u64),
    /// The book has as many entries as it may have.
    LogFull,
    NoMemory,
}

impl From<AllocError> for KeepRefusal {
    ghost use Rattle.book_journal.specs.declared.refusal.KeepRefusal.TheVariants.{NoMemory};

    ghost from_gives = { λ _ refusal. refusal ≡ NoMemory };

    fn from(_error: AllocError) -> KeepRefusal {
        KeepRefusal::NoMemory
    }
}

impl From<BookRefusal> for KeepRefusal {
    ghost use Rattle.book_journal.specs.Refusals.{keep_refusal_of};

    ghost from_gives = { λ why refusal. refusal ≡ keep_refusal_of why };

    fn from(why: BookRefusal) -> KeepRefusal {
        match why {
            BookRefusal::LogFull => KeepRefusal::LogFull,
            BookRefusal::NoMemory => KeepRefusal::NoMemory,
        }
    }
}
