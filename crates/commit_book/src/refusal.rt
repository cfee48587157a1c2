//! Why nothing is entered.

ghost use Rattle.std.specs.Prelude.{◌≡◌};

use std::alloc::AllocError;

/// Why a book answers nothing and enters nothing.
#[derive(Clone, Copy, Debug, PartialEq, Eq)]
pub enum BookRefusal {
    /// It has as many entries as it may have.
    LogFull,
    /// Out of memory.
    NoMemory,
}

impl From<AllocError> for BookRefusal {
    ghost use Rattle.commit_book.specs.declared.refusal.BookRefusal.TheVariants.{NoMemory};

    ghost from_gives = { λ _ refusal. refusal ≡ NoMemory };

    fn from(_error: AllocError) -> BookRefusal {
        BookRefusal::NoMemory
    }
}
