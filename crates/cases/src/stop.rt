//! Why a run of a case stops.

use std::alloc::{AllocError, AllocFailed, Global};

/// Why a run of a case stops before its end.
#[derive(Debug, Drop)]
pub enum Stop {
    /// Out of memory.
    NoMemory,
    /// What differs, or what a line lacks, in words.
    Differs(String),
}

impl Stop {
    /// A stop with these words.
    pub fn of(alloc: Global, words: &str) -> Stop {
        match String::from_str(alloc, words) {
            Ok(words) => Stop::Differs(words),
            Err(_) => Stop::NoMemory,
        }
    }

    /// A stop at a line that has no meaning.
    pub fn at_line(alloc: Global, why: &str, line: &str) -> Stop {
        match format!(in alloc; "{why}: {line}") {
            Ok(words) => Stop::Differs(words),
            Err(_) => Stop::NoMemory,
        }
    }
}

impl From<AllocError> for Stop {
    fn from(_error: AllocError) -> Stop {
        Stop::NoMemory
    }
}

impl<T: Drop> From<AllocFailed<T>> for Stop {
    fn from(_error: AllocFailed<T>) -> Stop {
        Stop::NoMemory
    }
}
