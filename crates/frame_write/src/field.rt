//! What is written, and why it was not.

/// A field to write: its tag, and its bytes with their terminator.
#[derive(Debug, Drop)]
pub struct OutField {
    pub tag: [u8; 4],
    pub bytes: Vec<u8>,
}

/// Which leader a record has.
#[derive(Clone, Copy, Debug, PartialEq, Eq)]
pub enum LeaderKind {
    /// That of the data descriptive record, the first of its file.
    Ddr,
    /// That of a data record.
    Dr,
}

/// Why a record was not written.
#[derive(Clone, Copy, Debug, PartialEq, Eq)]
pub enum WriteRefusal {
    /// The record would have more than 99,999 bytes.
    TooLong,
    /// Out of memory.
    NoMemory,
}
