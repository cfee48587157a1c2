//! Why a cell file or a record is refused.

/// The first fault of a cell file: the number of the record from 1 (the data descriptive record is 1), the place
/// where the record begins from 0, and the code of the fault.
#[derive(Clone, Copy, Debug, PartialEq, Eq)]
pub struct CellFault {
    pub number: u32,
    pub offset: u32,
    pub code: u8,
}

/// Why a record can't be written.
#[derive(Clone, Copy, Debug, PartialEq, Eq)]
pub enum Unfit {
    /// The written record would exceed 99,999 bytes.
    TooLong,
    /// A text holds a control byte of the format.
    BadText,
    /// The record or one of its pointers has a name of the wrong kind.
    BadName,
}
