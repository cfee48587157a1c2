//! Why a record of a cell file isn't taken.

ghost use Rattle.std.specs.Prelude.{◌≡◌};
ghost use Rattle.file_spec.specs.RecordFaults.{code_of};

/// A fault of a record of a cell file.
#[derive(Clone, Copy, Debug, PartialEq, Eq)]
pub enum RecordFault {
    /// Fewer bytes are left than the record takes.
    Short,
    /// The leader isn't one.
    BadLeader,
    /// The directory isn't one.
    BadDirectory,
    /// The bytes of a field aren't its subfields or whole rows and its terminator.
    BadField,
    /// There is no field but the record identifier, or a field that must be there isn't.
    MissingField,
    /// A field stands twice that may stand once.
    RepeatedField,
    /// A field of this tag may not stand here.
    ForeignTag,
    /// The data set, or the record, isn't new.
    NotBase,
    /// The data set isn't a chain-node one.
    NotChainNode,
    /// An earlier record has this name.
    TwiceName,
    /// A head record is missing in its place, or stands where none may.
    HeadOrder,
    /// A control byte of the format stands in a text.
    BadText,
    /// The record, written again, would exceed 99,999 bytes.
    TooLong,
    /// The cell has as many records as it may have.
    TooMany,
}

impl RecordFault {
    /// The code of the fault, from 1 to 14.
    pub fn code(self) -> u8
        ensures { result ≡ code_of self }
    {
        match self {
            RecordFault::Short => 1,
            RecordFault::BadLeader => 2,
            RecordFault::BadDirectory => 3,
            RecordFault::BadField => 4,
            RecordFault::MissingField => 5,
            RecordFault::RepeatedField => 6,
            RecordFault::ForeignTag => 7,
            RecordFault::NotBase => 8,
            RecordFault::NotChainNode => 9,
            RecordFault::TwiceName => 10,
            RecordFault::HeadOrder => 11,
            RecordFault::BadText => 12,
            RecordFault::TooLong => 13,
            RecordFault::TooMany => 14,
        }
    }
}
