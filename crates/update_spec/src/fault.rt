//! Why a record of an update file isn't taken.

ghost use Rattle.std.specs.Prelude.{◌≡◌};
ghost use Rattle.update_spec.specs.UpdateFaults.{update_code};

use file_spec::RecordFault;

/// A fault of a record of an update file.
#[derive(Clone, Copy, Debug, PartialEq, Eq)]
pub enum UpdateFault {
    /// A fault that a record of a cell file may have too.
    Record(RecordFault),
    /// The record is to be deleted or modified, and the cell has none of its name.
    NoTarget,
    /// The record is to be inserted, and the cell has one of its name.
    TargetThere,
    /// The version RVER of a modified record isn't the next one.
    WrongVersion,
    /// The identifier FOID isn't that of the cell's feature.
    OtherIdentity,
    /// A control field has no rows to go by, rows have no control field, or a place or a number of rows is wrong.
    BadControl,
    /// National attributes are at another lexical level NALL than the cell's.
    LevelMix,
    /// The update is for another edition EDTN.
    WrongEdition,
    /// The update number UPDN isn't the next one.
    WrongUpdate,
    /// The update has more records than a set of edits.
    TooManyEdits,
}

impl UpdateFault {
    /// The code of the fault, from 1 to 23.
    pub fn code(self) -> u8
        ensures { result ≡ update_code self }
    {
        match self {
            UpdateFault::Record(fault) => fault.code(),
            UpdateFault::NoTarget => 15,
            UpdateFault::TargetThere => 16,
            UpdateFault::WrongVersion => 17,
            UpdateFault::OtherIdentity => 18,
            UpdateFault::BadControl => 19,
            UpdateFault::LevelMix => 20,
            UpdateFault::WrongEdition => 21,
            UpdateFault::WrongUpdate => 22,
            UpdateFault::TooManyEdits => 23,
        }
    }
}
