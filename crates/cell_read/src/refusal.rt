//! Why a record or a file was not read.

ghost use Rattle.std.specs.Prelude.{◌≡◌};
ghost use Rattle.file_spec.specs.RecordFaults.{of_frame};
ghost use Rattle.cell_read.specs.Gives.{refusal_at};
ghost use Rattle.cell_read.specs.declared.refusal.RecordRefusal.TheVariants.{Fault, NoMemory};

use file_spec::RecordFault;
use iso_frame::FrameFault;
use s57_fields::FieldRefusal;
use s57_types::CellFault;
use std::alloc::AllocError;

/// What the fault of a frame makes of its record.
pub fn fault_of_frame(fault: FrameFault) -> RecordFault
    ensures { result ≡ of_frame fault }
{
    match fault {
        FrameFault::Short => RecordFault::Short,
        FrameFault::BadLeader => RecordFault::BadLeader,
        FrameFault::BadDirectory => RecordFault::BadDirectory,
    }
}

/// Why a record was not read.
#[derive(Clone, Copy, Debug, PartialEq, Eq)]
pub enum RecordRefusal {
    /// The first fault of the record.
    Fault(RecordFault),
    /// Out of memory.
    NoMemory,
}

/// Why a file was not read.
#[derive(Clone, Copy, Debug, PartialEq, Eq)]
pub enum ReadRefusal {
    /// The first fault of the file.
    Fault(CellFault),
    /// Out of memory.
    NoMemory,
}

impl RecordRefusal {
    /// The refusal of a file in which the record of this number, which begins at this place, was refused.
    pub fn at(self, number: u32, offset: u32) -> ReadRefusal
        ensures { result ≡ refusal_at number offset self }
    {
        match self {
            RecordRefusal::Fault(fault) => ReadRefusal::Fault(CellFault {
                number,
                offset,
                code: fault.code(),
            }),
            RecordRefusal::NoMemory => ReadRefusal::NoMemory,
        }
    }
}

impl From<AllocError> for RecordRefusal {
    ghost from_gives = { λ _ e. e ≡ NoMemory };

    fn from(_error: AllocError) -> RecordRefusal {
        RecordRefusal::NoMemory
    }
}

impl From<RecordFault> for RecordRefusal {
    ghost from_gives = { λ fault e. e ≡ Fault fault };

    fn from(fault: RecordFault) -> RecordRefusal {
        RecordRefusal::Fault(fault)
    }
}

impl From<FrameFault> for RecordRefusal {
    ghost from_gives = { λ fault e. e ≡ Fault (of_frame fault) };

    fn from(fault: FrameFault) -> RecordRefusal {
        RecordRefusal::Fault(fault_of_frame(fault))
    }
}

impl From<FieldRefusal> for RecordRefusal {
    ghost use Rattle.cell_read.specs.Gives.{refusal_of_field};

    ghost from_gives = { λ refusal e. e ≡ refusal_of_field refusal };

    fn from(refusal: FieldRefusal) -> RecordRefusal {
        match refusal {
            FieldRefusal::BadField => RecordRefusal::Fault(RecordFault::BadField),
            FieldRefusal::BadText => RecordRefusal::Fault(RecordFault::BadText),
            FieldRefusal::NoMemory => RecordRefusal::NoMemory,
        }
    }
}
