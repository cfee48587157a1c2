//! Why an update file was not read.

ghost use Rattle.std.specs.Prelude.{◌≡◌};
ghost use Rattle.update_apply.specs.Gives.{refusal_at};
ghost use Rattle.update_apply.specs.declared.refusal.StepRefusal.TheVariants.{Fault, NoMemory};

use cell_read::fault_of_frame;
use file_spec::RecordFault;
use iso_frame::FrameFault;
use s57_types::CellFault;
use std::alloc::AllocError;
use update_spec::UpdateFault;

/// Why a record of an update file was not read.
#[derive(Clone, Copy)]
pub enum StepRefusal {
    /// The first fault of the record.
    Fault(UpdateFault),
    /// Out of memory.
    NoMemory,
}

/// Why an update file was not read.
#[derive(Clone, Copy, Debug, PartialEq, Eq)]
pub enum UpdateRefusal {
    /// The first fault of the file.
    Fault(CellFault),
    /// Out of memory.
    NoMemory,
}

impl StepRefusal {
    /// The refusal of a file in which the record of this number, which begins at this place, was refused.
    pub fn at(self, number: u32, offset: u32) -> UpdateRefusal
        ensures { result ≡ refusal_at number offset self }
    {
        match self {
            StepRefusal::Fault(fault) => UpdateRefusal::Fault(CellFault {
                number,
                offset,
                code: fault.code(),
            }),
            StepRefusal::NoMemory => UpdateRefusal::NoMemory,
        }
    }
}

impl From<AllocError> for StepRefusal {
    ghost from_gives = { λ _ refusal. refusal ≡ NoMemory };

    fn from(_error: AllocError) -> StepRefusal {
        StepRefusal::NoMemory
    }
}

impl From<UpdateFault> for StepRefusal {
    ghost from_gives = { λ fault refusal. refusal ≡ Fault fault };

    fn from(fault: UpdateFault) -> StepRefusal {
        StepRefusal::Fault(fault)
    }
}

impl From<RecordFault> for StepRefusal {
    ghost use Rattle.update_spec.specs.declared.fault.UpdateFault.TheVariants.{Record};

    ghost from_gives = { λ fault refusal. refusal ≡ Fault (Record fault) };

    fn from(fault: RecordFault) -> StepRefusal {
        StepRefusal::Fault(UpdateFault::Record(fault))
    }
}

impl From<FrameFault> for StepRefusal {
    ghost use Rattle.file_spec.specs.RecordFaults.{of_frame};
    ghost use Rattle.update_spec.specs.declared.fault.UpdateFault.TheVariants.{Record};

    ghost from_gives = { λ fault refusal. refusal ≡ Fault (Record (of_frame fault)) };

    fn from(fault: FrameFault) -> StepRefusal {
        StepRefusal::Fault(UpdateFault::Record(fault_of_frame(fault)))
    }
}

impl From<AllocError> for UpdateRefusal {
    ghost use Rattle.update_apply.specs.declared.refusal.UpdateRefusal.TheVariants.{NoMemory as NoRoom};

    ghost from_gives = { λ _ refusal. refusal ≡ NoRoom };

    fn from(_error: AllocError) -> UpdateRefusal {
        UpdateRefusal::NoMemory
    }
}
