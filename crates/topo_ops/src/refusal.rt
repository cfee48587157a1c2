//! Why edges aren't split or joined.

ghost use Rattle.std.specs.Prelude.{◌≡◌};
ghost use Rattle.topo_ops.specs.Refusals.{number_of};

use edit_sets::{FormFault, FormRefusal};
use s57_types::RecName;
use std::alloc::AllocError;

/// Why an edge isn't split, or why two edges aren't joined. Places count from 1.
#[derive(Clone, Copy, Debug, PartialEq, Eq)]
pub enum OpRefusal {
    /// No edge has this number, or it has no points or not exactly two ends.
    NoEdge(u32),
    /// The edge has so many segments: it can be split from its second point to its last but one.
    BadPlace(u32),
    /// The cell has a record of this name, or a pointer that names it.
    NameTaken(RecName),
    /// The second edge doesn't begin where the first ends, or they are one.
    NotAChain,
    /// The node between the edges is named by this record at this place too.
    NodeUsed(RecName, u32),
    /// The edges' attributes differ, or the node between them has any.
    AttrsDiffer,
    /// The feature of this number names one of the edges at this place, and not both in a row.
    NotPaired(u32, u32),
    /// The version (RVER) of this record can't rise.
    VersionEnd(RecName),
    /// The edits are no edit set.
    Form(FormFault),
    NoMemory,
}

impl OpRefusal {
    /// The number of the cause, from 1 to 10.
    pub fn number(&self) -> u32
        ensures { result ≡ number_of self.now }
    {
        match self {
            OpRefusal::NoEdge(_) => 1,
            OpRefusal::BadPlace(_) => 2,
            OpRefusal::NameTaken(_) => 3,
            OpRefusal::VersionEnd(_) => 4,
            OpRefusal::Form(_) => 5,
            OpRefusal::NotAChain => 6,
            OpRefusal::NodeUsed(_, _) => 7,
            OpRefusal::AttrsDiffer => 8,
            OpRefusal::NoMemory => 9,
            OpRefusal::NotPaired(_, _) => 10,
        }
    }
}

impl From<AllocError> for OpRefusal {
    ghost use Rattle.topo_ops.specs.declared.refusal.OpRefusal.TheVariants.{NoMemory};

    ghost from_gives = { λ _ refusal. refusal ≡ NoMemory };

    fn from(_error: AllocError) -> OpRefusal {
        OpRefusal::NoMemory
    }
}

impl From<FormRefusal> for OpRefusal {
    ghost use Rattle.topo_ops.specs.Refusals.{refusal_of_form};

    ghost from_gives = { λ refusal result. result ≡ refusal_of_form refusal };

    fn from(refusal: FormRefusal) -> OpRefusal {
        match refusal {
            FormRefusal::Fault(fault) => OpRefusal::Form(fault),
            FormRefusal::NoMemory => OpRefusal::NoMemory,
        }
    }
}
