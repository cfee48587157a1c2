//! Update instructions and control fields.

/// What an update does: to a record, by RUIN, or to the rows of a list, by a control field (S-57 Part 3, 8.4.2).
#[derive(Clone, Copy, Debug, PartialEq, Eq)]
pub enum Instruction {
    Insert,
    Delete,
    Modify,
}

/// A control field of an update record, by its tag (S-57 Part 3, 8.4.2 and 8.4.3).
#[derive(Clone, Copy, Debug, PartialEq, Eq)]
pub enum ControlTag {
    /// VRPC, of the vector record pointers VRPT.
    Vrpc,
    /// SGCC, of the coordinates SG2D or SG3D.
    Sgcc,
    /// FFPC, of the feature object pointers FFPT.
    Ffpc,
    /// FSPC, of the spatial record pointers FSPT.
    Fspc,
}

/// What a control field holds: the instruction (VPUI, CCUI, FFUI or FSUI), the place of the first row, from 1 (VPIX, CCIX, FFIX or
/// FSIX), and the number of rows (NVPT, CCNC, NFPT or NSPT).
#[derive(Clone, Copy, Debug, PartialEq, Eq)]
pub struct Control {
    pub instruction: u8,
    pub index: u16,
    pub count: u16,
}
