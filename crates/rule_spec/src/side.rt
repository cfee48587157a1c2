//! The uses that features make of an edge.

use cell_spec::Ref;

/// A use of an edge by a feature: the pointer, what kind of area the feature is, and the pointer's orientation and
/// usage indicators (ORNT, USAG).
#[derive(Clone, Copy, Debug, PartialEq, Eq)]
pub struct EdgeUse {
    pub pointer: Ref,
    pub is_area: bool,
    pub is_group1: bool,
    pub is_coverage: bool,
    pub ornt: u8,
    pub usag: u8,
}

/// How often Group 1 areas and coverage areas use an edge forward (ORNT 1) and in reverse (ORNT 2).
#[derive(Clone, Copy, Debug, PartialEq, Eq)]
pub struct EdgeSideCounts {
    pub group1_forward: u32,
    pub group1_reverse: u32,
    pub coverage_forward: u32,
    pub coverage_reverse: u32,
}
