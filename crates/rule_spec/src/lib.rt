//! The rules of a chart cell and their findings, as definitions on the whole cell.
#![tactic(auto)]

mod kind;
mod line;
mod side;

pub use kind::{
    BAD_CODES, BAD_LEVEL, BAD_SHAPE, COINCIDE, CROSS, DANGLING_END, DANGLING_FEATURE, DANGLING_REF,
    END_COUNT, FALSE_TRUNCATION, MIXED_RING, NODE_ON_EDGE, NODE_POINTER, OPEN_RING, ORPHAN,
    OUTER_COUNT, PRIM_REFS, SAME_PLACE, SELF_MEET, SIDE_OVERLAP, SIDE_UNBALANCED, STACKED, TOUCH,
    TWICE_FOID, WRONG_GROUP, WRONG_TURN, kind_name, number_count,
};
pub use line::{BoundaryRow, EdgeLine};
pub use side::{EdgeSideCounts, EdgeUse};
