//! The law is the contract of a function that does nothing.

ghost use Rattle.ring_build.specs.Partition.{ComputedCutIsOnly};

/// The loops and the open place that the boundary rules compute of any list of pieces are its partition into closed loops, one after
/// the other, as far as it goes, and no list has two (S-57 Appendix B.1, 3.8).
pub fn computed_cut_is_only()
    ensures { ComputedCutIsOnly }
{}
