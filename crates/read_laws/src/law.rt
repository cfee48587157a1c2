//! Each law is the contract of a function that does nothing.

ghost use Rattle.read_laws.specs.{FindingsAscend.{FindingsAscend}, FindingsFollowReads.{FindingsFollowReads}};

/// The findings of a subject ascend by the number of their kind, then by their numbers, and none stands twice. So the order of a
/// cell's findings is that of their subjects, and within a subject this one.
pub fn findings_ascend()
    ensures { FindingsAscend }
{}

/// Two cells that answer alike to each key of a subject's read set in the first give the subject the same findings and the
/// same read set.
pub fn findings_follow_reads()
    ensures { FindingsFollowReads }
{}
