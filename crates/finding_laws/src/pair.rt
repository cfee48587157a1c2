//! Laws of pairs. Each law is the contract of a function that does nothing.

ghost use Rattle.finding_laws.specs.Pairs.{ApartPairsAreClean, FoundPairsAreCandidates};

use geometry_spec::tiles_are_floors;

/// Two connected nodes or edges that are no candidates, because they share no tile and neither is oversized, or because one
/// of them has no segments, have no finding together.
pub fn found_pairs_are_candidates()
    ensures { FoundPairsAreCandidates }
{
    tiles_are_floors();
}

/// Two connected nodes or edges whose extents have no point in common have no finding together.
pub fn apart_pairs_are_clean()
    ensures { ApartPairsAreClean }
{}
