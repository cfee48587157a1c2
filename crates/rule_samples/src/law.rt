//! The definitions, evaluated on small cells: each law is the contract of a function that does nothing.

ghost use Rattle.rule_samples.specs.Expected.{AreFoundAs, vector_samples, pair_samples, feature_samples, side_samples, PlacedNodesCount};
ghost use Rattle.rule_samples.specs.Tables.{CodesFitTheTable, CoverageIsSaid, BoundariesPartition, TilesDecideCandidates};
ghost use Rattle.rule_samples.specs.Changes.{EditsKeepPlaces, ReadsAreAsListed, TouchedAreAsListed, AffectedAreAsListed, AffectedAreTheSet};
ghost use Rattle.rule_samples.specs.Changes.{HeadEditsAffectFeatures, RowsAreAsListed};

/// In each sample cell the rules find what stands beside it.
pub fn samples_are_judged()
    ensures vectors { AreFoundAs vector_samples }
    ensures pairs { AreFoundAs pair_samples }
    ensures features { AreFoundAs feature_samples }
    ensures sides { AreFoundAs side_samples }
    ensures one_place { PlacedNodesCount }
{}

/// The indicators that a spatial pointer may have, and what makes a coverage area.
pub fn codes_fit_the_table()
    ensures codes { CodesFitTheTable }
    ensures coverage { CoverageIsSaid }
{}

/// Where boundaries are cut into loops, and where they are open.
pub fn boundaries_partition()
    ensures { BoundariesPartition }
{}

/// Which nodes and edges may touch.
pub fn tiles_decide_candidates()
    ensures { TilesDecideCandidates }
{}

/// What edits make of a cell, and which subjects are judged anew after them.
pub fn changes_are_judged()
    ensures places { EditsKeepPlaces }
    ensures reads { ReadsAreAsListed }
    ensures touched { TouchedAreAsListed }
    ensures affected { AffectedAreAsListed }
    ensures members { AffectedAreTheSet }
    ensures head { HeadEditsAffectFeatures }
    ensures rows { RowsAreAsListed }
{}
