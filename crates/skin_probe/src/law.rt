//! Laws of winding numbers, each the contract of a function that does nothing.

ghost use Rattle.skin_probe.specs.WindingLaws.{BalancedSidesEqualWinding, WindingSumByEdges};

use finding_laws::listed_tables_are_right;

/// The sum of the winding numbers of the areas of Group 1 round a point is a sum over the edges of the cell: how much more often such areas
/// use the edge forward than in reverse, times the edge's own part. So is the sum over the areas of the coverage.
pub fn winding_sum_by_edges()
    ensures { WindingSumByEdges }
{}

/// Where no side is unbalanced, Group 1 and the coverage go round each point equally often.
pub fn balanced_sides_equal_winding()
    ensures { BalancedSidesEqualWinding }
{
    listed_tables_are_right();
    winding_sum_by_edges();
}
