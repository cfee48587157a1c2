//! How many sides are unbalanced.

ghost use Rattle.std.specs.Prelude.{◌≡◌, ◌≤◌, count_by, sum_by};
ghost use Rattle.history_spec.specs.Steps.{finding_limit};
ghost use Rattle.skin_probe.specs.Totals.{is_unbalanced, unbalanced_in as unbalanced_in_row};
ghost use Rattle.text_spec.specs.CellText.{total_of};

use cell_spec::{Finding, Findings, Subject};
use rule_spec::SIDE_UNBALANCED;
use shared_table::{Shared, SharedTable};

fn unbalanced_in(findings: &[Finding]) -> usize
    ensures { result ≡ count_by is_unbalanced findings.now }
{
    findings
        .iter()
        .filter(|finding| finding.kind == SIDE_UNBALANCED)
        .count()
}

/// How many findings SideUnbalanced a table of findings has.
pub(crate) fn unbalanced_sides(table: &SharedTable<Subject, Shared<Findings>>) -> u32
    requires { total_of table.now ≤ finding_limit }
    ensures { result ≡ sum_by unbalanced_in_row table.now }
{
    let mut count = 0;
    for row in table.rows() {
        count += unbalanced_in(row.1.as_slice());
    }
    count as u32
}
