//! How many ends an edge has (S-57 Part 2, 2.2.1.2; Part 3, 7.7.1.4).

ghost use Rattle.std.specs.Prelude.{◌≡◌, ◌++◌, OnOk, map};
ghost use Rattle.s57_types.specs.declared.cell.Cell.{Cell as SpecCell};
ghost use Rattle.rule_spec.specs.declared.kind.TheConstants.{END_COUNT};
ghost use Rattle.rule_spec.specs.EdgeEnds.{end_count, topi_count as spec_topi_count};
ghost use Rattle.rule_spec.specs.Findings.{finding};

use cell_spec::Finding;
use check_words::{BEGINNING_NODE, END_NODE, number};
use rule_spec::END_COUNT;
use s57_types::Vector;
use std::alloc::AllocError;

fn topi_count(topi: u8, edge: &Vector) -> usize
    ensures { result ≡ spec_topi_count topi edge.now }
{
    edge.ends
        .as_slice()
        .iter()
        .filter(|end| end.topi == topi)
        .count()
}

/// EndCount: appends its finding about an edge.
pub(crate) fn push_end_count(findings: &mut Vec<Finding>, edge: &Vector) -> Result<(), AllocError>
    ensures { (c : SpecCell) → OnOk result (findings.new.items ≡ findings.old.items ++ map (finding END_COUNT) (end_count c edge.now)) }
{
    let begins = number(topi_count(BEGINNING_NODE, edge))?;
    let ends = number(topi_count(END_NODE, edge))?;
    let all = number(edge.ends.len())?;
    if begins != 1 || ends != 1 || all != 2 {
        findings.push(Finding {
            kind: END_COUNT,
            nums: [begins, ends, all, 0],
        })?;
    }
    Ok(())
}
