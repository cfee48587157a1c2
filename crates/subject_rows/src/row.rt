//! The row of a subject.

ghost use Rattle.std.specs.Prelude.{◌≡◌, ◌+◌, ◌*◌, ◌≤◌, ◌||◌, IfOk, IsTrue, length};
ghost use Rattle.rule_spec.specs.Affected.{exact_row, is_single};
ghost use Rattle.rule_spec.specs.Findings.{is_subject};
ghost use Rattle.rule_spec.specs.Reads.{read_set};

use cell_spec::{Row, Subject};
use chain_topo::{Look, Steps};
use check_group1::{verdict_ident, verdict_side};
use check_pairs::verdict_pair;
use check_record::verdict_rec;
use std::alloc::{AllocError, Global};
use std::sync::ledger::Ledger;

/// The row of a record, a side, an identifier, or a pair of the cell: its findings, ascending by kind and numbers, and its
/// read set, ascending. A record, a side or an identifier that the cell lacks has no finding.
///
/// It makes at most four look-ups for each key of the read set. An `Err` means out of memory.
pub fn row_of<B: Look, L: Ledger>(
    alloc: Global,
    look: &B,
    subject: Subject,
    steps: &mut Steps<L>,
) -> Result<Row, AllocError>
    requires { IsTrue (is_single subject || is_subject (B.cell look.now) subject) }
    ensures row { IfOk result (λ row. row ≡ exact_row (B.cell look.now) subject) }
    ensures steps { steps.new ≤ steps.old + 4 * length (read_set (B.cell look.now) subject) }
{
    match subject {
        Subject::Rec(name) => verdict_rec(alloc, look, name, steps),
        Subject::Side(edge) => verdict_side(alloc, look, edge, steps),
        Subject::Pair(first, second) => verdict_pair(alloc, look, first, second, steps),
        Subject::Ident(foid) => verdict_ident(alloc, look, foid, steps),
    }
}
