//! The check of a feature object identifier.

ghost use Rattle.std.specs.Prelude.{◌≡◌, ◌+◌, ◌*◌, ◌≤◌, IfOk, length};
ghost use Rattle.cell_spec.specs.declared.key.Subject.TheVariants.{Ident as SubjectIdent};
ghost use Rattle.cell_spec.specs.Lookup.{lookup_identity};
ghost use Rattle.rule_spec.specs.Findings.{findings_of_subject};
ghost use Rattle.rule_spec.specs.Reads.{read_set};
ghost use Rattle.s57_types.specs.declared.cell.Cell.{Cell as SpecCell};
ghost use Rattle.s57_types.specs.declared.name.Lnam.{Lnam as SpecLnam};

use cell_spec::{Finding, Findings, Key, Keys, Row, Subject, ascending_keys};
use chain_topo::{ListLook, Look, Steps};
use check_words::number;
use rule_spec::TWICE_FOID;
use s57_types::{Lnam, RecName};
use std::alloc::{AllocError, Global};
use std::sync::ledger::Ledger;

/// TwiceFoid: more than one feature bears the identifier.
#[tactic(auto, unfolding(rule_spec::specs::Findings::findings_of_subject))]
fn findings_of(alloc: Global, bearers: &[RecName]) -> Result<Findings, AllocError>
    ensures { (c : SpecCell) (l : SpecLnam) → bearers.now ≡ lookup_identity c l → IfOk result (λ findings. findings ≡ findings_of_subject c (SubjectIdent l)) }
{
    let count = number(bearers.len())?;
    let mut findings = Findings::make(alloc);
    if 1 < count {
        findings.push(Finding {
            kind: TWICE_FOID,
            nums: [count, 0, 0, 0],
        })?;
    }
    Ok(findings)
}

/// The read set of an identifier: its bearers.
#[tactic(auto, unfolding(rule_spec::specs::Reads::read_set))]
fn reads_of(alloc: Global, foid: Lnam) -> Result<Keys, AllocError>
    ensures { (c : SpecCell) → IfOk result (λ keys. keys ≡ read_set c (SubjectIdent foid)) }
{
    let keys = vec![in alloc; Key::Foid(foid)]?;
    Ok(ascending_keys(keys))
}

/// The findings about a feature object identifier in a cell that is looked into, as `verdict_ident` gives them. Their read set isn't made, and no
/// look-up is counted.
///
/// An `Err` means out of memory.
pub fn findings_of_ident(alloc: Global, look: &ListLook, foid: Lnam) -> Result<Findings, AllocError>
    ensures { IfOk result (λ findings. findings ≡ findings_of_subject look.now (SubjectIdent foid)) }
{
    findings_of(alloc, look.find_bearers(foid))
}

/// The findings about a feature object identifier, and their read set: its bearers. The kind is TwiceFoid, with the number
/// of features that bear it. An identifier that no feature bears gives no finding.
///
/// It makes at most four look-ups for each key of the read set. An `Err` means out of memory.
#[tactic(auto, unfolding(rule_spec::specs::Reads::read_set))]
pub fn verdict_ident<B: Look, L: Ledger>(
    alloc: Global,
    look: &B,
    foid: Lnam,
    steps: &mut Steps<L>,
) -> Result<Row, AllocError>
    ensures subject { IfOk result (λ row. row.subject ≡ SubjectIdent foid) }
    ensures findings { IfOk result (λ row. row.findings ≡ findings_of_subject (B.cell look.now) (SubjectIdent foid)) }
    ensures reads { IfOk result (λ row. row.reads ≡ read_set (B.cell look.now) (SubjectIdent foid)) }
    ensures steps { steps.new ≤ steps.old + 4 * length (read_set (B.cell look.now) (SubjectIdent foid)) }
{
    let bearers = look.bearers(foid, steps);
    let findings = findings_of(alloc, bearers)?;
    let reads = reads_of(alloc, foid)?;
    Ok(Row {
        subject: Subject::Ident(foid),
        findings,
        reads,
    })
}
