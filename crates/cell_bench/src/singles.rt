//! The subjects of a cell but its pairs, and what they read.

ghost use Rattle.std.specs.Prelude.{◌≡◌, ◌≤◌, ◌+◌, ◌*◌, ◌++◌, ◌||◌, IfOk, IsTrue, OnOk, length};
ghost use Rattle.cell_spec.specs.Ascending.{ascending};
ghost use Rattle.cell_spec.specs.Names.{subject_order};
ghost use Rattle.rule_spec.specs.Affected.{is_single};
ghost use Rattle.rule_spec.specs.Findings.{is_subject};
ghost use Rattle.rule_spec.specs.Reads.{read_set};
ghost use Rattle.cell_bench.specs.Singles.{reads_row as spec_reads_row, singles_among, singles_in, singles_of as spec_singles};

use cell_spec::{Key, Keys, Subject, orders_are_by_parts};
use chain_topo::{Look, Steps, distinct_by_keys, edge_of};
use s57_types::{Cell, Duplicate, Rec};
use std::alloc::{AllocError, Global};
use std::sync::ledger::Ledger;
use subject_rows::row_of;

// Appends a record, its side if it is an edge, and its identifier if it bears one.
fn push_singles(subjects: &mut Vec<Subject>, rec: &Rec) -> Result<(), AllocError>
    ensures { OnOk result (subjects.new.items ≡ subjects.old.items ++ spec_singles rec.now) }
{
    let name = rec.name();
    subjects.push(Subject::Rec(name))?;
    if edge_of(rec).is_some() {
        subjects.push(Subject::Side(name))?;
    }
    if let Rec::F(feature) = rec {
        subjects.push(Subject::Ident(feature.foid))?;
    }
    Ok(())
}

// Appends those of records.
fn push_all(subjects: &mut Vec<Subject>, recs: &[Rec]) -> Result<(), AllocError>
    ensures { OnOk result (subjects.new.items ≡ subjects.old.items ++ singles_among recs.now) }
{
    for rec in recs {
        push_singles(subjects, rec)?;
    }
    Ok(())
}

// The key that stands among keys where a subject stands among those that aren't pairs.
fn key_of(subject: Subject) -> Key {
    match subject {
        Subject::Rec(name) => Key::Name(name),
        Subject::Side(name) | Subject::Pair(name, _) => Key::Refs(name),
        Subject::Ident(foid) => Key::Foid(foid),
    }
}

// The records of a cell, the sides of its edges and the identifiers of its features, as they stand in its lists.
fn singles_listed(alloc: Global, cell: &Cell) -> Result<Vec<Subject>, AllocError>
    ensures { IfOk result (λ subjects. subjects.items ≡ singles_in cell.now) }
{
    let mut subjects = Vec::new(alloc);
    push_all(&mut subjects, cell.vi.as_slice())?;
    push_all(&mut subjects, cell.vc.as_slice())?;
    push_all(&mut subjects, cell.ve.as_slice())?;
    push_all(&mut subjects, cell.fe.as_slice())?;
    Ok(subjects)
}

/// The records of a cell, the sides of its edges and the identifiers of its features, ascending, each once. They are put in likely order
/// before they are sorted.
///
/// An `Err` means out of memory.
pub fn singles_of(alloc: Global, cell: &Cell) -> Result<Vec<Subject>, AllocError>
    ensures { IfOk result (λ subjects. subjects.items ≡ ascending subject_order (singles_in cell.now)) }
{
    orders_are_by_parts();
    let subjects = singles_listed(alloc, cell)?;
    let keys: Vec<Key> = subjects
        .iter()
        .map(|subject| key_of(*subject))
        .collect(alloc)?;
    Ok(distinct_by_keys(alloc, subjects, &keys)?)
}

/// A record, a side, an identifier, or a pair of the cell, with its read set. It looks up at most four times as often as that has keys.
///
/// An `Err` means out of memory.
pub fn reads_row<B: Look, L: Ledger>(
    alloc: Global,
    look: &B,
    subject: Subject,
    steps: &mut Steps<L>,
) -> Result<(Subject, Keys), AllocError>
    requires { IsTrue (is_single subject || is_subject (B.cell look.now) subject) }
    ensures row { IfOk result (λ row. row ≡ spec_reads_row (B.cell look.now) subject) }
    ensures steps { steps.new ≤ steps.old + 4 * length (read_set (B.cell look.now) subject) }
{
    let row = row_of(alloc, look, subject, steps)?;
    // A copy has no more memory than its keys need: they stay as long as a bench.
    Ok((subject, row.reads.copy(alloc)?))
}
