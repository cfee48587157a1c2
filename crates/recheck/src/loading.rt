//! The bench of a whole cell, of which several threads judge all.

ghost use Rattle.std.specs.Prelude.{◌≡◌, ◌||◌, ◌<◌, All, IfOk, IsTrue, MatchResult, map};
ghost use Rattle.cell_bench.specs.{Benches.{IsLoadRefusal, IsLoaded}, Singles.{reads_row as spec_reads_row, singles_in}};
ghost use Rattle.cell_spec.specs.{Ascending.{ascending}, Names.{subject_order}, Writable.{IsWritable}};
ghost use Rattle.rule_spec.specs.{Affected.{is_single}, Findings.{is_subject}};

use crate::judging::FEWEST;
use cell_bench::{Bench, FINDING_LIMIT, LoadRefusal, reads_row, singles_of};
use cell_findings::{each_in_threads, find_all_in_threads};
use cell_spec::{Keys, Subject, writable_cells_are_readable};
use chain_topo::ListLook;
use look_counter::start_counter;
use s57_types::Cell;
use std::alloc::{AllocError, Global};
use std::marker::Brand;
use std::sync::ledger::{Blank, Ledger};
use std::thread::Threads;

/// A subject with its read set, with the look-ups counted.
fn counted<L: Ledger>(
    alloc: Global,
    look: &ListLook,
    subject: Subject,
    blank: Blank,
) -> Result<(Subject, Keys), AllocError>
    requires subject { IsTrue (is_single subject || is_subject look.now subject) }
    requires name { blank.name ≡ L.name }
    requires parts { blank.parts ≡ L.parts }
    requires some_part { 0 < L.parts }
    ensures { IfOk result (λ row. row ≡ spec_reads_row look.now subject) }
{
    let mut steps = start_counter::<L>(blank);
    reads_row(alloc, look, subject, &mut steps)
}

/// A subject with its read set. It has a counter of its own, since nobody asks how many look-ups a load makes.
fn read(alloc: Global, look: &ListLook, subject: Subject) -> Result<(Subject, Keys), AllocError>
    requires { IsTrue (is_single subject || is_subject look.now subject) }
    ensures { IfOk result (λ row. row ≡ spec_reads_row look.now subject) }
{
    counted::<Brand>(alloc, look, subject, Blank::new(1))
}

/// Subjects with their read sets, in their order. Threads share them where there are many.
fn rows_read<R: Threads + Sync>(
    rt: &R,
    alloc: Global,
    look: &ListLook,
    subjects: &[Subject],
) -> Result<Vec<(Subject, Keys)>, AllocError>
    requires subjects { All (λ s. IsTrue (is_single s || is_subject look.now s)) subjects.now }
    ensures { IfOk result (λ rows. rows.items ≡ map (spec_reads_row look.now) subjects.now) }
{
    let rows = each_in_threads(
        rt,
        alloc,
        FEWEST,
        subjects,
        |subject: &Subject| -> Result<(Subject, Keys), AllocError>
            requires { IsTrue (is_single subject.now || is_subject look.now subject.now) }
            ensures { IfOk result (λ row. row ≡ spec_reads_row look.entry.now subject.now) }
        { read(alloc, look, *subject) },
    )?;
    Ok(rows)
}

/// The read sets of a cell's records, sides and identifiers.
fn reads_of<R: Threads + Sync>(
    rt: &R,
    alloc: Global,
    cell: &Cell,
) -> Result<Vec<(Subject, Keys)>, AllocError>
    requires { IsWritable cell.now }
    ensures { IfOk result (λ rows. rows.items ≡ map (spec_reads_row cell.now) (ascending subject_order (singles_in cell.now))) }
{
    writable_cells_are_readable();
    let look = ListLook::make(alloc, cell)?;
    let subjects = singles_of(alloc, cell)?;
    rows_read(rt, alloc, &look, &subjects)
}

/// The bench of a writable cell, with the look-ups counted that its indexes take.
fn load_counted<R: Threads + Sync, L: Ledger>(
    rt: &R,
    alloc: Global,
    cell: Cell,
    blank: Blank,
) -> Result<Bench, LoadRefusal>
    requires writable { IsWritable cell }
    requires name { blank.name ≡ L.name }
    requires parts { blank.parts ≡ L.parts }
    requires some_part { 0 < L.parts }
    ensures { MatchResult result (IsLoaded cell) (IsLoadRefusal cell) }
{
    let mut steps = start_counter::<L>(blank);
    let findings = find_all_in_threads(rt, alloc, &cell, FINDING_LIMIT)?;
    let reads = reads_of(rt, alloc, &cell)?;
    Ok(Bench::of_judged(alloc, cell, &findings, reads, &mut steps)?)
}

/// The bench of a writable cell, as `Bench::load` gives it, where threads share the judging.
///
/// An `Err` says that the cell has more findings than the limit, or is out of memory.
pub fn load<R: Threads + Sync>(rt: &R, alloc: Global, cell: Cell) -> Result<Bench, LoadRefusal>
    requires { IsWritable cell }
    ensures { MatchResult result (IsLoaded cell) (IsLoadRefusal cell) }
{
    load_counted::<R, Brand>(rt, alloc, cell, Blank::new(1))
}
