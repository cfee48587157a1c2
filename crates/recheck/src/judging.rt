//! Subjects of a cell, judged by several threads.

ghost use Rattle.std.specs.Prelude.{◌≡◌, ◌<◌, All, IfOk, IsTrue, map};
ghost use Rattle.check_pairs.specs.Parts.{IsPart};
ghost use Rattle.rule_spec.specs.Affected.{exact_row};
ghost use Rattle.rule_spec.specs.Findings.{is_subject};

use crate::pairs::{PairPlaces, both_among};
use cell_spec::{Row, Rows, Subject};
use chain_topo::Look;
use check_pairs::{ChainPart, pair_row};
use look_counter::start_counter;
use rayon::prelude::*;
use std::alloc::{AllocError, Global};
use std::marker::Brand;
use std::sync::ledger::{Blank, Ledger};
use std::thread::Threads;
use subject_rows::row_of;

/// The fewest subjects or parts for which a thread is started: starting one takes as long as judging or finding some of them.
pub(crate) const FEWEST: usize = 256;

/// The row of a subject, with the look-ups counted.
fn counted<B: Look, L: Ledger>(
    alloc: Global,
    look: &B,
    subject: Subject,
    blank: Blank,
) -> Result<Row, AllocError>
    requires subject { IsTrue (is_subject (B.cell look.now) subject) }
    requires name { blank.name ≡ L.name }
    requires parts { blank.parts ≡ L.parts }
    requires some_part { 0 < L.parts }
    ensures { IfOk result (λ row. row ≡ exact_row (B.cell look.now) subject) }
{
    let mut steps = start_counter::<L>(blank);
    row_of(alloc, look, subject, &mut steps)
}

/// The row of a subject of a cell, by look-ups. It has a counter of its own, since nobody asks how many look-ups are made before a turn. It stays a
/// call, so that pairs don't set up what the other rules have on the stack.
#[inline(never)]
fn look_and_judge<B: Look>(alloc: Global, look: &B, subject: Subject) -> Result<Row, AllocError>
    requires { IsTrue (is_subject (B.cell look.now) subject) }
    ensures { IfOk result (λ row. row ≡ exact_row (B.cell look.now) subject) }
{
    counted::<B, Brand>(alloc, look, subject, Blank::new(1))
}

/// The row of a subject of a cell. The parts are connected nodes and edges of the cell, in the order of their names: a pair of which both are
/// among them is judged without a look-up, and they are looked for near those of the pair before.
fn judge<B: Look>(
    alloc: Global,
    look: &B,
    parts: &[ChainPart<'_>],
    near: &mut PairPlaces,
    subject: Subject,
) -> Result<Row, AllocError>
    requires subject { IsTrue (is_subject (B.cell look.now) subject) }
    requires parts { All (IsPart (B.cell look.now)) parts.now }
    ensures { IfOk result (λ row. row ≡ exact_row (B.cell look.now) subject) }
{
    match both_among(parts, near, subject) {
        Some((first, second)) => pair_row(alloc, first, second),
        None => look_and_judge(alloc, look, subject),
    }
}

/// The rows of a few subjects of a cell, one after the other.
fn judge_few<B: Look>(
    alloc: Global,
    subjects: &[Subject],
    look: &B,
    parts: &[ChainPart<'_>],
) -> Result<Rows, AllocError>
    requires parts { All (IsPart (B.cell look.now)) parts.now }
    requires subjects { All (λ s. IsTrue (is_subject (B.cell look.now) s)) subjects.now }
    ensures { IfOk result (λ rows. rows ≡ map (exact_row (B.cell look.now)) subjects.now) }
{
    let mut rows = Vec::with_capacity(alloc, subjects.len())?;
    let mut near = PairPlaces::start();
    for subject in subjects {
        let row = judge(alloc, look, parts, &mut near, *subject)?;
        rows.push(row)?;
    }
    Ok(Rows::of_vec(rows))
}

/// The rows of subjects of a cell, in their order. The parts are connected nodes and edges of the cell, in the order of their names: a pair
/// of them is judged without a look-up. Threads share the subjects where there are many.
///
/// An `Err` is out of memory.
pub(crate) fn judge_all<R: Threads + Sync, B: Look + Sync>(
    rt: &R,
    alloc: Global,
    look: &B,
    parts: &[ChainPart<'_>],
    subjects: &[Subject],
) -> Result<Rows, AllocError>
    requires subjects { All (λ s. IsTrue (is_subject (B.cell look.now) s)) subjects.now }
    requires parts { All (IsPart (B.cell look.now)) parts.now }
    ensures { IfOk result (λ rows. rows ≡ map (exact_row (B.cell look.now)) subjects.now) }
{
    if subjects.len() < FEWEST {
        return judge_few(alloc, subjects, look, parts);
    }
    let rows = subjects
        .par_iter()
        .with_min_len(FEWEST)
        .map(
            |subject: &Subject| -> Result<Row, AllocError>
                requires subject { IsTrue (is_subject (B.cell look.now) subject.now) }
                requires parts { All (IsPart (B.cell look.now)) parts.now }
                ensures { IfOk result (λ row. row ≡ exact_row (B.cell look.entry.now) subject.now) }
            { judge(alloc, look, parts, &mut PairPlaces::start(), *subject) },
        )
        .collect::<Result<Vec<Row>, AllocError>>(rt, alloc)?;
    Ok(Rows::of_vec(rows?))
}
