//! Drawn commits on a cell of four squares: nodes at one place or on edges, edges of three ends or with an end that is missing, features that name
//! an edge twice, an edge that isn't there, or have one identifier.

ghost use Rattle.std.specs.Prelude.{◌≡◌, ◌<◌};

use super::benches::{check_findings, commit, open_bench};
use super::records::{Shape, edge, end_at, feature, named, node};
use cell_spec::Edit;
use look_counter::start_counter;
use s57_types::{Kind, Rec, Spot};
use std::alloc::{AllocError, Global};
use std::marker::Brand;
use std::process::Abort;
use std::sync::ledger::{Blank, Ledger};
use std::test::Fail;

/// How many edit sets are drawn, one after the other.
const ROUNDS: u32 = 300;

/// The next number below a bound.
fn draw(state: &mut u32, bound: u32) -> u32
    requires { 0 < bound }
    ensures { result < bound }
{
    *state = state.wrapping_mul(1_664_525).wrapping_add(1_013_904_223);
    (*state >> 8) % bound
}

/// A place on the cell, at half the side of a square from the next.
fn drawn_position(state: &mut u32) -> (i32, i32) {
    let latitude = 20_000 * draw(state, 5);
    let longitude = 20_000 * draw(state, 5);
    (latitude as i32, longitude as i32)
}

/// An edge, every fourth with a third end.
fn drawn_edge(alloc: Global, state: &mut u32) -> Result<Rec, AllocError> {
    let ends = [
        end_at(1, 1 + draw(state, 11)),
        end_at(2, 1 + draw(state, 11)),
        end_at(1, 1 + draw(state, 11)),
    ];
    let id = 1 + draw(state, 14);
    let count = if draw(state, 4) == 0 { 3 } else { 2 };
    edge(alloc, id, &ends[..count])
}

fn drawn_place(state: &mut u32) -> Spot {
    Spot {
        to: named(Kind::Ve, 1 + draw(state, 14)),
        ornt: (1 + draw(state, 2)) as u8,
        usag: 1,
        mask: 255,
    }
}

/// A line or an area with one to four pointers to edges.
fn drawn_feature(alloc: Global, state: &mut u32) -> Result<Rec, AllocError> {
    let places = [
        drawn_place(state),
        drawn_place(state),
        drawn_place(state),
        drawn_place(state),
    ];
    let count = 1 + draw(state, 4) as usize;
    let shape = Shape {
        prim: (2 + draw(state, 2)) as u8,
        fidn: 1 + draw(state, 6),
        places: &places[..count],
    };
    feature(alloc, 1 + draw(state, 7), shape)
}

/// A record of one of three kinds.
fn drawn_record(alloc: Global, state: &mut u32, kind: u32) -> Result<Rec, AllocError> {
    match kind {
        0 => node(alloc, 1 + draw(state, 11), drawn_position(state)),
        1 => drawn_edge(alloc, state),
        _ => drawn_feature(alloc, state),
    }
}

fn drawn_edit(alloc: Global, state: &mut u32, kind: u32) -> Result<Edit, AllocError> {
    let record = drawn_record(alloc, state, kind)?;
    Ok(match draw(state, 4) {
        0 => Edit::Add(record),
        1 => Edit::Del(record.name()),
        _ => Edit::Set(record),
    })
}

/// One to three edits, of different kinds of records.
fn drawn_edits(alloc: Global, state: &mut u32) -> Result<Vec<Edit>, AllocError> {
    let first = draw(state, 3);
    let mut edits = Vec::new(alloc);
    for k in 0..1 + draw(state, 3) {
        edits.push(drawn_edit(alloc, state, (first + k) % 3)?)?;
    }
    Ok(edits)
}

/// Commits drawn edits, and tells how many edit sets the cell took.
fn check_rounds<L: Ledger>(rt: &impl Abort, alloc: Global, blank: Blank) -> Result<u32, AllocError>
    requires name { blank.name ≡ L.name }
    requires parts { blank.parts ≡ L.parts }
    requires some_part { 0 < L.parts }
{
    let mut steps = start_counter::<L>(blank);
    let mut bench = open_bench(rt, alloc, 2, &mut steps)?;
    let mut state = 1;
    let mut taken = 0u32;
    for _ in 0..ROUNDS {
        let edits = drawn_edits(alloc, &mut state)?;
        if commit(rt, alloc, &mut bench, &edits, &mut steps)? {
            taken = taken.saturating_add(1);
            check_findings(rt, alloc, &bench, &mut steps)?;
        }
    }
    Ok(taken)
}

#[test]
fn findings_follow_drawn_commits(rt: HostRuntime) -> Result<(), Fail> {
    let taken = check_rounds::<Brand>(&rt, rt.alloc(), Blank::new(1))?;
    assert!(rt; taken > 50);
    Ok(())
}
