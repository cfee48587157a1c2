//! The look-ups of a plan, within a number that was worked out by hand.

ghost use Rattle.std.specs.Prelude.{◌≡◌, ◌+◌, ◌<◌, ◌≤◌};
ghost use Rattle.cell_make.specs.Square.{square};
ghost use Rattle.bench_tests.specs.Moves.{moved_node};

use super::benches::{commit, open_bench};
use super::records::node;
use cell_bench::Bench;
use cell_make::one_square_is_made;
use cell_spec::Edit;
use chain_topo::Steps;
use look_counter::start_counter;
use std::alloc::{AllocError, Global};
use std::marker::Brand;
use std::process::Abort;
use std::sync::ledger::{Blank, Ledger};
use std::test::Fail;

/// Moves node 1 of the square. The edit touches the name of the node, which the node reads itself, two edges (3 keys each) and two areas (10 keys
/// each). All nodes and edges of the square lie under one tile, so the 18 pairs of these three with each other and with the other five are judged too:
/// those of the node read 20 keys, the others of the two edges 27 and 22. The 96 keys are read before and after, and for each of them, for the touched
/// key and for the edit there are four look-ups: 776.
fn move_node<L: Ledger>(
    rt: &impl Abort,
    alloc: Global,
    bench: &mut Bench,
    edit: Edit,
    steps: &mut Steps<L>,
) -> Result<bool, AllocError>
    requires bench { bench.old ≡ square }
    requires edit { edit ≡ moved_node }
    ensures { steps.new ≤ steps.old + 776 }
{
    commit(rt, alloc, bench, &[edit], steps)
}

fn check_move<L: Ledger>(rt: &impl Abort, alloc: Global, blank: Blank) -> Result<(), AllocError>
    requires name { blank.name ≡ L.name }
    requires parts { blank.parts ≡ L.parts }
    requires some_part { 0 < L.parts }
{
    one_square_is_made();
    let mut steps = start_counter::<L>(blank);
    let mut bench = open_bench(rt, alloc, 1, &mut steps)?;
    let edit = Edit::Set(node(alloc, 1, (1, 1))?);
    assert!(rt; move_node(rt, alloc, &mut bench, edit, &mut steps)?);
    assert_eq!(rt; bench.finding_count(), 0);
    Ok(())
}

#[test]
fn a_moved_node_takes_776_look_ups_at_most(rt: HostRuntime) -> Result<(), Fail> {
    check_move::<Brand>(&rt, rt.alloc(), Blank::new(1))?;
    Ok(())
}
