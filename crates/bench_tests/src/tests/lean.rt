//! Many commits on the largest generated cell.

ghost use Rattle.std.specs.Prelude.{◌≡◌, ◌<◌};

use super::benches::{check_findings, commit, open_bench};
use super::records::node;
use cell_spec::Edit;
use look_counter::start_counter;
use std::alloc::{AllocError, Global};
use std::marker::Brand;
use std::process::Abort;
use std::sync::ledger::{Blank, Ledger};
use std::test::Fail;

/// The node that is moved, in the middle of the cell.
const NODE: u32 = 5_101;

/// The edit that sets the node so far to the north and to the east of its place.
fn moved(alloc: Global, by: u32) -> Result<Edit, AllocError>
    requires { by < 2 }
{
    let position = (2_000_000 + by) as i32;
    Ok(Edit::Set(node(alloc, NODE, (position, position))?))
}

fn check_commits<L: Ledger>(rt: &impl Abort, alloc: Global, blank: Blank) -> Result<(), AllocError>
    requires name { blank.name ≡ L.name }
    requires parts { blank.parts ≡ L.parts }
    requires some_part { 0 < L.parts }
{
    let mut steps = start_counter::<L>(blank);
    let mut bench = open_bench(rt, alloc, 100, &mut steps)?;
    for k in 0..1_000u32 {
        let edits = [moved(alloc, (k + 1) % 2)?];
        assert!(rt; commit(rt, alloc, &mut bench, &edits, &mut steps)?);
        assert_eq!(rt; bench.finding_count(), 0);
    }
    check_findings(rt, alloc, &bench, &mut steps)
}

/// A thousand commits that move a node and move it back. A plan that judged the whole cell each time wouldn't end in a test's time, in whatever way
/// it counted its look-ups.
#[test]
fn lean_plan(rt: HostRuntime) -> Result<(), Fail> {
    check_commits::<Brand>(&rt, rt.alloc(), Blank::new(1))?;
    Ok(())
}
