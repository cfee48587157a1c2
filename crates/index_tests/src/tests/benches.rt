//! Benches, whose stores are tested, and their edits.

ghost use Rattle.std.specs.Prelude.{◌≡◌, IfOk};

use cell_bench::Bench;
use cell_make::make_cell;
use cell_spec::{Edit, Rows};
use chain_topo::Steps;
use edit_sets::{EditSet, FormRefusal};
use s57_types::{Kind, RecName};
use std::alloc::{AllocError, Global};
use std::process::Abort;
use std::sync::ledger::Ledger;
use std::test::Fail;

/// The edit set of edits at the level of a bench.
pub(crate) fn set_for(
    rt: &impl Abort,
    alloc: Global,
    bench: &Bench,
    edits: &[Edit],
) -> Result<EditSet, FormRefusal>
    ensures { IfOk result (λ set. set.nall ≡ bench.now.head.nall) }
{
    assert!(rt; edits.len() < 99);
    let set = EditSet::make(alloc, edits, &[], bench.head().nall)?;
    Ok(set)
}

/// Plans edits and installs the plan.
pub(crate) fn commit<L: Ledger>(
    rt: &impl Abort,
    alloc: Global,
    bench: &mut Bench,
    set: &EditSet,
    steps: &mut Steps<L>,
)
    requires { set.now.nall ≡ bench.old.head.nall }
{
    match bench.plan(alloc, set, &Rows::make(alloc), &[], steps) {
        Ok(plan) => bench.install(plan),
        Err(_) => panic!(rt; "the edits aren't taken"),
    }
}

/// The deletions of the records of the cell of one square: of each kind so many, numbered from 1.
fn deletions(alloc: Global) -> Result<Vec<Edit>, AllocError> {
    let mut edits = Vec::new(alloc);
    for (kind, count) in [(Kind::Vc, 4), (Kind::Ve, 4), (Kind::Fe, 2)] {
        for id in 1..count + 1 {
            edits.push(Edit::Del(RecName { kind, id }))?;
        }
    }
    Ok(edits)
}

/// The bench of a cell without a record: that of one square, of which all records are deleted.
pub(crate) fn empty_bench<L: Ledger>(
    rt: &impl Abort,
    alloc: Global,
    steps: &mut Steps<L>,
) -> Result<Bench, Fail> {
    let Ok(mut bench) = Bench::load(alloc, make_cell(alloc, 1)?, steps) else {
        panic!(rt; "the cell isn't loaded");
    };
    let set = set_for(rt, alloc, &bench, &deletions(alloc)?)?;
    commit(rt, alloc, &mut bench, &set, steps);
    Ok(bench)
}
