//! What a look answers to each name and identifier, compared with what rows say.

use super::rows::{Row, bearers_of, identifier, nth_name, pointers_to, row_of};
use chain_topo::{Look, Steps};
use s57_types::Rec;
use std::alloc::{AllocError, Global};
use std::process::Abort;
use std::sync::ledger::Ledger;

/// How many names there are: five of each kind.
pub(crate) const NAMES: u32 = 20;

fn version_of(rec: &Rec) -> u16 {
    match rec {
        Rec::V(vector) => vector.rver,
        Rec::F(feature) => feature.rver,
        Rec::H(_) => 0,
    }
}

fn check_record(rt: &impl Abort, rec: Option<&Rec>, row: Option<&Row>) {
    match (rec, row) {
        (Some(rec), Some(row)) => {
            assert!(rt; rec.name() == row.name && version_of(rec) == row.version);
        }
        (None, None) => {}
        _ => panic!(rt; "a record too many, or one that is missing"),
    }
}

/// Checks what a look answers to each name and to each identifier.
pub(crate) fn check_look<B: Look, L: Ledger>(
    rt: &impl Abort,
    alloc: Global,
    look: &B,
    rows: &[Row],
    steps: &mut Steps<L>,
) -> Result<(), AllocError> {
    for number in 0..NAMES {
        let name = nth_name(number);
        check_record(rt, look.get(name, steps), row_of(rows, name));
        let pointers = pointers_to(alloc, rows, name)?;
        assert!(rt; look.refs(name, steps) == pointers.as_slice());
        let names = bearers_of(alloc, rows, number)?;
        assert!(rt; look.bearers(identifier(number), steps) == names.as_slice());
    }
    Ok(())
}
