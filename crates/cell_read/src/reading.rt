//! A cell that grows by the records of its file.

ghost use Rattle.std.specs.Prelude.{◌≡◌, ◌==◌, false, nat_le, None, OnOk, IfErr};
ghost use Rattle.s57_types.specs.RecordFields.{written_length, length_limit};
ghost use Rattle.s57_types.specs.declared.name.Kind.TheVariants.{Head as HeadKind};
ghost use Rattle.cell_spec.specs.Lookup.{name_of};
ghost use Rattle.cell_spec.specs.Names.{is_of_kind, kind_rank};
ghost use Rattle.file_spec.specs.CellRecords.{with_record, with_record_of_kind, empty_cell};
ghost use Rattle.cell_read.specs.Gives.{IsFault};
ghost use Rattle.cell_read.specs.NamesSeen.{IsKnown};
ghost use Rattle.cell_read.specs.RecordsFrom.{following_fault};

use crate::names::Names;
use crate::refusal::RecordRefusal;
use file_spec::RecordFault;
use s57_types::{Cell, Head, Kind, Rec, Recs};
use std::alloc::{AllocError, Global};

/// How many records a cell may have.
const RECORD_LIMIT: usize = 262_144;

/// The records that were read so far, with their names and their number.
#[derive(Drop)]
pub struct Reading {
    pub cell: Cell,
    pub names: Names,
    pub count: usize,
}

/// A cell with a head and no record.
pub fn empty_reading(alloc: Global, head: Head) -> Reading
    ensures cell { result.cell ≡ empty_cell head }
    ensures known { IsKnown result }
{
    Reading {
        cell: Cell {
            head,
            vi: Recs::make(alloc),
            vc: Recs::make(alloc),
            ve: Recs::make(alloc),
            fe: Recs::make(alloc),
        },
        names: Names::new(alloc),
        count: 0,
    }
}

/// Puts a record last in the list of a kind, which isn't the head's.
fn push_record(cell: &mut Cell, kind: Kind, rec: Rec) -> Result<(), AllocError>
    requires { (kind_rank kind == kind_rank HeadKind) ≡ false }
    ensures { OnOk result (cell.new ≡ with_record_of_kind kind rec cell.old) }
{
    match kind {
        Kind::Vi => cell.vi.push(rec),
        Kind::Vc => cell.vc.push(rec),
        Kind::Ve => cell.ve.push(rec),
        Kind::Fe => cell.fe.push(rec),
        Kind::Head => unreachable!(),
    }
}

/// Adds a record behind the others: its name is new, it isn't too long when it is written again, and there is room. Its length was judged before,
/// since the thread that decodes a record can do that.
pub fn add_record(reading: &mut Reading, rec: Rec, short: bool) -> Result<(), RecordRefusal>
    requires listed { is_of_kind HeadKind (name_of rec) ≡ false }
    requires short { short ≡ nat_le (written_length reading.old.cell.head.nall rec) length_limit }
    requires known { IsKnown reading.old }
    ensures known { OnOk result (IsKnown reading.new) }
    ensures cell { OnOk result (reading.new.cell ≡ with_record rec reading.old.cell) }
    ensures good { OnOk result (following_fault reading.old.cell rec ≡ None) }
    ensures fault { IfErr result (λ e. IsFault e (following_fault reading.old.cell rec)) }
{
    let name = rec.name();
    if !reading.names.add(name)? {
        return Err(RecordRefusal::Fault(RecordFault::TwiceName));
    }
    if !short {
        return Err(RecordRefusal::Fault(RecordFault::TooLong));
    }
    if reading.count >= RECORD_LIMIT {
        return Err(RecordRefusal::Fault(RecordFault::TooMany));
    }
    push_record(&mut reading.cell, name.kind, rec)?;
    reading.count += 1;
    Ok(())
}
