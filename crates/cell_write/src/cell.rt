//! Writing a cell.

ghost use Rattle.std.specs.Prelude.{◌≡◌, ◌+◌, ◌<◌, ◌≤◌, ◌^◌, ◌++◌, IfOk, OnOk, None, length, true};
ghost use Rattle.cell_spec.specs.Lookup.{all_records};
ghost use Rattle.file_spec.specs.DescriptiveRecord.{descriptive_fields};
ghost use Rattle.frame_spec.specs.WrittenRecord.{record_length, written_record};
ghost use Rattle.s57_types.specs.Fitness.{unfitness};
ghost use Rattle.s57_types.specs.RecordFields.{length_limit, record_fields};
ghost use Rattle.cell_spec.specs.Writable.{AreFit, IsWritable};
ghost use Rattle.file_spec.specs.EncodedCell.{encoded_cell, head_bytes, record_bytes, records_bytes};
ghost use Rattle.frame_write.specs.OutFields.{fields_of, is_first, lengths_of};

use crate::description::descriptive_fields;
use crate::feature::feature_fields;
use crate::head::{identification_fields, parameter_fields};
use crate::spare::keep_memory;
use crate::vector::vector_fields;
use frame_write::{LeaderKind, OutField, WriteRefusal, write_record};
use s57_types::{Cell, Rec};
use std::alloc::{AllocError, Global};

/// The number of the first record behind the two head records.
const FIRST_NUMBER: usize = 3;

/// How many record numbers there are: they have two bytes.
const RECORD_NUMBER_MODULUS: usize = 65_536;

/// Appends the record of these fields, which isn't too long.
fn put_fields(
    alloc: Global,
    kind: LeaderKind,
    fields: &[OutField],
    out: &mut Vec<u8>,
) -> Result<(), AllocError>
    requires { record_length (lengths_of fields.now) ≤ length_limit }
    ensures { OnOk result (out.new.items ≡ out.old.items ++ written_record (is_first kind) (fields_of fields.now)) }
{
    match write_record(alloc, kind, fields, out) {
        Ok(()) => Ok(()),
        Err(WriteRefusal::NoMemory) => Err(AllocError),
        Err(WriteRefusal::TooLong) => unreachable!(),
    }
}

/// The fields of a record with a number.
#[tactic(auto, unfolding(s57_types::specs::Fitness::unfitness))]
fn record_fields(
    alloc: Global,
    nall: u8,
    number: u16,
    rec: &Rec,
    spare: &mut Vec<Vec<u8>>,
) -> Result<Vec<OutField>, AllocError>
    requires { unfitness nall rec.now ≡ None }
    ensures { IfOk result (λ fields. fields_of fields.items ≡ record_fields nall number rec.now) }
{
    match rec {
        Rec::V(vector) => vector_fields(alloc, number, vector, spare),
        Rec::F(feature) => feature_fields(alloc, nall, number, feature, spare),
        Rec::H(_) => unreachable!(),
    }
}

/// Appends a record. Record numbers begin anew behind 65,535.
fn put_record(
    alloc: Global,
    nall: u8,
    number: usize,
    rec: &Rec,
    spare: &mut Vec<Vec<u8>>,
    out: &mut Vec<u8>,
) -> Result<(), AllocError>
    requires { unfitness nall rec.now ≡ None }
    ensures { OnOk result (out.new.items ≡ out.old.items ++ record_bytes nall number rec.now) }
{
    let fields = record_fields(
        alloc,
        nall,
        (number % RECORD_NUMBER_MODULUS) as u16,
        rec,
        spare,
    )?;
    put_fields(alloc, LeaderKind::Dr, fields.as_slice(), out)?;
    keep_memory(fields, spare)
}

/// Appends records, whose numbers go on from the first one's.
fn put_records(
    alloc: Global,
    nall: u8,
    first: usize,
    records: &[Rec],
    spare: &mut Vec<Vec<u8>>,
    out: &mut Vec<u8>,
) -> Result<(), AllocError>
    requires fit { AreFit nall records.now }
    requires few { first + length records.now < 2 ^ 32 }
    ensures { OnOk result (out.new.items ≡ out.old.items ++ records_bytes nall first records.now) }
{
    let mut number = first;
    for rec in records {
        put_record(alloc, nall, number, rec, spare, out)?;
        number += 1;
    }
    Ok(())
}

/// Appends the data descriptive record.
fn put_description(alloc: Global, aall: u8, nall: u8, out: &mut Vec<u8>) -> Result<(), AllocError>
    ensures { OnOk result (out.new.items ≡ out.old.items ++ written_record true (descriptive_fields aall nall)) }
{
    let fields = descriptive_fields(alloc, aall, nall)?;
    put_fields(alloc, LeaderKind::Ddr, fields.as_slice(), out)
}

/// Appends the two head records.
fn put_head(alloc: Global, cell: &Cell, out: &mut Vec<u8>) -> Result<(), AllocError>
    requires { IsWritable cell.now }
    ensures { OnOk result (out.new.items ≡ out.old.items ++ head_bytes cell.now) }
{
    let identification = identification_fields(alloc, cell)?;
    put_fields(alloc, LeaderKind::Dr, identification.as_slice(), out)?;
    let parameters = parameter_fields(alloc, &cell.head)?;
    put_fields(alloc, LeaderKind::Dr, parameters.as_slice(), out)?;
    Ok(())
}

/// Appends isolated nodes, connected nodes, edges and features in the order of their lists.
fn put_all_records(alloc: Global, cell: &Cell, out: &mut Vec<u8>) -> Result<(), AllocError>
    requires { IsWritable cell.now }
    ensures { OnOk result (out.new.items ≡ out.old.items ++ records_bytes cell.now.head.nall 3 (all_records cell.now)) }
{
    let nall = cell.head.nall;
    let mut spare = Vec::new(alloc);
    let connected = FIRST_NUMBER + cell.vi.len();
    let edges = connected + cell.vc.len();
    let features = edges + cell.ve.len();
    put_records(
        alloc,
        nall,
        FIRST_NUMBER,
        cell.vi.as_slice(),
        &mut spare,
        out,
    )?;
    put_records(alloc, nall, connected, cell.vc.as_slice(), &mut spare, out)?;
    put_records(alloc, nall, edges, cell.ve.as_slice(), &mut spare, out)?;
    put_records(alloc, nall, features, cell.fe.as_slice(), &mut spare, out)?;
    Ok(())
}

/// The file of a cell (ISO/IEC 8211; S-57 Part 3, 7.3, 7.6 and 7.7): the data descriptive record, the two head records, then
/// isolated nodes, connected nodes, edges and features in the order of their lists. The counts of the data set structure
/// information are taken anew from the records, and record numbers go on from 1, modulo 65,536.
///
/// An `Err` means out of memory.
#[tactic(auto, unfolding(file_spec::specs::EncodedCell::encoded_cell))]
pub fn write_cell(alloc: Global, cell: &Cell) -> Result<Vec<u8>, AllocError>
    requires { IsWritable cell.now }
    ensures { IfOk result (λ bytes. bytes.items ≡ encoded_cell cell.now) }
{
    let mut out = Vec::new(alloc);
    put_description(alloc, cell.head.aall, cell.head.nall, &mut out)?;
    put_head(alloc, cell, &mut out)?;
    put_all_records(alloc, cell, &mut out)?;
    Ok(out)
}
