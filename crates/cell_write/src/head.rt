//! The fields of the two head records (S-57 Part 3, 7.3).

ghost use Rattle.std.specs.Prelude.{◌≡◌, ◌≤◌, IfOk, codes, count_by, length, not};
ghost use Rattle.s57_types.specs.FieldRows.{dsid_row, dssi_row};
ghost use Rattle.s57_types.specs.RecordFields.{dsid_of_head, dspm_of_head, dssi_of_head, identification_fields, parameter_fields};
ghost use Rattle.s57_types.specs.RecordFields.{field_of as row_field};
ghost use Rattle.cell_spec.specs.Lookup.{all_records};
ghost use Rattle.cell_spec.specs.Writable.{record_limit};
ghost use Rattle.file_spec.specs.EncodedCell.{has_class_from, record_counts};
ghost use Rattle.frame_write.specs.OutFields.{field_of, fields_of};

use crate::number::number_field;
use frame_write::OutField;
use s57_fields::{Dsid, Dspm, Dssi, write_dsid, write_dspm, write_dssi};
use s57_types::{Cell, Duplicate, Head, Rec};
use std::alloc::{AllocError, Global};

/// The exchange purpose EXPP of a new data set.
const NEW: u8 = 1;

/// The data structure DSTR of chain-node topology.
const CHAIN_NODE: u8 = 2;

/// What DSID says of a head.
fn identification(alloc: Global, head: &Head) -> Result<Dsid, AllocError>
    ensures { IfOk result (λ dsid. dsid ≡ dsid_of_head head.now) }
{
    Ok(Dsid {
        rcid: head.dsid_rcid,
        expp: NEW,
        intu: head.intu,
        dsnm: head.dsnm.copy(alloc)?,
        edtn: head.edtn.copy(alloc)?,
        updn: head.updn.copy(alloc)?,
        uadt: head.uadt,
        isdt: head.isdt,
        sted: head.sted,
        prsp: head.prsp,
        psdn: head.psdn.copy(alloc)?,
        pred: head.pred.copy(alloc)?,
        prof: head.prof,
        agen: head.agen,
        comt: head.dsid_comt.copy(alloc)?,
    })
}

/// What DSPM says of a head.
fn parameters(alloc: Global, head: &Head) -> Result<Dspm, AllocError>
    ensures { IfOk result (λ dspm. dspm ≡ dspm_of_head head.now) }
{
    Ok(Dspm {
        rcid: head.dspm_rcid,
        hdat: head.hdat,
        vdat: head.vdat,
        sdat: head.sdat,
        cscl: head.cscl,
        duni: head.duni,
        huni: head.huni,
        puni: head.puni,
        coun: head.coun,
        comf: head.comf,
        somf: head.somf,
        comt: head.dspm_comt.copy(alloc)?,
    })
}

/// Whether a record is a feature of an object class from one code to another.
fn has_class_from(rec: &Rec, low: u16, high: u16) -> bool
    ensures { result ≡ has_class_from low high rec.now }
{
    match rec {
        Rec::V(_) => false,
        Rec::F(feature) => low <= feature.objl && feature.objl <= high,
        Rec::H(_) => false,
    }
}

/// How many records are features of an object class from one code to another.
fn count_classes(records: &[Rec], low: u16, high: u16) -> u32
    requires { length records.now ≤ record_limit }
    ensures { result ≡ count_by (has_class_from low high) records.now }
{
    records
        .iter()
        .filter(|rec| has_class_from(rec, low, high))
        .count() as u32
}

/// How many records aren't features of an object class from one code to another.
fn count_other_classes(records: &[Rec], low: u16, high: u16) -> u32
    requires { length records.now ≤ record_limit }
    ensures { result ≡ count_by (λ rec. not (has_class_from low high rec)) records.now }
{
    records
        .iter()
        .filter(|rec| !has_class_from(rec, low, high))
        .count() as u32
}

/// NOMR, NOCR, NOGR, NOLR, NOIN, NOCN, NOED and NOFA: the numbers of meta, cartographic, geo and collection objects by the
/// codes of their classes, of nodes and of edges. There are no faces.
fn record_counts(cell: &Cell) -> [u32; 8]
    requires { length (all_records cell.now) ≤ record_limit }
    ensures { result ≡ record_counts cell.now }
{
    let features = cell.fe.as_slice();
    [
        count_classes(features, 300, 399),
        count_classes(features, 500, 599),
        count_other_classes(features, 300, 599),
        count_classes(features, 400, 499),
        cell.vi.len() as u32,
        cell.vc.len() as u32,
        cell.ve.len() as u32,
        0,
    ]
}

/// The field DSID.
fn identification_field(alloc: Global, head: &Head) -> Result<OutField, AllocError>
    ensures { IfOk result (λ field. field_of field ≡ row_field (codes "DSID") (dsid_row (dsid_of_head head.now))) }
{
    let dsid = identification(alloc, head)?;
    let mut bytes = Vec::new(alloc);
    write_dsid(alloc, &dsid, &mut bytes)?;
    Ok(OutField {
        tag: *b"DSID",
        bytes,
    })
}

/// The field DSSI with these counts.
fn structure_field(alloc: Global, head: &Head, counts: [u32; 8]) -> Result<OutField, AllocError>
    ensures { IfOk result (λ field. field_of field ≡ row_field (codes "DSSI") (dssi_row (dssi_of_head head.now counts))) }
{
    let dssi = Dssi {
        dstr: CHAIN_NODE,
        aall: head.aall,
        nall: head.nall,
        counts,
    };
    let mut bytes = Vec::new(alloc);
    write_dssi(alloc, &dssi, &mut bytes)?;
    Ok(OutField {
        tag: *b"DSSI",
        bytes,
    })
}

/// The fields of the data set general information record, whose number is 1. The counts are taken from the cell's
/// records.
pub fn identification_fields(alloc: Global, cell: &Cell) -> Result<Vec<OutField>, AllocError>
    requires { length (all_records cell.now) ≤ record_limit }
    ensures { IfOk result (λ fields. fields_of fields.items ≡ identification_fields 1 cell.now.head (record_counts cell.now)) }
{
    let mut fields = Vec::new(alloc);
    fields.push(number_field(alloc, 1, &mut Vec::new(alloc))?)?;
    fields.push(identification_field(alloc, &cell.head)?)?;
    fields.push(structure_field(alloc, &cell.head, record_counts(cell))?)?;
    Ok(fields)
}

/// The fields of the data set geographic reference record, whose number is 2.
pub fn parameter_fields(alloc: Global, head: &Head) -> Result<Vec<OutField>, AllocError>
    ensures { IfOk result (λ fields. fields_of fields.items ≡ parameter_fields 2 head.now) }
{
    let dspm = parameters(alloc, head)?;
    let mut bytes = Vec::new(alloc);
    write_dspm(alloc, &dspm, &mut bytes)?;
    let mut fields = Vec::new(alloc);
    fields.push(number_field(alloc, 2, &mut Vec::new(alloc))?)?;
    fields.push(OutField {
        tag: *b"DSPM",
        bytes,
    })?;
    Ok(fields)
}
