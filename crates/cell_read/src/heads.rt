//! The two head records (S-57 Part 3, 7.3).

ghost use Rattle.std.specs.Prelude.{◌≡◌};
ghost use Rattle.file_spec.specs.CellRecords.{head_with};
ghost use Rattle.file_spec.specs.DecodedCell.{general_information, geographic_reference, is_general_information, is_geographic_reference};
ghost use Rattle.file_spec.specs.declared.tag.RecordType.TheVariants as types;
ghost use Rattle.cell_read.specs.Gives.{GivesRecord};
ghost use Rattle.cell_read.specs.RecordsFrom.{fields_then, general_information_from, geographic_reference_from};

use crate::fields::read_fields;
use crate::refusal::RecordRefusal;
use crate::tags::record_type;
use crate::values::FieldValues;
use file_spec::{RecordFault, RecordType};
use iso_frame::Frame;
use record_fit::{is_general_information_short, is_geographic_reference_short};
use s57_types::{Dsid, Dspm, Dssi, Head};
use std::alloc::Global;

/// The exchange purpose EXPP of a data set that is new.
const NEW_DATA_SET: u8 = 1;

/// The data structure DSTR of chain-node topology.
const CHAIN_NODE: u8 = 2;

fn is_general_information(kind: RecordType) -> bool
    ensures { result ≡ is_general_information kind }
{
    match kind {
        RecordType::GeneralInformation => true,
        RecordType::GeographicReference | RecordType::Vector | RecordType::Feature => false,
    }
}

fn is_geographic_reference(kind: RecordType) -> bool
    ensures { result ≡ is_geographic_reference kind }
{
    match kind {
        RecordType::GeographicReference => true,
        RecordType::GeneralInformation | RecordType::Vector | RecordType::Feature => false,
    }
}

fn general_information_from(values: FieldValues) -> Result<(Dsid, Dssi), RecordFault>
    ensures { result ≡ general_information_from values }
{
    let (Some(dsid), Some(dssi)) = (values.dsid, values.dssi) else {
        return Err(RecordFault::MissingField);
    };
    if dsid.expp != NEW_DATA_SET {
        return Err(RecordFault::NotBase);
    }
    if dssi.dstr != CHAIN_NODE {
        return Err(RecordFault::NotChainNode);
    }
    if !is_general_information_short(&dsid, dssi) {
        return Err(RecordFault::TooLong);
    }
    Ok((dsid, dssi))
}

fn geographic_reference_from(values: FieldValues) -> Result<Dspm, RecordFault>
    ensures { result ≡ geographic_reference_from values }
{
    let FieldValues { dspm, .. } = values;
    let Some(dspm) = dspm else {
        return Err(RecordFault::MissingField);
    };
    if !is_geographic_reference_short(&dspm) {
        return Err(RecordFault::TooLong);
    }
    Ok(dspm)
}

/// What the fields of a data set general information record say, or their first fault.
fn read_general_information_fields(
    alloc: Global,
    frame: &Frame<'_>,
) -> Result<(Dsid, Dssi), RecordRefusal>
    ensures { GivesRecord result (fields_then 0 types.GeneralInformation general_information_from frame.now.fields) }
{
    let values = read_fields(alloc, 0, RecordType::GeneralInformation, frame)?;
    Ok(general_information_from(values)?)
}

/// What the fields of a data set geographic reference record say, or their first fault.
fn read_geographic_reference_fields(alloc: Global, frame: &Frame<'_>) -> Result<Dspm, RecordRefusal>
    ensures { GivesRecord result (fields_then 0 types.GeographicReference geographic_reference_from frame.now.fields) }
{
    let values = read_fields(alloc, 0, RecordType::GeographicReference, frame)?;
    Ok(geographic_reference_from(values)?)
}

/// The data set general information record, or its first fault.
pub fn read_general_information(
    alloc: Global,
    frame: &Frame<'_>,
) -> Result<(Dsid, Dssi), RecordRefusal>
    ensures { GivesRecord result (general_information frame.now.fields) }
{
    let kind = record_type(frame)?;
    if !is_general_information(kind) {
        return Err(RecordRefusal::Fault(RecordFault::HeadOrder));
    }
    read_general_information_fields(alloc, frame)
}

/// The data set geographic reference record, or its first fault.
pub fn read_geographic_reference(alloc: Global, frame: &Frame<'_>) -> Result<Dspm, RecordRefusal>
    ensures { GivesRecord result (geographic_reference frame.now.fields) }
{
    let kind = record_type(frame)?;
    if !is_geographic_reference(kind) {
        return Err(RecordRefusal::Fault(RecordFault::HeadOrder));
    }
    read_geographic_reference_fields(alloc, frame)
}

/// The head that the fields of the two head records say.
pub fn head_with(dsid: Dsid, dssi: Dssi, dspm: Dspm) -> Head
    ensures { result ≡ head_with dsid dssi dspm }
{
    let (dsid_rcid, intu) = (dsid.rcid, dsid.intu);
    let (uadt, isdt, sted) = (dsid.uadt, dsid.isdt, dsid.sted);
    let (prsp, prof, agen) = (dsid.prsp, dsid.prof, dsid.agen);
    let (dsnm, edtn, updn, psdn, pred, dsid_comt) = dsid.into_texts();
    Head {
        dsid_rcid,
        intu,
        dsnm,
        edtn,
        updn,
        uadt,
        isdt,
        sted,
        prsp,
        psdn,
        pred,
        prof,
        agen,
        dsid_comt,
        aall: dssi.aall,
        nall: dssi.nall,
        dspm_rcid: dspm.rcid,
        hdat: dspm.hdat,
        vdat: dspm.vdat,
        sdat: dspm.sdat,
        cscl: dspm.cscl,
        duni: dspm.duni,
        huni: dspm.huni,
        puni: dspm.puni,
        coun: dspm.coun,
        comf: dspm.comf,
        somf: dspm.somf,
        dspm_comt: dspm.into_comment(),
    }
}
