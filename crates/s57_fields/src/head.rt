//! The fields of the head records (S-57 Part 3, 7.3).

ghost use Rattle.std.specs.Prelude.{◌≡◌, ◌++◌, IfOk, MatchOption, OnOk, OnErr, Ok, Err};
ghost use Rattle.std.specs.List.{list_all};
ghost use Rattle.std.specs.Option.{option_map, option_and_then};
ghost use Rattle.s57_types.specs.Subfield.{is_plain};
ghost use Rattle.s57_types.specs.FieldRows.{dsid_forms, dspm_forms, dsid_row, dspm_row, dssi_row};
ghost use Rattle.field_spec.specs.declared.fault.FieldFault.TheVariants.{BadField};
ghost use Rattle.field_spec.specs.Cutting.{cut_row, field_row, whole, before_terminator};
ghost use Rattle.field_spec.specs.Contents.{dsid_value, dsid_content, dssi_content, dspm_content};
ghost use Rattle.field_spec.specs.FieldBytes.{field_bytes};
ghost use Rattle.s57_fields.specs.Gives.{Gives};
ghost use Rattle.s57_fields.specs.HeadSubfields.{dspm_subfields, dsid_subfields, dsid_names, dsid_dates, dsid_product, dsid_name_forms};
ghost use Rattle.s57_fields.specs.HeadSubfields.{dsid_date_forms, dsid_product_forms, cut_groups};

use crate::cut::{field_body, take_array, take_text, take_u8, take_u16, take_u32};
use crate::refusal::FieldRefusal;
use crate::spell::Value;
use crate::text::{is_plain_text, owned_text};
use crate::write::write_row;
use s57_types::{Dsid, Dspm, Dssi};
use std::alloc::{AllocError, Global};

/// The record name RCNM of the data set identification (S-57 Part 3, 2.2).
const IDENTIFICATION_RCNM: u8 = 10;

/// The record name RCNM of the data set parameters.
const PARAMETERS_RCNM: u8 = 20;

/// The data set structure information, or None where the field is bad.
#[tactic(auto, unfolding(field_spec::specs::Contents::dssi_content))]
fn dssi_of(bytes: &[u8]) -> Option<Dssi>
    ensures { MatchOption result (dssi_content bytes.now ≡ Err BadField) (λ dssi. dssi_content bytes.now ≡ Ok dssi) }
{
    let (dstr, rest) = take_u8(field_body(bytes)?)?;
    let (aall, rest) = take_u8(rest)?;
    let (nall, rest) = take_u8(rest)?;
    let (nomr, rest) = take_u32(rest)?;
    let (nocr, rest) = take_u32(rest)?;
    let (nogr, rest) = take_u32(rest)?;
    let (nolr, rest) = take_u32(rest)?;
    let (noin, rest) = take_u32(rest)?;
    let (nocn, rest) = take_u32(rest)?;
    let (noed, rest) = take_u32(rest)?;
    let (nofa, rest) = take_u32(rest)?;
    if !rest.is_empty() || aall > 1 || nall > 2 {
        return None;
    }
    Some(Dssi {
        dstr,
        aall,
        nall,
        counts: [nomr, nocr, nogr, nolr, noin, nocn, noed, nofa],
    })
}

/// The data set structure information, the field DSSI. It takes no memory.
///
/// An `Err` says that the bytes aren't the field.
pub fn read_dssi(_alloc: Global, bytes: &[u8]) -> Result<Dssi, FieldRefusal>
    ensures { Gives result (dssi_content bytes.now) }
{
    dssi_of(bytes).ok_or(FieldRefusal::BadField)
}

/// Appends the data set structure information, the field DSSI.
///
/// An `Err` means out of memory, and leaves the bytes as they were.
pub fn write_dssi(alloc: Global, value: &Dssi, out: &mut Vec<u8>) -> Result<(), AllocError>
    ensures ok { OnOk result (out.new.items ≡ out.old.items ++ field_bytes (dssi_row value.now)) }
    ensures err { OnErr result (out.new.items ≡ out.old.items) }
{
    let levels = [
        Value::Byte(value.dstr),
        Value::Byte(value.aall),
        Value::Byte(value.nall),
    ];
    let mut row = Vec::from_slice(alloc, &levels)?;
    for count in &value.counts {
        row.push(Value::Long(*count))?;
    }
    write_row(alloc, row.as_slice(), out)
}

/// The subfields of the data set parameters.
#[derive(Clone, Copy)]
struct DspmSubfields<'a> {
    rcnm: u8,
    rcid: u32,
    hdat: u8,
    vdat: u8,
    sdat: u8,
    cscl: u32,
    duni: u8,
    huni: u8,
    puni: u8,
    coun: u8,
    comf: u32,
    somf: u32,
    comt: &'a [u8],
}

/// Cuts the data set parameters into subfields.
fn cut_dspm(bytes: &[u8]) -> Option<DspmSubfields<'_>>
    ensures { option_map dspm_subfields result ≡ field_row dspm_forms bytes.now }
{
    let (rcnm, rest) = take_u8(field_body(bytes)?)?;
    let (rcid, rest) = take_u32(rest)?;
    let (hdat, rest) = take_u8(rest)?;
    let (vdat, rest) = take_u8(rest)?;
    let (sdat, rest) = take_u8(rest)?;
    let (cscl, rest) = take_u32(rest)?;
    let (duni, rest) = take_u8(rest)?;
    let (huni, rest) = take_u8(rest)?;
    let (puni, rest) = take_u8(rest)?;
    let (coun, rest) = take_u8(rest)?;
    let (comf, rest) = take_u32(rest)?;
    let (somf, rest) = take_u32(rest)?;
    let (comt, rest) = take_text(rest)?;
    if !rest.is_empty() {
        return None;
    }
    Some(DspmSubfields {
        rcnm,
        rcid,
        hdat,
        vdat,
        sdat,
        cscl,
        duni,
        huni,
        puni,
        coun,
        comf,
        somf,
        comt,
    })
}

/// The data set parameters, the field DSPM.
///
/// An `Err` says that the bytes aren't the field, or that a text has a control byte, or means out of memory.
#[tactic(auto, unfolding(field_spec::specs::Contents::dspm_content))]
pub fn read_dspm(alloc: Global, bytes: &[u8]) -> Result<Dspm, FieldRefusal>
    ensures { Gives result (dspm_content bytes.now) }
{
    let Some(d) = cut_dspm(bytes) else {
        return Err(FieldRefusal::BadField);
    };
    if d.rcnm != PARAMETERS_RCNM {
        return Err(FieldRefusal::BadField);
    }
    if !is_plain_text(d.comt) {
        return Err(FieldRefusal::BadText);
    }
    Ok(Dspm {
        rcid: d.rcid,
        hdat: d.hdat,
        vdat: d.vdat,
        sdat: d.sdat,
        cscl: d.cscl,
        duni: d.duni,
        huni: d.huni,
        puni: d.puni,
        coun: d.coun,
        comf: d.comf,
        somf: d.somf,
        comt: owned_text(alloc, d.comt)?,
    })
}

/// Appends the data set parameters, the field DSPM.
///
/// An `Err` means out of memory, and leaves the bytes as they were.
pub fn write_dspm(alloc: Global, value: &Dspm, out: &mut Vec<u8>) -> Result<(), AllocError>
    ensures ok { OnOk result (out.new.items ≡ out.old.items ++ field_bytes (dspm_row value.now)) }
    ensures err { OnErr result (out.new.items ≡ out.old.items) }
{
    let row = [
        Value::Byte(PARAMETERS_RCNM),
        Value::Long(value.rcid),
        Value::Byte(value.hdat),
        Value::Byte(value.vdat),
        Value::Byte(value.sdat),
        Value::Long(value.cscl),
        Value::Byte(value.duni),
        Value::Byte(value.huni),
        Value::Byte(value.puni),
        Value::Byte(value.coun),
        Value::Long(value.comf),
        Value::Long(value.somf),
        Value::Text(value.comt.as_slice()),
    ];
    write_row(alloc, &row, out)
}

/// The first subfields of the data set identification: the record, the data set's names and numbers.
#[derive(Clone, Copy)]
struct DsidNames<'a> {
    rcnm: u8,
    rcid: u32,
    expp: u8,
    intu: u8,
    dsnm: &'a [u8],
    edtn: &'a [u8],
    updn: &'a [u8],
}

/// The dates and the edition of the standard.
#[derive(Clone, Copy)]
struct DsidDates {
    uadt: [u8; 8],
    isdt: [u8; 8],
    sted: [u8; 4],
}

/// The product specification, the producing agency and a comment.
#[derive(Clone, Copy)]
struct DsidProduct<'a> {
    prsp: u8,
    psdn: &'a [u8],
    pred: &'a [u8],
    prof: u8,
    agen: u16,
    comt: &'a [u8],
}

/// The subfields of the data set identification.
#[derive(Clone, Copy)]
struct DsidSubfields<'a> {
    names: DsidNames<'a>,
    dates: DsidDates,
    product: DsidProduct<'a>,
}

fn cut_dsid_names(bytes: &[u8]) -> Option<(DsidNames<'_>, &[u8])>
    ensures { option_map (λ x. (dsid_names x.0, x.1.now)) result ≡ cut_row dsid_name_forms bytes.now }
{
    let (rcnm, rest) = take_u8(bytes)?;
    let (rcid, rest) = take_u32(rest)?;
    let (expp, rest) = take_u8(rest)?;
    let (intu, rest) = take_u8(rest)?;
    let (dsnm, rest) = take_text(rest)?;
    let (edtn, rest) = take_text(rest)?;
    let (updn, rest) = take_text(rest)?;
    Some((
        DsidNames {
            rcnm,
            rcid,
            expp,
            intu,
            dsnm,
            edtn,
            updn,
        },
        rest,
    ))
}

fn cut_dsid_dates(bytes: &[u8]) -> Option<(DsidDates, &[u8])>
    ensures { option_map (λ x. (dsid_dates x.0, x.1.now)) result ≡ cut_row dsid_date_forms bytes.now }
{
    let (uadt, rest) = take_array::<8>(bytes)?;
    let (isdt, rest) = take_array::<8>(rest)?;
    let (sted, rest) = take_array::<4>(rest)?;
    Some((DsidDates { uadt, isdt, sted }, rest))
}

fn cut_dsid_product(bytes: &[u8]) -> Option<(DsidProduct<'_>, &[u8])>
    ensures { option_map (λ x. (dsid_product x.0, x.1.now)) result ≡ cut_row dsid_product_forms bytes.now }
{
    let (prsp, rest) = take_u8(bytes)?;
    let (psdn, rest) = take_text(rest)?;
    let (pred, rest) = take_text(rest)?;
    let (prof, rest) = take_u8(rest)?;
    let (agen, rest) = take_u16(rest)?;
    let (comt, rest) = take_text(rest)?;
    Some((
        DsidProduct {
            prsp,
            psdn,
            pred,
            prof,
            agen,
            comt,
        },
        rest,
    ))
}

/// Cuts the data set identification into subfields, group by group.
fn cut_dsid_groups(bytes: &[u8]) -> Option<DsidSubfields<'_>>
    ensures { option_map dsid_subfields result ≡ option_and_then
        (λ body. whole (cut_groups dsid_name_forms dsid_date_forms dsid_product_forms body)) (before_terminator bytes.now) }
{
    let (names, rest) = cut_dsid_names(field_body(bytes)?)?;
    let (dates, rest) = cut_dsid_dates(rest)?;
    let (product, rest) = cut_dsid_product(rest)?;
    if !rest.is_empty() {
        return None;
    }
    Some(DsidSubfields {
        names,
        dates,
        product,
    })
}

/// Cuts the data set identification into subfields.
fn cut_dsid(bytes: &[u8]) -> Option<DsidSubfields<'_>>
    ensures { option_map dsid_subfields result ≡ field_row dsid_forms bytes.now }
{
    cut_dsid_groups(bytes)
}

/// Whether no control byte stands in a text of the data set identification.
fn is_plain_dsid(d: &DsidSubfields<'_>) -> bool
    ensures { result ≡ list_all is_plain (dsid_subfields d.now) }
{
    is_plain_text(d.names.dsnm)
        && is_plain_text(d.names.edtn)
        && is_plain_text(d.names.updn)
        && is_plain_text(&d.dates.uadt)
        && is_plain_text(&d.dates.isdt)
        && is_plain_text(&d.dates.sted)
        && is_plain_text(d.product.psdn)
        && is_plain_text(d.product.pred)
        && is_plain_text(d.product.comt)
}

/// The value of the subfields of the data set identification.
fn dsid_of(alloc: Global, d: &DsidSubfields<'_>) -> Result<Dsid, AllocError>
    ensures { IfOk result (λ dsid. dsid ≡ dsid_value (dsid_subfields d.now)) }
{
    Ok(Dsid {
        rcid: d.names.rcid,
        expp: d.names.expp,
        intu: d.names.intu,
        dsnm: owned_text(alloc, d.names.dsnm)?,
        edtn: owned_text(alloc, d.names.edtn)?,
        updn: owned_text(alloc, d.names.updn)?,
        uadt: d.dates.uadt,
        isdt: d.dates.isdt,
        sted: d.dates.sted,
        prsp: d.product.prsp,
        psdn: owned_text(alloc, d.product.psdn)?,
        pred: owned_text(alloc, d.product.pred)?,
        prof: d.product.prof,
        agen: d.product.agen,
        comt: owned_text(alloc, d.product.comt)?,
    })
}

/// The data set identification, the field DSID.
///
/// An `Err` says that the bytes aren't the field, or that a text has a control byte, or means out of memory.
#[tactic(auto, unfolding(field_spec::specs::Contents::dsid_content))]
pub fn read_dsid(alloc: Global, bytes: &[u8]) -> Result<Dsid, FieldRefusal>
    ensures { Gives result (dsid_content bytes.now) }
{
    let Some(subfields) = cut_dsid(bytes) else {
        return Err(FieldRefusal::BadField);
    };
    if subfields.names.rcnm != IDENTIFICATION_RCNM {
        return Err(FieldRefusal::BadField);
    }
    if !is_plain_dsid(&subfields) {
        return Err(FieldRefusal::BadText);
    }
    Ok(dsid_of(alloc, &subfields)?)
}

/// Appends the data set identification, the field DSID.
///
/// An `Err` means out of memory, and leaves the bytes as they were.
pub fn write_dsid(alloc: Global, value: &Dsid, out: &mut Vec<u8>) -> Result<(), AllocError>
    ensures ok { OnOk result (out.new.items ≡ out.old.items ++ field_bytes (dsid_row value.now)) }
    ensures err { OnErr result (out.new.items ≡ out.old.items) }
{
    let row = [
        Value::Byte(IDENTIFICATION_RCNM),
        Value::Long(value.rcid),
        Value::Byte(value.expp),
        Value::Byte(value.intu),
        Value::Text(value.dsnm.as_slice()),
        Value::Text(value.edtn.as_slice()),
        Value::Text(value.updn.as_slice()),
        Value::Fixed(&value.uadt),
        Value::Fixed(&value.isdt),
        Value::Fixed(&value.sted),
        Value::Byte(value.prsp),
        Value::Text(value.psdn.as_slice()),
        Value::Text(value.pred.as_slice()),
        Value::Byte(value.prof),
        Value::Short(value.agen),
        Value::Text(value.comt.as_slice()),
    ];
    write_row(alloc, &row, out)
}
