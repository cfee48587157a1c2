//! The values of the fields of a record.

ghost use Rattle.std.specs.Prelude.{◌≡◌, ◌++◌, ℕ, [], None, OnOk, IfErr};
ghost use Rattle.file_spec.specs.RecordReading.{content_fault, fault_of_content};
ghost use Rattle.cell_read.specs.Gives.{IsFault};
ghost use Rattle.cell_read.specs.Kept.{kept_with};
ghost use Rattle.cell_read.specs.ValuesOf.{values_of, with_content};

use crate::refusal::RecordRefusal;
use file_spec::FieldTag;
use s57_fields::{
    read_attf, read_attv, read_dsid, read_dspm, read_dssi, read_ffpt, read_foid, read_frid,
    read_fspt, read_natf, read_sg2d, read_sg3d, read_vrid, read_vrpt,
};
use s57_types::{
    Attrs, Deep, Dsid, Dspm, Dssi, Ends, Frid, Items, Lnam, Partners, Places, Plane, Vrid,
};
use std::alloc::{AllocError, Global};
use std::mem;

/// How many rows of one field make a record too long. Each row of a field that may stand several times takes at least 8
/// bytes when it is written, and a record 99,999 at most.
const ROW_LIMIT: usize = 12_500;

/// The values of the fields that were read so far, by their tags.
#[derive(Drop)]
pub struct FieldValues {
    pub dsid: Option<Dsid>,
    pub dssi: Option<Dssi>,
    pub dspm: Option<Dspm>,
    pub frid: Option<Frid>,
    pub foid: Option<Lnam>,
    pub attf: Attrs,
    pub natf: Attrs,
    pub partners: Partners,
    pub places: Places,
    pub vrid: Option<Vrid>,
    pub attv: Attrs,
    pub ends: Ends,
    pub plane: Plane,
    pub deep: Deep,
}

/// No value.
#[tactic(auto, unfolding(crate::specs::ValuesOf::values_of))]
pub fn no_values(alloc: Global) -> FieldValues
    ensures { (nall : ℕ) → result ≡ values_of nall [] }
{
    FieldValues {
        dsid: None,
        dssi: None,
        dspm: None,
        frid: None,
        foid: None,
        attf: Items::make(alloc),
        natf: Items::make(alloc),
        partners: Items::make(alloc),
        places: Items::make(alloc),
        vrid: None,
        attv: Items::make(alloc),
        ends: Items::make(alloc),
        plane: Items::make(alloc),
        deep: Items::make(alloc),
    }
}

/// Puts rows behind others. Mostly there are none, and no memory is taken.
fn join<T: Drop>(alloc: Global, rows: &mut Items<T>, more: Items<T>) -> Result<(), AllocError>
    ensures { OnOk result (rows.new ≡ rows.old ++ more) }
{
    if rows.is_empty() {
        *rows = more;
    } else {
        let mut joined = mem::replace(rows, Items::make(alloc)).into_vec();
        joined.append(&mut more.into_vec())?;
        *rows = Items::of_vec(joined);
    }
    Ok(())
}

/// Keeps rows behind others, unless these make the record too long by themselves.
///
/// A directory of one record may name the same bytes thousands of times, so the rows of all its fields may take gigabytes.
fn keep<T: Drop>(alloc: Global, rows: &mut Items<T>, more: Items<T>) -> Result<(), AllocError>
    ensures { OnOk result (rows.new ≡ kept_with rows.old more) }
{
    if rows.len() >= ROW_LIMIT {
        return Ok(());
    }
    join(alloc, rows, more)
}

/// Reads the bytes of a field, behind the fields that were read; national attributes are at the level NALL.
#[tactic(auto, using(crate::proofs::ValueSteps::gives_fault), unfolding(crate::specs::ValuesOf::with_content))]
pub fn read_content(
    alloc: Global,
    nall: u8,
    tag: FieldTag,
    bytes: &[u8],
    values: &mut FieldValues,
) -> Result<(), RecordRefusal>
    ensures good { OnOk result (content_fault nall tag bytes.now ≡ None) }
    ensures values { OnOk result (values.new ≡ with_content nall tag bytes.now values.old) }
    ensures fault { IfErr result (λ e. IsFault e (fault_of_content nall tag bytes.now)) }
{
    match tag {
        FieldTag::RecordNumber => return Ok(()),
        FieldTag::Dsid => values.dsid = Some(read_dsid(alloc, bytes)?),
        FieldTag::Dssi => values.dssi = Some(read_dssi(alloc, bytes)?),
        FieldTag::Dspm => values.dspm = Some(read_dspm(alloc, bytes)?),
        FieldTag::Frid => values.frid = Some(read_frid(alloc, bytes)?),
        FieldTag::Foid => values.foid = Some(read_foid(alloc, bytes)?),
        FieldTag::Attf => join(alloc, &mut values.attf, read_attf(alloc, bytes)?)?,
        FieldTag::Natf => join(alloc, &mut values.natf, read_natf(alloc, nall, bytes)?)?,
        FieldTag::Ffpt => keep(alloc, &mut values.partners, read_ffpt(alloc, bytes)?)?,
        FieldTag::Fspt => keep(alloc, &mut values.places, read_fspt(alloc, bytes)?)?,
        FieldTag::Vrid => values.vrid = Some(read_vrid(alloc, bytes)?),
        FieldTag::Attv => join(alloc, &mut values.attv, read_attv(alloc, bytes)?)?,
        FieldTag::Vrpt => keep(alloc, &mut values.ends, read_vrpt(alloc, bytes)?)?,
        FieldTag::Sg2d => keep(alloc, &mut values.plane, read_sg2d(alloc, bytes)?)?,
        FieldTag::Sg3d => keep(alloc, &mut values.deep, read_sg3d(alloc, bytes)?)?,
    }
    Ok(())
}
