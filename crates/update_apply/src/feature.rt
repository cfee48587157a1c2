//! Feature records of an update (S-57 Part 3, 8.4.2).

ghost use Rattle.std.specs.Prelude.{◌≡◌, ℕ, List, IfOk};
ghost use Rattle.frame_spec.specs.RecordFrame.{Field};
ghost use Rattle.cell_read.specs.KeptRecords.{IsKeptOf};
ghost use Rattle.cell_spec.specs.Names.{same_identity};
ghost use Rattle.update_spec.specs.UpdateRecords.{feature_edit, feature_name, inserted_feature, modified_feature};
ghost use Rattle.update_spec.specs.declared.control.Instruction.TheVariants.{Insert, Delete, Modify};
ghost use Rattle.update_apply.specs.Gives.{GivesUpdate};

use crate::attributes::modified_attributes;
use crate::case::Case;
use crate::given::{kept_rows_of, rows_of};
use crate::refusal::StepRefusal;
use crate::rows::modified_rows;
use crate::target::target_feature;
use crate::vector::is_next_version;
use cell_spec::Edit;
use chain_topo::ListLook;
use file_spec::{FieldTag, RecordType};
use iso_frame::Frame;
use s57_types::{Feature, Frid, Kind, Lnam, Rec, RecName};
use std::alloc::{AllocError, Global};
use update_spec::{ControlTag, Identifiers, Instruction, UpdateFault};

/// The name of a feature record.
pub fn feature_name(frid: Frid) -> RecName
    ensures { result ≡ feature_name frid }
{
    RecName {
        kind: Kind::Fe,
        id: frid.rcid,
    }
}

/// Whether two identifiers are one.
fn same_identity(a: Lnam, b: Lnam) -> bool
    ensures { result ≡ same_identity a b }
{
    a.agen == b.agen && a.fidn == b.fidn && a.fids == b.fids
}

/// What is kept of the record that a feature record inserts; national attributes are at the update's level.
fn inserted_feature(
    alloc: Global,
    level: u8,
    ids: Identifiers,
    frame: &Frame<'_>,
) -> Result<Rec, AllocError>
    ensures { (nall : ℕ) → IfOk result (λ rec. IsKeptOf nall rec (inserted_feature level ids.frid ids.foid frame.now.fields)) }
{
    let attf = rows_of(alloc, frame, FieldTag::Attf, 0)?;
    let natf = rows_of(alloc, frame, FieldTag::Natf, level)?;
    let partners = kept_rows_of(alloc, frame, FieldTag::Ffpt)?;
    let places = kept_rows_of(alloc, frame, FieldTag::Fspt)?;
    Ok(Rec::F(Feature {
        name: feature_name(ids.frid),
        prim: ids.frid.prim,
        grup: ids.frid.grup,
        objl: ids.frid.objl,
        rver: ids.frid.rver,
        foid: ids.foid,
        attf,
        natf,
        partners,
        places,
    }))
}

/// The record that a feature record makes of its target. Its primitive, group, class and identifier stay.
#[tactic(auto, using(crate::proofs::Steps::stops, crate::proofs::Steps::goes), unfolding(update_spec::specs::UpdateRecords::modified_feature))]
fn modified_feature(
    alloc: Global,
    level: u8,
    target: &Feature,
    frid: Frid,
    frame: &Frame<'_>,
) -> Result<Rec, StepRefusal>
    ensures { GivesUpdate result (modified_feature level target.now frid frame.now.fields) }
{
    let partners = modified_rows(
        alloc,
        frame,
        FieldTag::Ffpt,
        ControlTag::Ffpc,
        &target.partners,
    )?;
    let places = modified_rows(
        alloc,
        frame,
        FieldTag::Fspt,
        ControlTag::Fspc,
        &target.places,
    )?;
    let attf = modified_attributes(alloc, frame, FieldTag::Attf, 0, &target.attf)?;
    let natf = modified_attributes(alloc, frame, FieldTag::Natf, level, &target.natf)?;
    Ok(Rec::F(Feature {
        name: feature_name(frid),
        prim: target.prim,
        grup: target.grup,
        objl: target.objl,
        rver: frid.rver,
        foid: target.foid,
        attf,
        natf,
        partners,
        places,
    }))
}

/// The edit of a feature record that is inserted.
#[tactic(auto, unfolding(update_spec::specs::UpdateRecords::feature_edit))]
fn feature_insertion(case: &Case<'_>, ids: Identifiers) -> Result<Edit, StepRefusal>
    requires { case.now.nall ≡ case.now.look.now.head.nall }
    ensures { GivesUpdate result (feature_edit Insert case.now.look.now case.now.level ids.frid ids.foid case.now.frame.now.fields) }
{
    if let Some(fault) = case.insertion_fault(feature_name(ids.frid), RecordType::Feature) {
        return Err(StepRefusal::Fault(fault));
    }
    let rec = inserted_feature(case.alloc, case.level, ids, case.frame)?;
    case.addition(rec)
}

/// The edit of a feature record that is deleted.
#[tactic(auto, unfolding(update_spec::specs::UpdateRecords::feature_edit))]
fn feature_deletion(look: &ListLook<'_>, ids: Identifiers) -> Result<Edit, UpdateFault>
    ensures { (level : ℕ) (fields : List Field) → result ≡ feature_edit Delete look.now level ids.frid ids.foid fields }
{
    let name = feature_name(ids.frid);
    let Some(target) = target_feature(look, name) else {
        return Err(UpdateFault::NoTarget);
    };
    if !same_identity(ids.foid, target.foid) {
        return Err(UpdateFault::OtherIdentity);
    }
    Ok(Edit::Del(name))
}

/// The edit of a feature record that is modified.
#[tactic(auto, unfolding(update_spec::specs::UpdateRecords::feature_edit))]
fn feature_modification(case: &Case<'_>, ids: Identifiers) -> Result<Edit, StepRefusal>
    requires { case.now.nall ≡ case.now.look.now.head.nall }
    ensures { GivesUpdate result (feature_edit Modify case.now.look.now case.now.level ids.frid ids.foid case.now.frame.now.fields) }
{
    let Some(target) = target_feature(case.look, feature_name(ids.frid)) else {
        return Err(StepRefusal::Fault(UpdateFault::NoTarget));
    };
    if !is_next_version(target.rver, ids.frid.rver) {
        return Err(StepRefusal::Fault(UpdateFault::WrongVersion));
    }
    if !same_identity(ids.foid, target.foid) {
        return Err(StepRefusal::Fault(UpdateFault::OtherIdentity));
    }
    let rec = modified_feature(case.alloc, case.level, target, ids.frid, case.frame)?;
    match case.length_fault(&rec) {
        Some(fault) => Err(StepRefusal::Fault(fault)),
        None => Ok(Edit::Set(rec)),
    }
}

/// The edit of a feature record, by its instruction.
pub fn feature_edit(
    case: &Case<'_>,
    instruction: Instruction,
    ids: Identifiers,
) -> Result<Edit, StepRefusal>
    requires { case.now.nall ≡ case.now.look.now.head.nall }
    ensures { GivesUpdate result (feature_edit instruction case.now.look.now case.now.level ids.frid ids.foid case.now.frame.now.fields) }
{
    match instruction {
        Instruction::Insert => feature_insertion(case, ids),
        Instruction::Delete => Ok(feature_deletion(case.look, ids)?),
        Instruction::Modify => feature_modification(case, ids),
    }
}
