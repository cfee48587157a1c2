//! Records, and their pointers and identities, as lists.

ghost use Rattle.std.specs.Prelude.{◌≡◌, ◌≤◌, ◌++◌, All, IfOk, OnOk, length, map};
ghost use Rattle.std.specs.Borrow.{Bor};
ghost use Rattle.s57_types.specs.declared.record.Rec.{Rec as SpecRec};
ghost use Rattle.s57_types.specs.RecordFields.{length_limit};
ghost use Rattle.cell_spec.specs.Lookup.{all_records};
ghost use Rattle.chain_topo.specs.Listed.{HasFewPointers, pointers_from, pointers_of, pointers_listed, identity_of, identities_listed};

use cell_spec::Ref;
use s57_types::{Cell, End, Lnam, Rec, RecName, Spot};
use std::alloc::{AllocError, Global};

// Appends records.
fn add_records<'a>(list: &mut Vec<&'a Rec>, recs: &'a [Rec]) -> Result<(), AllocError>
    ensures { OnOk result (map (λ r. r.now) list.new.items ≡ map (λ r. r.now) list.old.items ++ recs.now) }
{
    for rec in recs {
        list.push(rec)?;
    }
    Ok(())
}

/// All records of a cell, in file order.
///
/// An `Err` means out of memory.
pub fn records_of(alloc: Global, cell: &Cell) -> Result<Vec<&Rec>, AllocError>
    ensures { IfOk result (λ list. map (λ r. r.now) list.items ≡ all_records cell.now) }
{
    let mut list = Vec::new(alloc);
    add_records(&mut list, cell.vi.as_slice())?;
    add_records(&mut list, cell.vc.as_slice())?;
    add_records(&mut list, cell.ve.as_slice())?;
    add_records(&mut list, cell.fe.as_slice())?;
    Ok(list)
}

/// A pointer of a record to another.
trait Pointer {
    ghost use Rattle.s57_types.specs.declared.name.RecName.{RecName as SpecName};

    ghost target: { Self → SpecName };

    /// The name of the record that it points to.
    fn target_name(&self) -> RecName
        ensures { result ≡ target self.now };
}

impl Pointer for End {
    ghost target = { λ end. end.to };

    fn target_name(&self) -> RecName {
        self.to
    }
}

impl Pointer for Spot {
    ghost target = { λ spot. spot.to };

    fn target_name(&self) -> RecName {
        self.to
    }
}

// Appends the target of each of a record's pointers, with the place of the pointer.
fn add_targets<P: Pointer>(
    list: &mut Vec<(RecName, Ref)>,
    from: RecName,
    pointers: &[P],
) -> Result<(), AllocError>
    requires { length pointers.now ≤ length_limit }
    ensures { OnOk result (list.new.items ≡ list.old.items ++ pointers_from from 1 (map P.target pointers.now)) }
{
    for (k, pointer) in pointers.iter().enumerate() {
        let place = (k + 1) as u32;
        list.push((pointer.target_name(), Ref { from, place }))?;
    }
    Ok(())
}

// Appends the pointers of a record, each with its target before it.
fn add_pointers(list: &mut Vec<(RecName, Ref)>, rec: &Rec) -> Result<(), AllocError>
    requires { HasFewPointers rec.now }
    ensures { OnOk result (list.new.items ≡ list.old.items ++ pointers_of rec.now) }
{
    match rec {
        Rec::V(vector) => add_targets(list, vector.name, vector.ends.as_slice()),
        Rec::F(feature) => add_targets(list, feature.name, feature.places.as_slice()),
        Rec::H(_) => Ok(()),
    }
}

/// The pointers of records, each with its target before it.
pub(crate) fn list_pointers(
    alloc: Global,
    records: &[&Rec],
) -> Result<Vec<(RecName, Ref)>, AllocError>
    requires { All (λ (r : Bor SpecRec). HasFewPointers r.now) records.now }
    ensures { IfOk result (λ list. list.items ≡ pointers_listed (map (λ r. r.now) records.now)) }
{
    let mut list = Vec::new(alloc);
    for rec in records {
        add_pointers(&mut list, rec)?;
    }
    Ok(list)
}

// Appends the identity of a record with its name, if it is a feature.
fn add_identity(list: &mut Vec<(Lnam, RecName)>, rec: &Rec) -> Result<(), AllocError>
    ensures { OnOk result (list.new.items ≡ list.old.items ++ identity_of rec.now) }
{
    if let Rec::F(feature) = rec {
        list.push((feature.foid, feature.name))?;
    }
    Ok(())
}

/// The identities of records, each with the name of the feature that bears it.
pub(crate) fn list_identities(
    alloc: Global,
    records: &[&Rec],
) -> Result<Vec<(Lnam, RecName)>, AllocError>
    ensures { IfOk result (λ list. list.items ≡ identities_listed (map (λ r. r.now) records.now)) }
{
    let mut list = Vec::new(alloc);
    for rec in records {
        add_identity(&mut list, rec)?;
    }
    Ok(list)
}
