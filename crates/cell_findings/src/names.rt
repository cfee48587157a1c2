//! The names of a cell's records, and the identifiers of its features.

ghost use Rattle.std.specs.Prelude.{◌≡◌, ◌++◌, IfOk, OnOk, filter, map};
ghost use Rattle.std.specs.List.{flat_map};
ghost use Rattle.cell_spec.specs.Ascending.{ascending, order_by};
ghost use Rattle.cell_spec.specs.Lookup.{identities_of, name_of as spec_name};
ghost use Rattle.cell_spec.specs.Names.{identity_parts};
ghost use Rattle.rule_spec.specs.Records.{is_edge_name as spec_edge_name};
ghost use Rattle.cell_findings.specs.Judged.{identities_in as spec_identities_in, is_part_name as spec_part_name, names_in as spec_names_in};

use cell_spec::{Names, ascending_names, distinct, orders_are_by_parts};
use check_words::is_edge_name;
use s57_types::{Cell, Kind, Lnam, Rec, RecName};
use std::alloc::{AllocError, Global};

fn push_names(names: &mut Vec<RecName>, recs: &[Rec]) -> Result<(), AllocError>
    ensures { OnOk result (names.new.items ≡ names.old.items ++ map spec_name recs.now) }
{
    for rec in recs {
        names.push(rec.name())?;
    }
    Ok(())
}

/// The names of a cell's records, ascending.
///
/// An `Err` means out of memory.
pub fn names_in(alloc: Global, cell: &Cell) -> Result<Names, AllocError>
    ensures { IfOk result (λ names. names ≡ spec_names_in cell.now) }
{
    let mut names = Vec::new(alloc);
    push_names(&mut names, cell.vi.as_slice())?;
    push_names(&mut names, cell.vc.as_slice())?;
    push_names(&mut names, cell.ve.as_slice())?;
    push_names(&mut names, cell.fe.as_slice())?;
    Ok(ascending_names(names))
}

/// Those names that are of edges.
pub(crate) fn edge_names(alloc: Global, names: &[RecName]) -> Result<Vec<RecName>, AllocError>
    ensures { IfOk result (λ edges. edges.items ≡ filter spec_edge_name names.now) }
{
    names
        .iter()
        .copied()
        .filter(|name| is_edge_name(*name))
        .collect(alloc)
}

fn is_part_name(name: RecName) -> bool
    ensures { result ≡ spec_part_name name }
{
    name.kind == Kind::Vc || is_edge_name(name)
}

/// Those names that are of connected nodes and edges.
pub(crate) fn part_names(alloc: Global, names: &[RecName]) -> Result<Vec<RecName>, AllocError>
    ensures { IfOk result (λ parts. parts.items ≡ filter spec_part_name names.now) }
{
    names
        .iter()
        .copied()
        .filter(|name| is_part_name(*name))
        .collect(alloc)
}

fn push_identities(identities: &mut Vec<Lnam>, recs: &[Rec]) -> Result<(), AllocError>
    ensures { OnOk result (identities.new.items ≡ identities.old.items ++ flat_map identities_of recs.now) }
{
    for rec in recs {
        if let Rec::F(feature) = rec {
            identities.push(feature.foid)?;
        }
    }
    Ok(())
}

fn ascending_identities(identities: Vec<Lnam>) -> Vec<Lnam>
    ensures { result.items ≡ ascending (order_by identity_parts) identities.items }
{
    orders_are_by_parts();
    distinct(identities)
}

/// The identifiers that a cell's features bear, ascending, each once.
pub(crate) fn identities_in(alloc: Global, cell: &Cell) -> Result<Vec<Lnam>, AllocError>
    ensures { IfOk result (λ identities. identities.items ≡ spec_identities_in cell.now) }
{
    let mut identities = Vec::new(alloc);
    push_identities(&mut identities, cell.vi.as_slice())?;
    push_identities(&mut identities, cell.vc.as_slice())?;
    push_identities(&mut identities, cell.ve.as_slice())?;
    push_identities(&mut identities, cell.fe.as_slice())?;
    Ok(ascending_identities(identities))
}
