//! Records as rows of small numbers, what they answer, and what edits make of a list of them by the plain definition.

use cell_spec::{Edit, Ref};
use s57_types::Kind::{Fe, Vc, Ve, Vi};
use s57_types::{
    Attrs, Deep, End, Ends, Feature, Kind, Lnam, Partners, Places, Plane, Rec, RecName, Spot,
    Vector,
};
use std::alloc::{AllocError, Global};

/// A record: its name, its version, the first so many of its targets, and the identifier of a feature.
#[derive(Clone, Copy)]
pub(crate) struct Row {
    pub(crate) name: RecName,
    pub(crate) version: u16,
    pub(crate) targets: [RecName; 3],
    pub(crate) count: usize,
    pub(crate) fidn: u32,
}

/// A row from now on, or the end of the row of its name.
#[derive(Clone, Copy)]
pub(crate) struct Change {
    pub(crate) row: Row,
    pub(crate) goes: bool,
}

/// One of the four kinds of records.
pub(crate) fn kind_of(number: u32) -> Kind {
    match number % 4 {
        0 => Vi,
        1 => Vc,
        2 => Ve,
        _ => Fe,
    }
}

/// A name by its number: five of each kind.
pub(crate) fn nth_name(number: u32) -> RecName {
    RecName {
        kind: kind_of(number),
        id: number / 4 % 5,
    }
}

/// The identifier with a number.
pub(crate) fn identifier(fidn: u32) -> Lnam {
    Lnam {
        agen: 550,
        fidn,
        fids: 1,
    }
}

fn ends_of(alloc: Global, row: &Row) -> Result<Ends, AllocError> {
    let mut ends = Ends::make(alloc);
    for target in row.targets.iter().take(row.count) {
        ends.push(End {
            to: *target,
            ornt: 255,
            usag: 255,
            topi: 1,
            mask: 255,
        })?;
    }
    Ok(ends)
}

fn places_of(alloc: Global, row: &Row) -> Result<Places, AllocError> {
    let mut places = Places::make(alloc);
    for target in row.targets.iter().take(row.count) {
        places.push(Spot {
            to: *target,
            ornt: 1,
            usag: 1,
            mask: 255,
        })?;
    }
    Ok(places)
}

fn vector_of(alloc: Global, row: &Row) -> Result<Rec, AllocError> {
    Ok(Rec::V(Vector {
        name: row.name,
        rver: row.version,
        attrs: Attrs::make(alloc),
        ends: ends_of(alloc, row)?,
        plane: Plane::make(alloc),
        deep: Deep::make(alloc),
    }))
}

fn feature_of(alloc: Global, row: &Row) -> Result<Rec, AllocError> {
    Ok(Rec::F(Feature {
        name: row.name,
        prim: 2,
        grup: 2,
        objl: 30,
        rver: row.version,
        foid: identifier(row.fidn),
        attf: Attrs::make(alloc),
        natf: Attrs::make(alloc),
        partners: Partners::make(alloc),
        places: places_of(alloc, row)?,
    }))
}

fn record_of(alloc: Global, row: &Row) -> Result<Rec, AllocError> {
    match row.name.kind {
        Fe => feature_of(alloc, row),
        _ => vector_of(alloc, row),
    }
}

/// The row of a name.
pub(crate) fn row_of(rows: &[Row], name: RecName) -> Option<&Row> {
    rows.iter().find(|row| row.name == name)
}

// Appends the places at which a row points to a name.
fn push_pointers(list: &mut Vec<Ref>, row: &Row, name: RecName) -> Result<(), AllocError> {
    let mut place = 0u32;
    for target in row.targets.iter().take(row.count) {
        place = place.saturating_add(1);
        if *target == name {
            list.push(Ref {
                from: row.name,
                place,
            })?;
        }
    }
    Ok(())
}

/// The pointers of rows to a name.
pub(crate) fn pointers_to(
    alloc: Global,
    rows: &[Row],
    name: RecName,
) -> Result<Vec<Ref>, AllocError> {
    let mut list = Vec::new(alloc);
    for row in rows {
        push_pointers(&mut list, row, name)?;
    }
    list.sort_unstable();
    Ok(list)
}

/// The features among rows that bear an identifier.
pub(crate) fn bearers_of(
    alloc: Global,
    rows: &[Row],
    fidn: u32,
) -> Result<Vec<RecName>, AllocError> {
    let mut list = Vec::new(alloc);
    for row in rows {
        if row.name.kind == Fe && row.fidn == fidn {
            list.push(row.name)?;
        }
    }
    list.sort_unstable();
    Ok(list)
}

// The edit that makes a change of some rows, if it changes them.
fn edit_of(alloc: Global, rows: &[Row], change: &Change) -> Result<Option<Edit>, AllocError> {
    let row = &change.row;
    Ok(match (row_of(rows, row.name).is_some(), change.goes) {
        (true, true) => Some(Edit::Del(row.name)),
        (true, false) => Some(Edit::Set(record_of(alloc, row)?)),
        (false, true) => None,
        (false, false) => Some(Edit::Add(record_of(alloc, row)?)),
    })
}

/// The edits that make changes of some rows.
pub(crate) fn edits_of(
    alloc: Global,
    rows: &[Row],
    changes: &[Change],
) -> Result<Vec<Edit>, AllocError> {
    let mut edits = Vec::new(alloc);
    for change in changes {
        if let Some(edit) = edit_of(alloc, rows, change)? {
            edits.push(edit)?;
        }
    }
    Ok(edits)
}

// Appends what changes make of a row.
fn push_changed(list: &mut Vec<Row>, row: &Row, changes: &[Change]) -> Result<(), AllocError> {
    match changes.iter().find(|change| change.row.name == row.name) {
        None => list.push(*row)?,
        Some(change) if change.goes => {}
        Some(change) => list.push(change.row)?,
    }
    Ok(())
}

/// The rows after changes: each changed one in its place, and the new ones last.
pub(crate) fn rows_after(
    alloc: Global,
    rows: &[Row],
    changes: &[Change],
) -> Result<Vec<Row>, AllocError> {
    let mut list = Vec::new(alloc);
    for row in rows {
        push_changed(&mut list, row, changes)?;
    }
    for change in changes {
        if !change.goes && row_of(rows, change.row.name).is_none() {
            list.push(change.row)?;
        }
    }
    Ok(list)
}
