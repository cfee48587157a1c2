//! The area of data coverage on all squares.

ghost use Rattle.std.specs.Prelude.{◌≡◌, ◌+◌, ◌*◌, ◌≤◌, ◌<◌, ◌++◌, IfOk, OnOk};
ghost use Rattle.cell_make.specs.GeneratedCell.{available as available_attribute, coverage_area as coverage_area_of, eastern_border};
ghost use Rattle.cell_make.specs.GeneratedCell.{northern_border, southern_border, western_border, whole_boundary};

use crate::record::{area, east_id, north_id, outer};
use s57_types::{Attr, Items, Places, Rec};
use std::alloc::{AllocError, Global};

/// The group and the object class of M_COVR (S-57 Appendix A).
const COVERAGE_GROUP: u8 = 2;

const COVERAGE_CLASS: u16 = 302;

/// The attribute CATCOV, the category of coverage.
const CATCOV: u16 = 18;

/// Appends the western border, northwards.
#[tactic(auto, using(crate::proofs::Ranges::row_more))]
fn push_west(n: u32, places: &mut Places) -> Result<(), AllocError>
    requires { n ≤ 100 }
    ensures { OnOk result (places.new ≡ places.old ++ western_border n) }
{
    for row in 0..n {
        places.push(outer(north_id(n, row, 0), 1))?;
    }
    Ok(())
}

/// Appends the northern border, eastwards.
#[tactic(auto, using(crate::proofs::Ranges::row_more))]
fn push_north(n: u32, places: &mut Places) -> Result<(), AllocError>
    requires { n ≤ 100 }
    ensures { OnOk result (places.new ≡ places.old ++ northern_border n) }
{
    for column in 0..n {
        places.push(outer(east_id(n, n, column), 1))?;
    }
    Ok(())
}

/// Appends the eastern border, southwards.
#[tactic(auto, using(crate::proofs::Ranges::row_more, crate::proofs::Ranges::from_last))]
fn push_east(n: u32, places: &mut Places) -> Result<(), AllocError>
    requires { n ≤ 100 }
    ensures { OnOk result (places.new ≡ places.old ++ eastern_border n) }
{
    for k in 0..n {
        places.push(outer(north_id(n, n - 1 - k, n), 2))?;
    }
    Ok(())
}

/// Appends the southern border, westwards.
#[tactic(auto, using(crate::proofs::Ranges::row_more, crate::proofs::Ranges::from_last))]
fn push_south(n: u32, places: &mut Places) -> Result<(), AllocError>
    requires { n ≤ 100 }
    ensures { OnOk result (places.new ≡ places.old ++ southern_border n) }
{
    for k in 0..n {
        places.push(outer(east_id(n, 0, n - 1 - k), 2))?;
    }
    Ok(())
}

/// The boundary of all squares, clockwise from the south-western corner.
fn boundary(alloc: Global, n: u32) -> Result<Places, AllocError>
    requires { n ≤ 100 }
    ensures { IfOk result (λ places. places ≡ whole_boundary n) }
{
    let mut places = Places::make(alloc);
    push_west(n, &mut places)?;
    push_north(n, &mut places)?;
    push_east(n, &mut places)?;
    push_south(n, &mut places)?;
    Ok(places)
}

/// Coverage is available: CATCOV 1.
fn available(alloc: Global) -> Result<Attr, AllocError>
    ensures { IfOk result (λ attr. attr ≡ available_attribute) }
{
    Ok(Attr {
        code: CATCOV,
        value: Items::of_vec(Vec::from_slice(alloc, b"1")?),
    })
}

/// The area of data coverage.
pub fn coverage_area(alloc: Global, n: u32) -> Result<Rec, AllocError>
    requires { n ≤ 100 }
    ensures { IfOk result (λ rec. rec ≡ coverage_area_of n) }
{
    let category = available(alloc)?;
    let places = boundary(alloc, n)?;
    let attf = Items::of_vec(vec![in alloc; category]?);
    Ok(area(
        alloc,
        n * n + 1,
        COVERAGE_GROUP,
        COVERAGE_CLASS,
        attf,
        places,
    ))
}
