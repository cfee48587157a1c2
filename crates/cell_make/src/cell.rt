//! The generated cell.

ghost use Rattle.std.specs.Prelude.{◌≡◌, ◌+◌, ◌≤◌, ◌<◌, ◌++◌, IfOk, OnOk};
ghost use Rattle.cell_spec.specs.Writable.{IsWritable};
ghost use Rattle.cell_parts.specs.Parts.{head as head_of};
ghost use Rattle.cell_make.specs.Squares.{each_place, row_of};
ghost use Rattle.cell_make.specs.GeneratedCell.{depth_area as depth_area_at, east_edge as east_edge_at, generated_areas, generated_cell};
ghost use Rattle.cell_make.specs.GeneratedCell.{generated_edges, generated_nodes, node_at, north_edge as north_edge_at};

use crate::coverage::coverage_area;
use crate::record::{depth_area, east_edge, node, north_edge};
use s57_types::{Cell, Head, Items, Recs, Text};
use std::alloc::{AllocError, Global};

fn text(alloc: Global, bytes: &[u8]) -> Result<Text, AllocError>
    ensures { IfOk result (λ text. text ≡ bytes.now) }
{
    Ok(Items::of_vec(Vec::from_slice(alloc, bytes)?))
}

/// The head of the generated cell, at the lexical levels 0. An `Err` means out of memory.
pub fn make_head(alloc: Global) -> Result<Head, AllocError>
    ensures { IfOk result (λ made. made ≡ head_of 0 0) }
{
    let dsnm = text(alloc, b"MAKE.000")?;
    let edtn = text(alloc, b"1")?;
    let updn = text(alloc, b"0")?;
    let pred = text(alloc, b"2.0")?;
    Ok(Head {
        dsid_rcid: 1,
        intu: 5,
        dsnm,
        edtn,
        updn,
        uadt: *b"20240101",
        isdt: *b"20240101",
        sted: *b"03.1",
        prsp: 1,
        psdn: Items::make(alloc),
        pred,
        prof: 1,
        agen: 1,
        dsid_comt: Items::make(alloc),
        aall: 0,
        nall: 0,
        dspm_rcid: 1,
        hdat: 2,
        vdat: 23,
        sdat: 23,
        cscl: 10_000,
        duni: 1,
        huni: 1,
        puni: 1,
        coun: 1,
        comf: 10_000_000,
        somf: 10,
        dspm_comt: Items::make(alloc),
    })
}

/// Appends a row of nodes.
#[tactic(auto, using(crate::proofs::Ranges::row_more))]
fn push_node_row(alloc: Global, n: u32, row: u32, nodes: &mut Recs) -> Result<(), AllocError>
    requires size { n ≤ 100 }
    requires row { row ≤ n }
    ensures { OnOk result (nodes.new ≡ nodes.old ++ row_of (node_at n) (n + 1) row) }
{
    for column in 0..n + 1 {
        nodes.push(node(alloc, n, row, column)?)?;
    }
    Ok(())
}

#[tactic(auto, using(crate::proofs::Ranges::rows_more))]
fn nodes(alloc: Global, n: u32) -> Result<Recs, AllocError>
    requires { n ≤ 100 }
    ensures { IfOk result (λ nodes. nodes ≡ generated_nodes n) }
{
    let mut nodes = Recs::make(alloc);
    for row in 0..n + 1 {
        push_node_row(alloc, n, row, &mut nodes)?;
    }
    Ok(nodes)
}

/// Appends a row of edges going east.
#[tactic(auto, using(crate::proofs::Ranges::row_more))]
fn push_east_row(alloc: Global, n: u32, row: u32, edges: &mut Recs) -> Result<(), AllocError>
    requires size { n ≤ 100 }
    requires row { row ≤ n }
    ensures { OnOk result (edges.new ≡ edges.old ++ row_of (east_edge_at n) n row) }
{
    for column in 0..n {
        edges.push(east_edge(alloc, n, row, column)?)?;
    }
    Ok(())
}

#[tactic(auto, using(crate::proofs::Ranges::rows_more))]
fn push_east_edges(alloc: Global, n: u32, edges: &mut Recs) -> Result<(), AllocError>
    requires { n ≤ 100 }
    ensures { OnOk result (edges.new ≡ edges.old ++ each_place (east_edge_at n) (n + 1) n) }
{
    for row in 0..n + 1 {
        push_east_row(alloc, n, row, edges)?;
    }
    Ok(())
}

/// Appends a row of edges going north.
#[tactic(auto, using(crate::proofs::Ranges::row_more))]
fn push_north_row(alloc: Global, n: u32, row: u32, edges: &mut Recs) -> Result<(), AllocError>
    requires size { n ≤ 100 }
    requires row { row < n }
    ensures { OnOk result (edges.new ≡ edges.old ++ row_of (north_edge_at n) (n + 1) row) }
{
    for column in 0..n + 1 {
        edges.push(north_edge(alloc, n, row, column)?)?;
    }
    Ok(())
}

#[tactic(auto, using(crate::proofs::Ranges::rows_more))]
fn push_north_edges(alloc: Global, n: u32, edges: &mut Recs) -> Result<(), AllocError>
    requires { n ≤ 100 }
    ensures { OnOk result (edges.new ≡ edges.old ++ each_place (north_edge_at n) n (n + 1)) }
{
    for row in 0..n {
        push_north_row(alloc, n, row, edges)?;
    }
    Ok(())
}

fn edges(alloc: Global, n: u32) -> Result<Recs, AllocError>
    requires { n ≤ 100 }
    ensures { IfOk result (λ edges. edges ≡ generated_edges n) }
{
    let mut edges = Recs::make(alloc);
    push_east_edges(alloc, n, &mut edges)?;
    push_north_edges(alloc, n, &mut edges)?;
    Ok(edges)
}

/// Appends a row of depth areas.
#[tactic(auto, using(crate::proofs::Ranges::row_more))]
fn push_area_row(alloc: Global, n: u32, row: u32, areas: &mut Recs) -> Result<(), AllocError>
    requires size { n ≤ 100 }
    requires row { row < n }
    ensures { OnOk result (areas.new ≡ areas.old ++ row_of (depth_area_at n) n row) }
{
    for column in 0..n {
        areas.push(depth_area(alloc, n, row, column)?)?;
    }
    Ok(())
}

#[tactic(auto, using(crate::proofs::Ranges::rows_more))]
fn areas(alloc: Global, n: u32) -> Result<Recs, AllocError>
    requires { n ≤ 100 }
    ensures { IfOk result (λ areas. areas ≡ generated_areas n) }
{
    let mut areas = Recs::make(alloc);
    for row in 0..n {
        push_area_row(alloc, n, row, &mut areas)?;
    }
    areas.push(coverage_area(alloc, n)?)?;
    Ok(areas)
}

/// A cell of n rows of n squares of 40,000 integer coordinate units: their nodes and edges, a depth area (DEPARE) on each
/// square, and one area of data coverage (M_COVR) on all.
///
/// An `Err` means out of memory.
#[tactic(auto, unfolding(crate::specs::GeneratedCell::generated_cell), using(crate::proofs::Writable::generated_writable))]
pub fn make_cell(alloc: Global, n: u32) -> Result<Cell, AllocError>
    requires some { 1 ≤ n }
    requires few { n ≤ 100 }
    ensures cell { IfOk result (λ cell. cell ≡ generated_cell n) }
    ensures writable { IfOk result IsWritable }
{
    let head = make_head(alloc)?;
    let vc = nodes(alloc, n)?;
    let ve = edges(alloc, n)?;
    let fe = areas(alloc, n)?;
    Ok(Cell {
        head,
        vi: Items::make(alloc),
        vc,
        ve,
        fe,
    })
}
