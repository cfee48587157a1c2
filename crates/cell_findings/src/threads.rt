//! The findings of a cell, judged by several threads.

ghost use Rattle.std.specs.Prelude.{◌≡◌, ◌≤◌, ◌<◌, ◌++◌, All, IfOk, MatchResult, length, map};
ghost use Rattle.std.specs.List.{flat_map};
ghost use Rattle.cell_spec.specs.Writable.{IsWritable};
ghost use Rattle.cell_findings.specs.AllFindings.{IsAllOf, IsFindingRefusal};
ghost use Rattle.cell_findings.specs.Cut.{AreSubjects, IsJudgedOf, block_findings};
ghost use Rattle.cell_findings.specs.Gathered.{Gathers, IsGathered, IsOver};
ghost use Rattle.cell_findings.specs.Judged.{judged_subjects, subject_findings};
ghost use Rattle.cell_findings.specs.Parts.{AreParts};

use crate::block::{Block, Judged};
use crate::each::each_in_threads;
use crate::findings::find_all;
use crate::found_parts::find_parts;
use crate::list::{Findings, SubjectFinding};
use crate::names::{edge_names, identities_in, names_in, part_names};
use crate::refusal::LoadRefusal;
use crate::search::Search;
use chain_topo::{ListLook, Steps};
use finding_laws::apart_pairs_are_clean;
use look_counter::start_counter;
use s57_types::Cell;
use std::alloc::{AllocError, Global};
use std::marker::Brand;
use std::sync::ledger::{Blank, Ledger};
use std::thread::Threads;

/// The fewest blocks for which a thread is started. A small cell has a block for each kind of subject, and no thread.
const FEWEST: usize = 3;

/// A block may have this part of the limit as findings.
const SHARES: usize = 16;

/// Appends the findings about a block.
fn push_block<L: Ledger>(
    search: &Search,
    gathered: &mut Vec<SubjectFinding>,
    judged: &Judged,
    block: Block,
    steps: &mut Steps<L>,
) -> Result<(), LoadRefusal>
    requires parts { AreParts search.now.look.now judged.now.placed }
    requires subjects { AreSubjects search.now.look.now judged.now.tree block }
    requires within { length gathered.old.items ≤ search.now.limit }
    ensures { IfOk result (λ _. gathered.new.items ≡ gathered.old.items ++ block_findings search.now.look.now judged.now.tree block.entry) }
{
    match block {
        Block::Records(names) => search.push_records(gathered, names),
        Block::Sides(edges) => search.push_sides(gathered, edges),
        Block::Pairs(leaves) => {
            search.push_near_pairs(gathered, &judged.placed, leaves, &judged.tree, steps)
        }
        Block::Identities(identities) => search.push_identities(gathered, identities),
    }
}

/// The findings about a block, with the look-ups of its pairs counted.
fn counted<L: Ledger>(
    alloc: Global,
    look: &ListLook,
    judged: &Judged,
    block: Block,
    limit: usize,
    blank: Blank,
) -> Result<Findings, LoadRefusal>
    requires parts { AreParts look.now judged.now.placed }
    requires subjects { AreSubjects look.now judged.now.tree block }
    requires name { blank.name ≡ L.name }
    requires parts_of_blank { blank.parts ≡ L.parts }
    requires some_part { 0 < L.parts }
    ensures { IfOk result (λ found. found ≡ block_findings look.now judged.now.tree block.entry) }
{
    let mut steps = start_counter::<L>(blank);
    let search = Search { alloc, look, limit };
    let mut gathered = Vec::new(alloc);
    push_block(&search, &mut gathered, judged, block, &mut steps)?;
    Ok(Findings::of_vec(gathered))
}

/// The findings about a block. It has a counter of its own, which its thread alone counts on, since nobody asks how many
/// look-ups are made.
fn judge(
    alloc: Global,
    look: &ListLook,
    judged: &Judged,
    block: Block,
    limit: usize,
) -> Result<Findings, LoadRefusal>
    requires parts { AreParts look.now judged.now.placed }
    requires subjects { AreSubjects look.now judged.now.tree block }
    ensures { IfOk result (λ found. found ≡ block_findings look.now judged.now.tree block.entry) }
{
    counted::<Brand>(alloc, look, judged, block, limit, Blank::new(1))
}

/// The findings about each block, in the order of blocks.
///
/// An `Err` says that some block has more than the limit, or that memory ran out.
fn judge_blocks<R: Threads + Sync>(
    rt: &R,
    alloc: Global,
    look: &ListLook,
    judged: &Judged,
    blocks: &[Block],
    limit: usize,
) -> Result<Vec<Findings>, LoadRefusal>
    requires parts { AreParts look.now judged.now.placed }
    requires subjects { All (AreSubjects look.now judged.now.tree) blocks.now }
    ensures { IfOk result (λ parts. parts.items ≡ map (block_findings look.now judged.now.tree) blocks.now) }
{
    let parts = each_in_threads(
        rt,
        alloc,
        FEWEST,
        blocks,
        |block: &Block| -> Result<Findings, LoadRefusal>
            requires { AreParts look.now judged.now.placed × AreSubjects look.now judged.now.tree block.now }
            ensures { IfOk result (λ found. found ≡ block_findings look.entry.now judged.entry.now.tree block.now) }
        { judge(alloc, look, judged, *block, limit) },
    )?;
    Ok(parts)
}

/// What is judged of a cell, of which threads share the looking up of connected nodes and edges.
fn judged_of<'a, R: Threads + Sync>(
    rt: &R,
    alloc: Global,
    cell: &Cell,
    look: &'a ListLook,
) -> Result<Judged<'a>, AllocError>
    requires writable { IsWritable cell.now }
    requires same { look.now ≡ cell.now }
    ensures judged { IfOk result (λ judged. IsJudgedOf cell.now judged) }
    ensures parts { IfOk result (λ judged. AreParts look.now judged.placed) }
{
    let names = names_in(alloc, cell)?;
    let identities = identities_in(alloc, cell)?;
    let listed = names.as_slice();
    let edges = edge_names(alloc, listed)?;
    let parts = part_names(alloc, listed)?;
    let placed = find_parts(rt, alloc, look, &parts)?;
    let tree = placed.tree(alloc)?;
    Ok(Judged {
        names,
        edges,
        identities,
        placed,
        tree,
    })
}

/// The findings about a cell's judged subjects, block by block.
fn judged_by<R: Threads + Sync>(
    rt: &R,
    alloc: Global,
    cell: &Cell,
    limit: usize,
) -> Result<Vec<Findings>, LoadRefusal>
    requires { IsWritable cell.now }
    ensures { IfOk result (λ parts. flat_map (λ part. part) parts.items ≡ flat_map (subject_findings cell.now) (judged_subjects cell.now)) }
{
    apart_pairs_are_clean();
    let look = ListLook::make(alloc, cell)?;
    let judged = judged_of(rt, alloc, cell, &look)?;
    let blocks = judged.blocks(alloc)?;
    let parts = judge_blocks(rt, alloc, &look, &judged, &blocks, limit / SHARES)?;
    Ok(parts)
}

fn push_part(
    all: &mut Vec<SubjectFinding>,
    part: &[SubjectFinding],
    limit: usize,
) -> Result<(), LoadRefusal>
    ensures { Gathers limit all.old.items part.now all.new.items result }
{
    all.extend_from_slice(part)?;
    if all.len() > limit {
        return Err(LoadRefusal::FindingsFull);
    }
    Ok(())
}

/// The findings of blocks one after the other, within the limit.
fn joined(alloc: Global, parts: &[Findings], limit: usize) -> Result<Findings, LoadRefusal>
    ensures { MatchResult result (IsGathered limit (flat_map (λ part. part) parts.now)) (IsOver limit (flat_map (λ part. part) parts.now)) }
{
    let mut all = Vec::new(alloc);
    for part in parts {
        push_part(&mut all, part.as_slice(), limit)?;
    }
    Ok(Findings::of_vec(all))
}

/// All findings of a cell, by one thread.
fn find_alone<L: Ledger>(
    alloc: Global,
    cell: &Cell,
    limit: usize,
    blank: Blank,
) -> Result<Findings, LoadRefusal>
    requires writable { IsWritable cell.now }
    requires name { blank.name ≡ L.name }
    requires parts { blank.parts ≡ L.parts }
    requires some_part { 0 < L.parts }
    ensures { MatchResult result (IsAllOf cell.now limit) (IsFindingRefusal cell.now limit) }
{
    let mut steps = start_counter::<L>(blank);
    find_all(alloc, cell, limit, &mut steps)
}

/// All findings of a writable cell, as `find_all` gives them, where threads share the judging.
///
/// Each thread judges blocks of subjects, each within a part of the limit, so that what the threads hold is bounded however
/// many findings there are. Where a block has more, one thread judges all, and stops at the limit. An `Err` is as that of `find_all`.
pub fn find_all_in_threads<R: Threads + Sync>(
    rt: &R,
    alloc: Global,
    cell: &Cell,
    limit: usize,
) -> Result<Findings, LoadRefusal>
    requires writable { IsWritable cell.now }
    ensures { MatchResult result (IsAllOf cell.now limit) (IsFindingRefusal cell.now limit) }
{
    match judged_by(rt, alloc, cell, limit) {
        Ok(parts) => joined(alloc, &parts, limit),
        Err(_) => find_alone::<Brand>(alloc, cell, limit, Blank::new(1)),
    }
}
