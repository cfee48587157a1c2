//! What is judged, cut into blocks.

ghost use Rattle.std.specs.Prelude.{◌≡◌, ◌≤◌, ◌<◌, ◌++◌, IfOk, List, OnOk, length, map};
ghost use Rattle.std.specs.List.{flat_map};
ghost use Rattle.cell_spec.specs.declared.key.Subject.TheVariants.{Ident as SubjectIdent, Rec as SubjectRec, Side as SubjectSide};
ghost use Rattle.box_tree.specs.declared.leaf.Leaf.{Leaf as SpecLeaf};
ghost use Rattle.cell_findings.specs.Cut.{subjects_in};
ghost use Rattle.cell_findings.specs.Near.{pairs_near};

use crate::part::PlacedParts;
use box_tree::{BoxTree, Leaf};
use cell_spec::Names;
use s57_types::{Kind, Lnam, RecName};
use std::alloc::{AllocError, Global};

/// What is judged by one thread: records, sides of edges, connected nodes and edges each with those near it that stand
/// above it, or identifiers.
#[derive(Clone, Copy)]
pub(crate) enum Block<'a> {
    Records(&'a [RecName]),
    Sides(&'a [RecName]),
    Pairs(&'a [Leaf]),
    Identities(&'a [Lnam]),
}

/// Into about how many blocks all is cut, each of about the same work: many for each thread, so that threads end together.
const BLOCKS: usize = 256;

/// The work of a node or an edge as a record. That of others is told by the time that each takes: pairs are far apart in memory.
const RECORD_WORK: usize = 3;

/// The work of a feature.
const FEATURE_WORK: usize = 27;

/// The work of a side of an edge.
const SIDE_WORK: usize = 5;

/// The work of a connected node or an edge with those near it.
const PAIRS_WORK: usize = 35;

/// The work of an identifier.
const IDENTITY_WORK: usize = 6;

/// The least work of a block: less isn't worth a thread.
const LEAST_WORK: usize = 1024 * RECORD_WORK;

/// Appends records in blocks of at most `len`.
fn push_record_blocks<'a>(
    cut: &mut Vec<Block<'a>>,
    names: &'a [RecName],
    len: usize,
) -> Result<(), AllocError>
    requires { 0 < len }
    ensures { (tree : List SpecLeaf) → OnOk result (subjects_in tree cut.new.items ≡ subjects_in tree cut.old.items ++ map SubjectRec names.now) }
{
    let mut rest = names;
    while !rest.is_empty() {
        let (block, behind) = rest.split_at(len.min(rest.len()));
        cut.push(Block::Records(block))?;
        rest = behind;
    }
    Ok(())
}

/// Appends sides of edges in blocks of at most `len`.
fn push_side_blocks<'a>(
    cut: &mut Vec<Block<'a>>,
    edges: &'a [RecName],
    len: usize,
) -> Result<(), AllocError>
    requires { 0 < len }
    ensures { (tree : List SpecLeaf) → OnOk result (subjects_in tree cut.new.items ≡ subjects_in tree cut.old.items ++ map SubjectSide edges.now) }
{
    let mut rest = edges;
    while !rest.is_empty() {
        let (block, behind) = rest.split_at(len.min(rest.len()));
        cut.push(Block::Sides(block))?;
        rest = behind;
    }
    Ok(())
}

/// Appends connected nodes and edges in blocks of at most `len`.
fn push_pair_blocks<'a>(
    cut: &mut Vec<Block<'a>>,
    leaves: &'a [Leaf],
    len: usize,
) -> Result<(), AllocError>
    requires { 0 < len }
    ensures { (tree : List SpecLeaf) → OnOk result (subjects_in tree cut.new.items ≡ subjects_in tree cut.old.items ++ flat_map (pairs_near tree) leaves.now) }
{
    let mut rest = leaves;
    while !rest.is_empty() {
        let (block, behind) = rest.split_at(len.min(rest.len()));
        cut.push(Block::Pairs(block))?;
        rest = behind;
    }
    Ok(())
}

/// Appends identifiers in blocks of at most `len`.
fn push_identity_blocks<'a>(
    cut: &mut Vec<Block<'a>>,
    identities: &'a [Lnam],
    len: usize,
) -> Result<(), AllocError>
    requires { 0 < len }
    ensures { (tree : List SpecLeaf) → OnOk result (subjects_in tree cut.new.items ≡ subjects_in tree cut.old.items ++ map SubjectIdent identities.now) }
{
    let mut rest = identities;
    while !rest.is_empty() {
        let (block, behind) = rest.split_at(len.min(rest.len()));
        cut.push(Block::Identities(block))?;
        rest = behind;
    }
    Ok(())
}

/// Where the features begin among ascending names.
fn first_feature(names: &[RecName]) -> usize
    ensures { result ≤ length names.now }
{
    names.partition_point(|name| name.kind < Kind::Fe)
}

/// How many items make a block of a work, where each is this work.
fn block_len(work: usize, of_each: usize) -> usize
    ensures { 0 < result }
{
    (work / of_each.max(1)).saturating_add(1)
}

/// What is judged of a cell: the names of its records and edges, its identifiers, and its connected nodes and edges with
/// the boxes around them, also as a tree.
pub(crate) struct Judged<'a> {
    pub(crate) names: Names,
    pub(crate) edges: Vec<RecName>,
    pub(crate) identities: Vec<Lnam>,
    pub(crate) placed: PlacedParts<'a>,
    pub(crate) tree: BoxTree,
}

impl<'a> Drop for Judged<'a> {
    fn drop(self) {
        let Judged {
            names: _,
            edges: _,
            identities: _,
            placed: _,
            tree: _,
        } = self;
    }
}

impl<'a> Judged<'a> {
    /// The work of judging all.
    fn work(&self) -> usize {
        let names = self.names.as_slice();
        let others = first_feature(names);
        let features = names.len() - others;
        others
            .saturating_mul(RECORD_WORK)
            .saturating_add(features.saturating_mul(FEATURE_WORK))
            .saturating_add(self.edges.len().saturating_mul(SIDE_WORK))
            .saturating_add(self.placed.leaves.len().saturating_mul(PAIRS_WORK))
            .saturating_add(self.identities.len().saturating_mul(IDENTITY_WORK))
    }

    /// All of it in blocks of about the same work, in the order of subjects.
    ///
    /// An `Err` means out of memory.
    pub(crate) fn blocks(&self, alloc: Global) -> Result<Vec<Block<'_>>, AllocError>
        ensures { IfOk result (λ blocks. subjects_in self.now.tree blocks.items
            ≡ map SubjectRec self.now.names ++ (map SubjectSide self.now.edges.items ++ (flat_map (pairs_near self.now.tree) self.now.placed.leaves.items
            ++ map SubjectIdent self.now.identities.items))) }
    {
        let work = (self.work() / BLOCKS).max(LEAST_WORK);
        let names = self.names.as_slice();
        let (others, features) = names.split_at(first_feature(names));
        let mut cut = Vec::new(alloc);
        push_record_blocks(&mut cut, others, block_len(work, RECORD_WORK))?;
        push_record_blocks(&mut cut, features, block_len(work, FEATURE_WORK))?;
        push_side_blocks(&mut cut, &self.edges, block_len(work, SIDE_WORK))?;
        push_pair_blocks(&mut cut, &self.placed.leaves, block_len(work, PAIRS_WORK))?;
        push_identity_blocks(&mut cut, &self.identities, block_len(work, IDENTITY_WORK))?;
        Ok(cut)
    }
}
