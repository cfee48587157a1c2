//! Connected nodes and edges of a cell, gathered by several threads.

ghost use Rattle.std.specs.Prelude.{◌≡◌, ◌<◌, All, IfOk, IsTrue};
ghost use Rattle.check_pairs.specs.Parts.{IsPart};
ghost use Rattle.rule_spec.specs.Records.{is_chain_part};

use crate::judging::FEWEST;
use chain_topo::Look;
use check_pairs::ChainPart;
use look_counter::start_counter;
use rayon::prelude::*;
use s57_types::RecName;
use std::alloc::{AllocError, Global};
use std::marker::Brand;
use std::sync::ledger::{Blank, Ledger};
use std::thread::Threads;

/// The part of a name, with the look-ups counted.
fn counted<'a, B: Look, L: Ledger>(
    alloc: Global,
    look: &'a B,
    name: RecName,
    blank: Blank,
) -> Result<ChainPart<'a>, AllocError>
    requires chained { IsTrue (is_chain_part (B.cell look.now) name) }
    requires name { blank.name ≡ L.name }
    requires parts { blank.parts ≡ L.parts }
    requires some_part { 0 < L.parts }
    ensures { IfOk result (IsPart (B.cell look.now)) }
{
    let mut steps = start_counter::<L>(blank);
    ChainPart::find(alloc, look, name, &mut steps)
}

/// The part of a name. It has a counter of its own, since nobody asks how many look-ups are made before a turn.
fn find<'a, B: Look>(alloc: Global, look: &'a B, name: RecName) -> Result<ChainPart<'a>, AllocError>
    requires { IsTrue (is_chain_part (B.cell look.now) name) }
    ensures { IfOk result (IsPart (B.cell look.now)) }
{
    counted::<B, Brand>(alloc, look, name, Blank::new(1))
}

/// The connected nodes and edges of a few names, one after the other.
fn few_parts<'a, B: Look>(
    alloc: Global,
    look: &'a B,
    names: &[RecName],
) -> Result<Vec<ChainPart<'a>>, AllocError>
    requires { All (λ n. IsTrue (is_chain_part (B.cell look.now) n)) names.now }
    ensures { IfOk result (λ parts. All (IsPart (B.cell look.now)) parts.items) }
{
    let mut parts = Vec::with_capacity(alloc, names.len())?;
    for name in names {
        let part = find(alloc, look, *name)?;
        parts.push(part)?;
    }
    Ok(parts)
}

/// The connected nodes and edges of names, in their order, each looked up once. Threads share them where there are many.
///
/// An `Err` is out of memory.
pub(crate) fn parts_of<'a, R: Threads + Sync, B: Look + Sync>(
    rt: &R,
    alloc: Global,
    look: &'a B,
    names: &[RecName],
) -> Result<Vec<ChainPart<'a>>, AllocError>
    requires { All (λ n. IsTrue (is_chain_part (B.cell look.now) n)) names.now }
    ensures { IfOk result (λ parts. All (IsPart (B.cell look.now)) parts.items) }
{
    if names.len() < FEWEST {
        return few_parts(alloc, look, names);
    }
    let parts = names
        .par_iter()
        .with_min_len(FEWEST)
        .map(
            |name: &RecName| -> Result<ChainPart, AllocError>
                requires { IsTrue (is_chain_part (B.cell look.now) name.now) }
                ensures { IfOk result (IsPart (B.cell look.entry.now)) }
            { find(alloc, look, *name) },
        )
        .collect::<Result<Vec<ChainPart>, AllocError>>(rt, alloc)?;
    parts
}
