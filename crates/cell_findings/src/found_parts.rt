//! Connected nodes and edges that several threads look up.

ghost use Rattle.std.specs.Prelude.{◌≡◌, ◌<◌, All, IfOk, IsTrue, List};
ghost use Rattle.std.specs.List.{AllZip, flat_map};
ghost use Rattle.s57_types.specs.declared.name.RecName.{RecName as SpecRecName};
ghost use Rattle.rule_spec.specs.Records.{is_chain_part};
ghost use Rattle.cell_findings.specs.{Near.{leaves_in}, Parts.{AreParts, IsWindowOf}};

use crate::part::PlacedParts;
use crate::part_window::PartWindow;
use chain_topo::ListLook;
use look_counter::start_counter;
use rayon::prelude::*;
use s57_types::RecName;
use std::alloc::{AllocError, Global};
use std::marker::Brand;
use std::sync::ledger::{Blank, Ledger};
use std::thread::Threads;

/// How many names a thread finds at a time. Their parts take less than the 128 KiB from which on an allocator has each list mapped anew,
/// and a small cell has one window and starts no thread.
const WINDOW: usize = 1024;

/// The parts of names, with the look-ups counted.
fn counted<'a, L: Ledger>(
    alloc: Global,
    look: &'a ListLook,
    names: &[RecName],
    blank: Blank,
) -> Result<PartWindow<'a>, AllocError>
    requires chained { All (λ (n : SpecRecName). IsTrue (is_chain_part look.now n)) names.now }
    requires name { blank.name ≡ L.name }
    requires parts { blank.parts ≡ L.parts }
    requires some_part { 0 < L.parts }
    ensures { IfOk result (IsWindowOf look.now names.now) }
{
    let mut steps = start_counter::<L>(blank);
    PartWindow::find(alloc, look, names, &mut steps)
}

/// The parts of names. They have a counter of their own, which their thread alone counts on.
fn find<'a>(
    alloc: Global,
    look: &'a ListLook,
    names: &[RecName],
) -> Result<PartWindow<'a>, AllocError>
    requires { All (λ (n : SpecRecName). IsTrue (is_chain_part look.now n)) names.now }
    ensures { IfOk result (IsWindowOf look.now names.now) }
{
    counted::<Brand>(alloc, look, names, Blank::new(1))
}

/// The parts of names in windows, in their order. Threads share the windows.
///
/// An `Err` means out of memory.
fn found<'a, R: Threads + Sync>(
    rt: &R,
    alloc: Global,
    look: &'a ListLook,
    names: &[RecName],
) -> Result<Vec<PartWindow<'a>>, AllocError>
    requires { All (λ (n : SpecRecName). IsTrue (is_chain_part look.now n)) names.now }
    ensures { IfOk result (λ windows. (cut : List (List SpecRecName)) × (flat_map (λ part. part) cut ≡ names.now)
        × AllZip (IsWindowOf look.now) cut windows.items) }
{
    let windows = names
        .par_chunks(WINDOW)
        .map(
            |window: &[RecName]| -> Result<PartWindow, AllocError>
                requires { All (λ (n : SpecRecName). IsTrue (is_chain_part look.now n)) window.now }
                ensures { IfOk result (IsWindowOf look.entry.now window.now) }
            { find(alloc, look, window) },
        )
        .collect::<Result<Vec<PartWindow>, AllocError>>(rt, alloc)?;
    Ok(windows?)
}

/// The connected nodes and edges of some names, each looked up once, with the least box around the points of each. Threads share the
/// looking up.
///
/// An `Err` means out of memory.
pub(crate) fn find_parts<'a, R: Threads + Sync>(
    rt: &R,
    alloc: Global,
    look: &'a ListLook,
    names: &[RecName],
) -> Result<PlacedParts<'a>, AllocError>
    requires names { All (λ (n : SpecRecName). IsTrue (is_chain_part look.now n)) names.now }
    ensures parts { IfOk result (AreParts look.now) }
    ensures leaves { IfOk result (λ placed. placed.leaves.items ≡ leaves_in look.now names.now) }
{
    let windows = found(rt, alloc, look, names)?;
    PlacedParts::of_windows(alloc, windows, names)
}
