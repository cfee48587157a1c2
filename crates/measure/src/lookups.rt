//! Look-ups in a cell of features: its lists sorted, then a million look-ups of one kind.

ghost use Rattle.std.specs.Prelude.{◌≡◌, ◌≤◌, ◌<◌, ℕ, true, None, IfOk, IfSome, length, map, vec_len, [], ◌∷◌};
ghost use Rattle.std.specs.List.{All, IsDistinct, list_all};
ghost use Rattle.s57_types.specs.declared.record.Spot.{Spot as SpecSpot};
ghost use Rattle.s57_types.specs.Fitness.{is_fit_head, is_vector_kind, unfitness};
ghost use Rattle.s57_types.specs.declared.name.Kind.TheVariants.{Fe};
ghost use Rattle.cell_spec.specs.Lookup.{name_of as spec_name};
ghost use Rattle.cell_spec.specs.Names.{name_parts, same_name};
ghost use Rattle.cell_spec.specs.Writable.{AreOfKind, IsWritable};

use crate::table::next_number;
use cell_make::make_head;
use cell_spec::writable_cells_are_readable;
use chain_topo::{ListLook, Look, Steps};
use look_counter::start_counter;
use record_fit::head_fits;
use s57_types::{
    Attrs, Cell, Feature, Head, Items, Kind, Lnam, Partners, Rec, RecName, Recs, Spot,
};
use std::alloc::{AllocError, Global};
use std::marker::Brand;
use std::sync::ledger::{Blank, Ledger};

/// How many look-ups a case makes.
const ROUNDS: u32 = 1_000_000;

/// How many records a cell has at most.
const RECORD_LIMIT: u32 = 262_144;

/// What is done with the cell.
#[derive(Clone, Copy)]
pub enum Work {
    /// Its lists are sorted.
    Build,
    /// Then a million records are looked up by random names, half of which are there.
    Gets,
    /// Then the pointers to a million random edges.
    Refs,
    /// Then the bearers of a million random identifiers.
    Bearers,
}

impl Work {
    /// The work of a name within the group.
    pub fn of(name: &str) -> Option<Work> {
        match name {
            "build" => Some(Work::Build),
            "gets" => Some(Work::Gets),
            "refs" => Some(Work::Refs),
            "bearers" => Some(Work::Bearers),
            _ => None,
        }
    }
}

/// A number below the bound, or 0.
pub fn number_below(seed: u64, bound: u32) -> u32 {
    ((seed >> 20) % u64::from(bound.max(1))) as u32
}

fn spot(kind: Kind, id: u32) -> Spot
    ensures kind { result.to.kind ≡ kind }
    ensures id { result.to.id ≡ id }
{
    Spot {
        to: RecName { kind, id },
        ornt: 1,
        usag: 1,
        mask: 255,
    }
}

fn feature(alloc: Global, id: u32, foid: Lnam, places: Vec<Spot>) -> Rec
    requires targets { list_all (λ (s : SpecSpot). is_vector_kind s.to.kind) places.items ≡ true }
    requires few { length places.items ≤ 4 }
    ensures name { name_parts (spec_name result) ≡ 3 ∷ id ∷ [] }
    ensures kind { (spec_name result).kind ≡ Fe }
    ensures fits { (nall : ℕ) → unfitness nall result ≡ None }
{
    Rec::F(Feature {
        name: RecName { kind: Kind::Fe, id },
        prim: 3,
        grup: 1,
        objl: 42,
        rver: 1,
        foid,
        attf: Attrs::make(alloc),
        natf: Attrs::make(alloc),
        partners: Partners::make(alloc),
        places: Items::of_vec(places),
    })
}

/// A feature that points to a random edge and to a node, and shares its identifier with one other.
pub fn numbered_feature(alloc: Global, id: u32, seed: u64, size: u32) -> Result<Rec, AllocError>
    ensures name { IfOk result (λ r. name_parts (spec_name r) ≡ 3 ∷ id ∷ []) }
    ensures kind { IfOk result (λ r. (spec_name r).kind ≡ Fe) }
    ensures fits { IfOk result (λ r. (nall : ℕ) → unfitness nall r ≡ None) }
{
    let edge = number_below(seed, size);
    let places = vec![in alloc; spot(Kind::Ve, edge), spot(Kind::Vc, id / 4)]?;
    let foid = Lnam {
        agen: 550,
        fidn: id / 2,
        fids: 1,
    };
    Ok(feature(alloc, id, foid, places))
}

fn features(alloc: Global, size: u32) -> Result<Vec<Rec>, AllocError>
    ensures count { IfOk result (λ v. vec_len v ≡ size) }
    ensures distinct { IfOk result (λ v. IsDistinct same_name (map spec_name v.items)) }
    ensures kinds { IfOk result (λ v. AreOfKind Fe v.items) }
    ensures fit { IfOk result (λ v. All (λ r. (nall : ℕ) → unfitness nall r ≡ None) v.items) }
{
    let mut features = Vec::with_capacity(alloc, size as usize)?;
    for id in 0..size {
        let feature = numbered_feature(alloc, id, next_number(u64::from(id)), size)?;
        features.push(feature)?;
    }
    Ok(features)
}

fn cell_of(alloc: Global, head: Head, size: u32) -> Result<Cell, AllocError>
    requires few { size ≤ 262144 }
    requires fits { is_fit_head head ≡ true }
    ensures { IfOk result IsWritable }
{
    let features = features(alloc, size)?;
    Ok(Cell {
        head,
        vi: Recs::make(alloc),
        vc: Recs::make(alloc),
        ve: Recs::make(alloc),
        fe: Items::of_vec(features),
    })
}

/// A cell of so many features, or none where a cell has no room for them.
pub fn writable_cell(alloc: Global, size: u32) -> Result<Option<Cell>, AllocError>
    ensures { IfOk result (λ cell. IfSome cell IsWritable) }
{
    let head = make_head(alloc)?;
    if size > RECORD_LIMIT || !head_fits(&head) {
        return Ok(None);
    }
    Ok(Some(cell_of(alloc, head, size)?))
}

fn sum_of_gets<L: Ledger>(look: &ListLook, size: u32, steps: &mut Steps<L>) -> u64 {
    let mut sum = 0u64;
    let mut seed = 2;
    for _ in 0..ROUNDS {
        seed = next_number(seed);
        let name = RecName {
            kind: Kind::Fe,
            id: number_below(seed, size.saturating_mul(2)),
        };
        sum = sum.wrapping_add(match look.get(name, steps) {
            Some(Rec::F(feature)) => u64::from(feature.name.id),
            _ => 7,
        });
    }
    sum
}

fn sum_of_refs<L: Ledger>(look: &ListLook, size: u32, steps: &mut Steps<L>) -> u64 {
    let mut sum = 0u64;
    let mut seed = 3;
    for _ in 0..ROUNDS {
        seed = next_number(seed);
        let name = RecName {
            kind: Kind::Ve,
            id: number_below(seed, size),
        };
        for pointer in look.refs(name, steps) {
            sum = sum.wrapping_add(u64::from(pointer.from.id));
        }
    }
    sum
}

fn sum_of_bearers<L: Ledger>(look: &ListLook, size: u32, steps: &mut Steps<L>) -> u64 {
    let mut sum = 0u64;
    let mut seed = 4;
    for _ in 0..ROUNDS {
        seed = next_number(seed);
        let foid = Lnam {
            agen: 550,
            fidn: number_below(seed, size),
            fids: 1,
        };
        for name in look.bearers(foid, steps) {
            sum = sum.wrapping_add(u64::from(name.id));
        }
    }
    sum
}

fn sum_of<L: Ledger>(look: &ListLook, work: Work, size: u32, blank: Blank) -> u64
    requires name { blank.name ≡ L.name }
    requires parts { blank.parts ≡ L.parts }
    requires some_part { 0 < L.parts }
{
    let mut steps = start_counter::<L>(blank);
    match work {
        Work::Build => 0,
        Work::Gets => sum_of_gets(look, size, &mut steps),
        Work::Refs => sum_of_refs(look, size, &mut steps),
        Work::Bearers => sum_of_bearers(look, size, &mut steps),
    }
}

/// What the work answers in a cell of so many features, or 0 where a cell has no room for them.
pub fn outcome(alloc: Global, work: Work, size: u32) -> Result<u64, AllocError> {
    writable_cells_are_readable();
    let Some(cell) = writable_cell(alloc, size)? else {
        return Ok(0);
    };
    let look = ListLook::make(alloc, &cell)?;
    Ok(sum_of::<Brand>(&look, work, size, Blank::new(1)))
}
