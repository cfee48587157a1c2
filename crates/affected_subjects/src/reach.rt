//! What edits reach.

ghost use Rattle.std.specs.Prelude.{◌≡◌, ◌+◌, ◌++◌, ◌≤◌, ◌<◌, IfOk, OnOk, filter, flat_map, length, not, true};
ghost use Rattle.std.specs.List.{list_all};
ghost use Rattle.cell_spec.specs.{Edits.{apply_edits, find_their_records, touched_keys}, Names.{name_order}};
ghost use Rattle.rule_spec.specs.{Affected.{affected_list, change_by}, Findings.{is_subject}};
ghost use Rattle.row_spec.specs.Rows.{IsAscending};
ghost use Rattle.finding_laws.specs.Tables.{IsCoveringsOf, IsReadsOf};
ghost use Rattle.tile_index.specs.Changes.{after_changes};
ghost use Rattle.affected_subjects.specs.{EditedCells.{changes_to}, NewPairs.{pairs_found}, Reached.{gone_list}, Rounds.{first_of}};

use crate::changes::tile_changes;
use crate::edited::Edited;
use crate::first::first_round;
use crate::law::{changes_give_the_tiles, rounds_are_considered};
use crate::once::Considered;
use crate::second::second_round;
use answer_laws::formed_edits_find_their_records;
use cell_overlay::touched;
use cell_spec::{Key, Keys, Subject, Subjects, writable_cells_are_readable};
use chain_topo::Steps;
use depend_map::DependMap;
use edit_sets::EditSet;
use look_counter::start_counter;
use record_store::RecordStore;
use s57_types::Items;
use std::alloc::{AllocError, Global};
use std::marker::Brand;
use std::sync::ledger::{Blank, Ledger};
use tile_index::{TileIndex, TilePlan};

/// What edits of a cell reach.
#[derive(Drop)]
pub struct Reach {
    /// The keys whose answers the edits can change, ascending.
    pub touched: Keys,
    /// The tiles of the edited cell.
    pub tiles: TilePlan,
    /// The affected subjects of the edited cell, in the order in which they are looked at first.
    pub judged: Subjects,
    /// What is looked at and is no subject of the edited cell, in that order.
    pub gone: Subjects,
}

// What is looked at in two rounds, and where nodes and edges lie after the first one.
#[derive(Drop)]
struct Rounds {
    tiles: TilePlan,
    first: Considered,
    pairs: Vec<Subject>,
    // Whether each pair is known to be one of nodes and edges of the edited cell.
    pairs_stay: bool,
}

// Both rounds from touched keys.
fn both_rounds(
    alloc: Global,
    tiles: &TileIndex,
    map: &DependMap,
    edited: &Edited<'_>,
    keys: &[Key],
) -> Result<Rounds, AllocError>
    requires rows { IsAscending name_order tiles.now }
    ensures tiles { IfOk result (λ rounds. rounds.tiles ≡ after_changes tiles.now (flat_map (changes_to edited.now) (first_of map.now keys.now))) }
    ensures first { IfOk result (λ rounds. rounds.first ≡ first_of map.now keys.now) }
    ensures pairs { IfOk result (λ rounds. rounds.pairs.items ≡ pairs_found tiles.now rounds.tiles (first_of map.now keys.now)) }
    ensures known { IfOk result (λ rounds. IsCoveringsOf edited.now rounds.tiles → rounds.pairs_stay ≡ true
        → list_all (is_subject edited.now) rounds.pairs.items ≡ true) }
{
    let first = first_round(alloc, map, keys)?;
    let changes = tile_changes(alloc, edited, first.as_slice())?;
    let noted = tiles.plan_noting_mates(alloc, &changes)?;
    let pairs = second_round(alloc, first.as_slice(), tiles, &noted)?;
    Ok(Rounds {
        tiles: noted.plan,
        first,
        pairs,
        // Where no mate is lost.
        pairs_stay: noted.keeps_mates,
    })
}

// What is looked at, in two parts: the subjects that the edited cell has, and the others.
#[derive(Drop)]
struct Parts {
    judged: Vec<Subject>,
    gone: Vec<Subject>,
}

impl Parts {
    // Puts each of some subjects behind those of its part.
    fn ask(&mut self, edited: &Edited<'_>, subjects: &[Subject]) -> Result<(), AllocError>
        ensures judged { OnOk result (self.new.judged.items ≡ self.old.judged.items ++ filter (is_subject edited.now) subjects.now) }
        ensures gone { OnOk result (self.new.gone.items ≡ self.old.gone.items ++ filter (λ s. not (is_subject edited.now s)) subjects.now) }
    {
        for subject in subjects {
            if edited.has(*subject) {
                self.judged.push(*subject)?;
            } else {
                self.gone.push(*subject)?;
            }
        }
        Ok(())
    }
}

// Puts the subjects that the edited cell has apart from the others, without asking for what is known.
fn split(alloc: Global, edited: &Edited<'_>, rounds: &Rounds) -> Result<Parts, AllocError>
    requires { rounds.now.pairs_stay ≡ true → list_all (is_subject edited.now) rounds.now.pairs.items ≡ true }
    ensures judged { IfOk result (λ parts. parts.judged.items ≡ filter (is_subject edited.now) (rounds.now.first ++ rounds.now.pairs.items)) }
    ensures gone { IfOk result (λ parts. parts.gone.items ≡ filter (λ s. not (is_subject edited.now s)) (rounds.now.first ++ rounds.now.pairs.items)) }
{
    let first = rounds.first.as_slice();
    let mut parts = Parts {
        judged: Vec::with_capacity(alloc, first.len())?,
        gone: Vec::new(alloc),
    };
    parts.ask(edited, first)?;
    if rounds.pairs_stay {
        parts.judged.extend_from_slice(&rounds.pairs)?;
        return Ok(parts);
    }
    parts.ask(edited, &rounds.pairs)?;
    Ok(parts)
}

/// What edits reach. It looks up the name of each edit, and the bearers of each touched identifier: at most as often as there are edits
/// and touched keys together.
///
/// An `Err` is out of memory.
pub fn reach_of<L: Ledger>(
    alloc: Global,
    store: &RecordStore,
    tiles: &TileIndex,
    map: &DependMap,
    edits: &EditSet,
    steps: &mut Steps<L>,
) -> Result<Reach, AllocError>
    requires level { edits.now.nall ≡ store.now.head.nall }
    requires found { find_their_records edits.now.edits store.now ≡ true }
    requires tiles { IsCoveringsOf store.now tiles.now }
    requires reads { IsReadsOf store.now map.now }
    ensures touched { IfOk result (λ r. r.touched ≡ touched_keys edits.now.edits store.now) }
    ensures judged { IfOk result (λ r. r.judged ≡ affected_list (change_by edits.now.edits store.now)) }
    ensures gone { IfOk result (λ r. r.gone ≡ gone_list (change_by edits.now.edits store.now)) }
    ensures tiles { IfOk result (λ r. IsCoveringsOf (apply_edits edits.now.edits store.now) r.tiles) }
    ensures steps { steps.new ≤ steps.old + length edits.now.edits + length (touched_keys edits.now.edits store.now) }
{
    edits.known();
    store.known();
    writable_cells_are_readable();
    formed_edits_find_their_records();
    changes_give_the_tiles();
    rounds_are_considered();
    let touched = touched(alloc, store, edits, steps)?;
    let keys = touched.as_slice();
    let edited = Edited::make(alloc, store, map, edits, keys, steps)?;
    let rounds = both_rounds(alloc, tiles, map, &edited, keys)?;
    let parts = split(alloc, &edited, &rounds)?;
    Ok(Reach {
        touched,
        tiles: rounds.tiles,
        judged: Items::of_vec(parts.judged),
        gone: Items::of_vec(parts.gone),
    })
}

// The affected subjects, with the look-ups counted.
fn counted<L: Ledger>(
    alloc: Global,
    store: &RecordStore,
    tiles: &TileIndex,
    map: &DependMap,
    edits: &EditSet,
    blank: Blank,
) -> Result<Subjects, AllocError>
    requires level { edits.now.nall ≡ store.now.head.nall }
    requires found { find_their_records edits.now.edits store.now ≡ true }
    requires tiles { IsCoveringsOf store.now tiles.now }
    requires reads { IsReadsOf store.now map.now }
    requires name { blank.name ≡ L.name }
    requires parts { blank.parts ≡ L.parts }
    requires some_part { 0 < L.parts }
    ensures { IfOk result (λ list. list ≡ affected_list (change_by edits.now.edits store.now)) }
{
    let mut steps = start_counter::<L>(blank);
    let reach = reach_of(alloc, store, tiles, map, edits, &mut steps)?;
    Ok(reach.judged)
}

/// The affected subjects of the edited cell, in the order in which they are looked at first.
///
/// An `Err` is out of memory.
pub fn affected_of(
    alloc: Global,
    store: &RecordStore,
    tiles: &TileIndex,
    map: &DependMap,
    edits: &EditSet,
) -> Result<Subjects, AllocError>
    requires level { edits.now.nall ≡ store.now.head.nall }
    requires found { find_their_records edits.now.edits store.now ≡ true }
    requires tiles { IsCoveringsOf store.now tiles.now }
    requires reads { IsReadsOf store.now map.now }
    ensures { IfOk result (λ list. list ≡ affected_list (change_by edits.now.edits store.now)) }
{
    counted::<Brand>(alloc, store, tiles, map, edits, Blank::new(1))
}
