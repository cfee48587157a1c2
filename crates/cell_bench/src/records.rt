//! Why a cell doesn't take edits because of its records or its head.

ghost use Rattle.std.specs.Prelude.{◌≡◌, ◌+◌, ◌≤◌, IfOk, MatchResult, None, count_by, filter_map, is_some, length};
ghost use Rattle.std.specs.List.{list_any};
ghost use Rattle.cell_spec.specs.Edits.{apply_edits, head_after, is_head_edit as spec_is_head_edit};
ghost use Rattle.cell_spec.specs.Lookup.{all_records, listed_record};
ghost use Rattle.edit_sets.specs.FormFault.{edit_limit};
ghost use Rattle.history_spec.specs.Steps.{edit_refusal as spec_edit_refusal, first_of};
ghost use Rattle.answer_laws.specs.EditedAnswers.{FindTheirRecords};
ghost use Rattle.answer_laws.specs.EditedCells.{is_addition as spec_is_addition, is_deletion as spec_is_deletion};
ghost use Rattle.cell_bench.specs.Refusals.{IsRecordsRefusal, head_refusal as spec_head_refusal, records_refusal, room_refusal as spec_room_refusal};

use crate::count::narrow;
use crate::refusal::PlanRefusal;
use answer_laws::{counts_after_edits, formed_edits_find_their_records};
use cell_spec::{Edit, writable_cells_are_readable};
use chain_topo::{Look, Steps};
use edit_sets::EditSet;
use history_spec::StateRefusal;
use record_fit::identification_record_length;
use record_store::RecordStore;
use s57_types::{Duplicate, Head, RecName};
use std::alloc::{AllocError, Global};
use std::sync::ledger::Ledger;

/// The most records of a cell.
const RECORD_LIMIT: u32 = 262_144;

/// The most bytes of the first head record.
const HEAD_LIMIT: u32 = 99_999;

// Whether the lists of a cell have a record of a name. The head is in none of them.
#[tactic(auto, using(crate::proofs::HeadNames::there_is))]
fn has_record<L: Ledger>(store: &RecordStore, name: RecName, steps: &mut Steps<L>) -> bool
    ensures has { result ≡ is_some (listed_record store.now name) }
    ensures steps { steps.new ≤ steps.old + 1 }
{
    RecordStore::known(store);
    if name == RecName::of_head() {
        return false;
    }
    store.get(name, steps).is_some()
}

// Why a cell doesn't take an edit. It looks up the name.
fn edit_refusal<L: Ledger>(
    store: &RecordStore,
    edit: &Edit,
    steps: &mut Steps<L>,
) -> Option<StateRefusal>
    ensures refusal { result ≡ spec_edit_refusal store.now edit.now }
    ensures steps { steps.new ≤ steps.old + 1 }
{
    if let Edit::Head(_) = edit {
        return None;
    }
    let name = edit.name();
    let there = has_record(store, name, steps);
    match edit {
        Edit::Add(_) => there.then_some(StateRefusal::AddExists(name)),
        Edit::Set(_) => (!there).then_some(StateRefusal::SetMissing(name)),
        Edit::Del(_) => (!there).then_some(StateRefusal::DelMissing(name)),
        Edit::Head(_) => None,
    }
}

// Why a cell doesn't take the first edit that it doesn't take. It looks up the name of each.
fn first_edit_refusal<L: Ledger>(
    store: &RecordStore,
    edits: &[Edit],
    steps: &mut Steps<L>,
) -> Option<StateRefusal>
    ensures refusal { result ≡ first_of (filter_map (spec_edit_refusal store.now) edits.now) }
    ensures steps { steps.new ≤ steps.old + length edits.now }
{
    for edit in edits {
        if let Some(refusal) = edit_refusal(store, edit, steps) {
            return Some(refusal);
        }
    }
    None
}

fn is_addition(edit: &Edit) -> bool
    ensures { result ≡ spec_is_addition edit.now }
{
    matches!(edit, Edit::Add(_))
}

fn is_deletion(edit: &Edit) -> bool
    ensures { result ≡ spec_is_deletion edit.now }
{
    matches!(edit, Edit::Del(_))
}

fn is_head_edit(edit: &Edit) -> bool
    ensures { result ≡ spec_is_head_edit edit.now }
{
    matches!(edit, Edit::Head(_))
}

fn additions(edits: &[Edit]) -> usize
    ensures { result ≡ count_by spec_is_addition edits.now }
{
    let mut count = 0;
    for edit in edits {
        if is_addition(edit) {
            count += 1;
        }
    }
    count
}

fn deletions(edits: &[Edit]) -> usize
    ensures { result ≡ count_by spec_is_deletion edits.now }
{
    let mut count = 0;
    for edit in edits {
        if is_deletion(edit) {
            count += 1;
        }
    }
    count
}

fn has_head_edit(edits: &[Edit]) -> bool
    ensures { result ≡ list_any spec_is_head_edit edits.now }
{
    edits.iter().any(is_head_edit)
}

// How many records a cell has after edits that find theirs.
fn count_after(store: &RecordStore, edits: &[Edit]) -> u32
    requires found { FindTheirRecords edits.now store.now }
    requires few { length edits.now ≤ edit_limit }
    ensures { result ≡ length (all_records (apply_edits edits.now store.now)) }
{
    counts_after_edits();
    RecordStore::known(store);
    let most = store.count() as usize + additions(edits);
    (most - deletions(edits)) as u32
}

// The head after edits.
fn edited_head(alloc: Global, head: &Head, set: &EditSet) -> Result<Head, AllocError>
    ensures { IfOk result (λ edited. edited ≡ head_after set.now.edits head.now) }
{
    match set.find(RecName::of_head()) {
        Some(Edit::Head(edit)) => head.edited(alloc, edit),
        None | Some(Edit::Add(_) | Edit::Set(_) | Edit::Del(_)) => head.copy(alloc),
    }
}

// Why an edited head is too long, where one of the edits is of the head.
fn head_refusal(
    alloc: Global,
    head: &Head,
    set: &EditSet,
) -> Result<Option<StateRefusal>, AllocError>
    ensures { IfOk result (λ refusal. refusal ≡ spec_head_refusal (head_after set.now.edits head.now) set.now.edits) }
{
    if !has_head_edit(set.edits()) {
        return Ok(None);
    }
    let edited = edited_head(alloc, head, set)?;
    let bytes = narrow(identification_record_length(&edited))?;
    Ok((bytes > HEAD_LIMIT).then_some(StateRefusal::HeadTooLong(bytes)))
}

// Why there is no room for what edits that find their records leave: the records, then the head.
fn room_refusal(
    alloc: Global,
    store: &RecordStore,
    set: &EditSet,
) -> Result<Option<StateRefusal>, AllocError>
    requires found { FindTheirRecords set.now.edits store.now }
    requires few { length set.now.edits ≤ edit_limit }
    ensures { IfOk result (λ refusal. refusal ≡ spec_room_refusal store.now set.now.edits) }
{
    let records = count_after(store, set.edits());
    if records > RECORD_LIMIT {
        return Ok(Some(StateRefusal::CellFull(records)));
    }
    head_refusal(alloc, store.head(), set)
}

/// Makes sure that a cell takes edits, but for the findings that they leave. It looks up the name of each.
///
/// An `Err` tells why it doesn't take them, or is out of memory.
pub(crate) fn need_room<L: Ledger>(
    alloc: Global,
    store: &RecordStore,
    set: &EditSet,
    steps: &mut Steps<L>,
) -> Result<(), PlanRefusal>
    requires { set.now.nall ≡ store.now.head.nall }
    ensures taken { MatchResult result (λ _. records_refusal store.now set.now.edits ≡ None) (IsRecordsRefusal store.now set.now.edits) }
    ensures steps { steps.new ≤ steps.old + length set.now.edits }
{
    set.known();
    RecordStore::known(store);
    writable_cells_are_readable();
    formed_edits_find_their_records();
    if let Some(refusal) = first_edit_refusal(store, set.edits(), steps) {
        return Err(PlanRefusal::State(refusal));
    }
    match room_refusal(alloc, store, set)? {
        Some(refusal) => Err(PlanRefusal::State(refusal)),
        None => Ok(()),
    }
}
