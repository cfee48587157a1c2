//! The answers to some keys, found again by their keys.

ghost use Rattle.std.specs.Prelude.{◌≡◌, ◌+◌, ◌≤◌, IfOk, find, length, map, true};
ghost use Rattle.std.specs.Option.{option_copied};
ghost use Rattle.std.specs.List.Sorted.{IsBinarySearchResult, IsSearchInRange};
ghost use Rattle.cell_spec.specs.{declared.key.Key.TheVariants.{Name as KeyName}, Ascending.{ascending}};
ghost use Rattle.cell_spec.specs.Names.{key_order, same_key};
ghost use Rattle.near_records.specs.declared.near.Answer.{Answer as SpecAnswer};
ghost use Rattle.near_records.specs.Near.{AreAnswers, FindsAnswer, IsNear, answer_held, answer_to as spec_answer};

use crate::slots::{FEW_ANSWERS, answer_in_slot, slots_of};
use crate::told::Near;
use cell_spec::{Key, Keys, ascending_keys, keys_ascend, orders_are_by_parts};
use chain_topo::{Look, Steps};
use s57_types::{Lnam, Rec, RecName};
use std::alloc::{AllocError, Global};
use std::cmp::Ordering;
use std::sync::ledger::Ledger;

/// What a cell answers to a key: the record of a name, and whether a feature bears an identifier.
pub struct Answer<'a> {
    pub(crate) key: Key,
    pub(crate) record: Option<&'a Rec>,
    pub(crate) is_borne: bool,
}

impl<'a> Drop for Answer<'a> {
    fn drop(self) {
        let Answer {
            key: _,
            record: _,
            is_borne: _,
        } = self;
    }
}

impl<'a> Answer<'a> {
    /// The record of the name that was asked for, or none.
    pub fn record(&self) -> Option<&'a Rec>
        ensures { option_copied result ≡ (answer_held self.now).found }
    {
        self.record
    }
}

/// What a cell answers to some keys: the record of each name, and whether a feature bears each identifier. Pointers to a
/// record aren't kept. Each key was looked up once; to find its answer again takes no look-up.
pub struct NearRecords<'a> {
    pub(crate) answers: Vec<Answer<'a>>,
    /// Where the answers to names are likely to stand.
    pub(crate) slots: Vec<usize>,
}

impl<'a> Drop for NearRecords<'a> {
    fn drop(self) {
        let NearRecords {
            answers: _,
            slots: _,
        } = self;
    }
}

impl<'a> NearRecords<'a> {
    fn of(alloc: Global, answers: Vec<Answer<'a>>) -> Result<NearRecords<'a>, AllocError>
        ensures { IfOk result (λ near. near.answers.items ≡ answers.entry.items) }
    {
        let slots = slots_of(alloc, &answers)?;
        Ok(NearRecords { answers, slots })
    }
}

fn answer_to<'a, B: Look, L: Ledger>(look: &'a B, key: Key, steps: &mut Steps<L>) -> Answer<'a>
    ensures answer { answer_held result ≡ spec_answer (B.cell look.now) key }
    ensures steps { steps.new ≤ steps.old + 1 }
{
    match key {
        Key::Name(name) => Answer {
            key,
            record: look.get(name, steps),
            is_borne: false,
        },
        Key::Foid(foid) => Answer {
            key,
            record: None,
            is_borne: !look.bearers(foid, steps).is_empty(),
        },
        Key::Refs(_) => Answer {
            key,
            record: None,
            is_borne: false,
        },
    }
}

fn answers_to<'a, B: Look, L: Ledger>(
    alloc: Global,
    look: &'a B,
    keys: &[Key],
    steps: &mut Steps<L>,
) -> Result<Vec<Answer<'a>>, AllocError>
    ensures answers { IfOk result (λ answers. map answer_held answers.items ≡ map (spec_answer (B.cell look.now)) keys.now) }
    ensures steps { steps.new ≤ steps.old + length keys.now }
{
    let mut answers = Vec::with_capacity(alloc, keys.len())?;
    for key in keys {
        answers.push(answer_to(look, *key, steps))?;
    }
    Ok(answers)
}

fn ascending_copy(alloc: Global, keys: &[Key]) -> Result<Keys, AllocError>
    ensures { IfOk result (λ held. held ≡ ascending key_order keys.now) }
{
    let mut held = Vec::with_capacity(alloc, keys.len())?;
    held.extend_from_slice(keys)?;
    Ok(ascending_keys(held))
}

/// Whether two keys are one.
fn is_same(key: Key, other: Key) -> bool
    ensures { result ≡ true → key ≡ other }
{
    orders_are_by_parts();
    key.cmp(&other).is_eq()
}

/// What a cell answers to a key: the next of the answers that are known, where it is the key's, or else as it is looked up.
fn answer_beside<'a, B: Look, L: Ledger>(
    look: &'a B,
    known: &[Answer<'a>],
    next: &mut usize,
    key: Key,
    steps: &mut Steps<L>,
) -> Answer<'a>
    requires { AreAnswers (B.cell look.now) known.now }
    ensures answer { answer_held result ≡ spec_answer (B.cell look.now) key }
    ensures steps { steps.new ≤ steps.old + 1 }
{
    match known.get(*next) {
        Some(answer) if is_same(answer.key, key) => {
            *next += 1;
            Answer {
                key,
                record: answer.record,
                is_borne: answer.is_borne,
            }
        }
        _ => answer_to(look, key, steps),
    }
}

fn answers_beside<'a, B: Look, L: Ledger>(
    alloc: Global,
    look: &'a B,
    keys: &[Key],
    known: &[Answer<'a>],
    steps: &mut Steps<L>,
) -> Result<Vec<Answer<'a>>, AllocError>
    requires { AreAnswers (B.cell look.now) known.now }
    ensures answers { IfOk result (λ answers. map answer_held answers.items ≡ map (spec_answer (B.cell look.now)) keys.now) }
    ensures steps { steps.new ≤ steps.old + length keys.now }
{
    let mut answers = Vec::with_capacity(alloc, keys.len())?;
    let mut next = 0;
    for key in keys {
        answers.push(answer_beside(look, known, &mut next, *key, steps))?;
    }
    Ok(answers)
}

/// What the cell answers to the keys, each looked up once.
///
/// An `Err` means out of memory.
pub fn gather<'a, B: Look, L: Ledger>(
    alloc: Global,
    look: &'a B,
    keys: &[Key],
    steps: &mut Steps<L>,
) -> Result<NearRecords<'a>, AllocError>
    ensures near { IfOk result (λ near. IsNear (B.cell look.now) keys.now near) }
    ensures steps { steps.new ≤ steps.old + length keys.now }
{
    if keys_ascend(keys) {
        let answers = answers_to(alloc, look, keys, steps)?;
        return NearRecords::of(alloc, answers);
    }
    let held = ascending_copy(alloc, keys)?;
    let answers = answers_to(alloc, look, held.as_slice(), steps)?;
    NearRecords::of(alloc, answers)
}

/// The same as `gather`, where the answers to some of the keys are known: keys that ascend are looked up only where they aren't among these.
///
/// An `Err` means out of memory.
pub fn gather_beside<'a, B: Look, L: Ledger>(
    alloc: Global,
    look: &'a B,
    keys: &[Key],
    known: &NearRecords<'a>,
    steps: &mut Steps<L>,
) -> Result<NearRecords<'a>, AllocError>
    requires { AreAnswers (B.cell look.now) known.now.answers.items }
    ensures near { IfOk result (λ near. IsNear (B.cell look.now) keys.now near) }
    ensures steps { steps.new ≤ steps.old + length keys.now }
{
    if !keys_ascend(keys) {
        return gather(alloc, look, keys, steps);
    }
    let answers = answers_beside(alloc, look, keys, &known.answers, steps)?;
    NearRecords::of(alloc, answers)
}

/// The order of a key and that of a name. Names are compared here, without a call.
fn order_to_name(key: &Key, name: &RecName) -> Ordering
    ensures { result ≡ key_order key.now (KeyName name.now) }
{
    orders_are_by_parts();
    match key {
        Key::Name(other) => other.cmp(name),
        _ => Ordering::Greater,
    }
}

/// Where the answer to a key is among answers in order, or would be.
fn place_of(answers: &[Answer<'_>], key: Key) -> Result<usize, usize>
    ensures bound { IsSearchInRange result (length answers.now) }
    ensures position { IsBinarySearchResult (λ (a : SpecAnswer). key_order a.key key) answers.now result }
{
    match key {
        Key::Name(name) => answers.binary_search_by(|answer| order_to_name(&answer.key, &name)),
        _ => answers.binary_search_by(|answer| answer.key.cmp(&key)),
    }
}

fn find_answer<'a, 'b>(answers: &'b [Answer<'a>], key: Key) -> Option<&'b Answer<'a>>
    ensures { FindsAnswer answers.now key (option_copied result) }
{
    match place_of(answers, key) {
        Ok(k) => Some(&answers[k]),
        Err(_) => None,
    }
}

/// Whether an answer is that to a name.
pub(crate) fn is_to_name(answer: &Answer<'_>, name: RecName) -> bool
    ensures { result ≡ same_key (KeyName name) answer.now.key }
{
    match answer.key {
        Key::Name(other) => other == name,
        _ => false,
    }
}

fn first_to_name<'a, 'b>(answers: &'b [Answer<'a>], name: RecName) -> Option<&'b Answer<'a>>
    ensures { option_copied result ≡ find (λ (a : SpecAnswer). same_key (KeyName name) a.key) answers.now }
{
    answers.iter().find(|answer| is_to_name(answer, name))
}

/// Few answers are gone through from the front. Among more, the name's slot is looked at first. By halves it takes longer, as no processor
/// foresees which half is next.
fn find_named<'a, 'b>(
    answers: &'b [Answer<'a>],
    slots: &[usize],
    name: RecName,
) -> Option<&'b Answer<'a>>
    ensures { FindsAnswer answers.now (KeyName name) (option_copied result) }
{
    if answers.len() <= FEW_ANSWERS {
        return first_to_name(answers, name);
    }
    match answer_in_slot(answers, slots, name) {
        Some(answer) => Some(answer),
        None => find_answer(answers, Key::Name(name)),
    }
}

impl<'a> NearRecords<'a> {
    /// The answers, ascending by their keys.
    pub fn answers(&self) -> &[Answer<'a>]
        ensures { result.now ≡ self.now.answers.items }
    {
        &self.answers
    }
}

impl<'a> Near for NearRecords<'a> {
    ghost tells = { λ near c keys. IsNear c keys near };

    fn record(&self, name: RecName) -> Option<&Rec> {
        match find_named(&self.answers, &self.slots, name) {
            Some(answer) => answer.record,
            None => None,
        }
    }

    fn is_borne(&self, foid: Lnam) -> bool {
        match find_answer(&self.answers, Key::Foid(foid)) {
            Some(answer) => answer.is_borne,
            None => false,
        }
    }
}
