//! The steps of the rule, and what a handle knows after each.
ghost use Rattle.std.specs.Prelude.{◌≡◌, ℕ, ◌%◌, ◌^◌, ◌<◌, ◌≤◌, true, false, [], ◌∷◌, Some, None};
ghost use Rattle.turn_gate.specs.TicketLockRule.{IsSized, IsPlaceOf, IsSamePlace, IsFree, GoesOn};
ghost use Rattle.turn_gate.specs.Outcomes.{HasTurn, view_after_turn, giving_view, new_view, joined_view, AreCompared};

use crate::chronicle::Chronicle;
use crate::outcomes::{
    HandleSplit, HandlesJoined, HistoriesCompared, NumberDrawn, SleepersCalled, TicketTaken,
    TurnLookedUp, TurnPassed,
};
use crate::view::{LockWords, Place};
use std::sync::Wait;

/// The word that counts the numbers drawn.
pub(crate) const NUMBERS: usize = 0;
/// The word that counts the tickets taken.
const TICKETS: usize = 1;
/// The word that counts the turns that are over.
const SERVED: usize = 2;
/// The first of the words that those who wait sleep on, each on the one of its ticket.
const FIRST_SLEEP_WORD: usize = 3;
/// How many words there are to sleep on.
const SLEEP_WORDS: u64 = 16;
/// How many words there are.
pub(crate) const WORDS: usize = 19;
/// The slot of the value.
const VALUE: usize = 0;
/// How often the next in line looks again before it sleeps: a turn costs less than to be woken, so it looks for about as long as a turn takes.
const LOOKS: u32 = 100_000;

fn take_ticket<V: Chronicle + Drop>(lock: &LockWords<V>, place: &mut Place<V>) -> u64
    requires lock { IsPlaceOf lock.now.table_id place.old }
    requires free { IsFree place.old }
    ensures same { IsSamePlace place.old place.new }
    ensures ticket { (t : ℕ) × (result ≡ t % 2 ^ 64)
        × (place.new.me ≡ (record place.old.me.0 { ticket = Some t }, [])) }
{
    lock.fetch_add::<TicketTaken>(place, TICKETS, 1)
}

fn sleep_word(ticket: u64) -> usize
    ensures { (FIRST_SLEEP_WORD ≤ result) × (result < WORDS) }
{
    FIRST_SLEEP_WORD + (ticket % SLEEP_WORDS) as usize
}

fn comes_soon<V: Chronicle + Drop>(lock: &LockWords<V>, ticket: u64) -> bool
    requires words { IsSized lock.now.table_id }
{
    for _ in 0..LOOKS {
        if lock.peek(SERVED) == ticket {
            return true;
        }
    }
    false
}

// It sleeps while other turns last, and so leaves the processors to the one who works. The word that it sleeps on is
// read before it looks: where a turn is passed on between the look and the sleep, that word has changed.
fn await_turn<V: Chronicle + Drop, R: Wait>(
    rt: &R,
    lock: &LockWords<V>,
    place: &mut Place<V>,
    ticket: u64,
)
    requires lock { IsPlaceOf lock.now.table_id place.old }
    requires ticket { (t : ℕ) × (ticket ≡ t % 2 ^ 64) × (place.old.me.0.ticket ≡ Some t) }
    requires idle { (place.old.me.1 ≡ []) × (place.old.me.0.marked ≡ false) }
    ensures same { IsSamePlace place.old place.new }
    ensures turn { (x : V) × (place.new.me.1 ≡ (0, Some x) ∷ [])
        × HasTurn V.origin V.entries V.number place.old.me.0 place.new.me.0 x }
{
    let word = sleep_word(ticket);
    for _ in rt.forever() {
        let calls = lock.peek(word);
        let served = lock.load::<TurnLookedUp>(place, SERVED);
        if served == ticket {
            return;
        }
        let is_next = served.wrapping_add(1) == ticket;
        if !(is_next && comes_soon(lock, ticket)) {
            lock.park(rt, word, (calls & 0xffff_ffff) as u32);
        }
    }
    unreachable!()
}

// The slot is out with this place alone, so the read and the write are plain ones.
fn take_value<V: Chronicle + Drop>(lock: &LockWords<V>, place: &mut Place<V>) -> V
    requires lock { IsPlaceOf lock.now.table_id place.old }
    requires full { (x : V) × (place.old.me.1 ≡ (0, Some x) ∷ []) }
    ensures same { IsSamePlace place.old place.new }
    ensures empty { place.new.me ≡ (place.old.me.0, (0, None) ∷ []) }
    ensures value { place.old.me.1 ≡ (0, Some result) ∷ [] }
{
    lock.exchange(place, VALUE, None).unwrap()
}

fn return_value<V: Chronicle + Drop>(lock: &LockWords<V>, place: &mut Place<V>, value: V)
    requires lock { IsPlaceOf lock.now.table_id place.old }
    requires empty { place.old.me.1 ≡ (0, None) ∷ [] }
    ensures same { IsSamePlace place.old place.new }
    ensures full { place.new.me ≡ (place.old.me.0, (0, Some value) ∷ []) }
{
    lock.exchange(place, VALUE, Some(value));
}

fn pass_turn<V: Chronicle + Drop>(lock: &LockWords<V>, place: &mut Place<V>)
    requires lock { IsPlaceOf lock.now.table_id place.old }
    requires turn { place.old.me.0.marked ≡ true }
    requires value { (x : V) × (place.old.me.1 ≡ (0, Some x) ∷ []) × (place.old.me.0.origin ≡ Some (V.origin x))
        × GoesOn V.number place.old.me.0 (V.entries x) }
    ensures same { IsSamePlace place.old place.new }
    ensures passed { (x : V) → place.old.me.1 ≡ (0, Some x) ∷ []
        → place.new.me ≡ (view_after_turn V.number (V.entries x) place.old.me.0, []) }
{
    let served = lock.fetch_add::<TurnPassed>(place, SERVED, 1);
    let next = served.wrapping_add(1);
    if lock.peek(TICKETS) != next {
        wake_sleepers(lock, place, next);
        wake_second(lock, place, next.wrapping_add(1));
    }
}

// The one behind the next is woken too, so that it looks already when its turn comes.
fn wake_second<V: Chronicle + Drop>(lock: &LockWords<V>, place: &mut Place<V>, ticket: u64)
    requires lock { IsPlaceOf lock.now.table_id place.old }
    ensures same { IsSamePlace place.old place.new }
    ensures view { place.new.me ≡ place.old.me }
{
    if lock.peek(TICKETS) != ticket {
        wake_sleepers(lock, place, ticket);
    }
}

// Wakes the one that has the ticket, if it sleeps.
fn wake_sleepers<V: Chronicle + Drop>(lock: &LockWords<V>, place: &mut Place<V>, ticket: u64)
    requires lock { IsPlaceOf lock.now.table_id place.old }
    ensures same { IsSamePlace place.old place.new }
    ensures view { place.new.me ≡ place.old.me }
{
    let word = sleep_word(ticket);
    lock.fetch_add::<SleepersCalled>(place, word, 1);
    lock.wake_all(word);
}

/// Waits for the turn of the place, and takes the value out.
pub(crate) fn acquire<V: Chronicle + Drop, R: Wait>(
    rt: &R,
    lock: &LockWords<V>,
    place: &mut Place<V>,
) -> V
    requires lock { IsPlaceOf lock.now.table_id place.old }
    requires free { IsFree place.old }
    ensures same { IsSamePlace place.old place.new }
    ensures empty { place.new.me.1 ≡ (0, None) ∷ [] }
    ensures turn { HasTurn V.origin V.entries V.number place.old.me.0 place.new.me.0 result }
{
    let ticket = take_ticket(lock, place);
    await_turn(rt, lock, place, ticket);
    take_value(lock, place)
}

/// Puts the value back, and passes the turn on.
pub(crate) fn release<V: Chronicle + Drop>(lock: &LockWords<V>, place: &mut Place<V>, value: V)
    requires lock { IsPlaceOf lock.now.table_id place.old }
    requires turn { (place.old.me.1 ≡ (0, None) ∷ []) × (place.old.me.0.marked ≡ true) }
    requires origin { place.old.me.0.origin ≡ Some (V.origin value) }
    requires history { GoesOn V.number place.old.me.0 (V.entries value) }
    ensures same { IsSamePlace place.old place.new }
    ensures passed { place.new.me ≡ (view_after_turn V.number (V.entries value) place.old.me.0, []) }
{
    return_value(lock, place, value);
    pass_turn(lock, place);
}

/// Draws the next number.
pub(crate) fn draw_number<V: Chronicle + Drop>(lock: &LockWords<V>, place: &mut Place<V>)
    requires lock { IsPlaceOf lock.now.table_id place.old }
    requires free { IsFree place.old }
    requires draws { (place.old.me.0.draws ≡ true) × (place.old.me.0.drawn ≡ false) }
    ensures same { IsSamePlace place.old place.new }
    ensures drawn { place.new.me ≡ (record place.old.me.0 { drawn = true }, []) }
{
    lock.fetch_add::<NumberDrawn>(place, NUMBERS, 1);
}

/// Cuts off a place for a new handle, with the number that was drawn.
pub(crate) fn split_handle<V: Chronicle + Drop>(
    lock: &LockWords<V>,
    place: &mut Place<V>,
) -> Place<V>
    requires lock { IsPlaceOf lock.now.table_id place.old }
    requires free { IsFree place.old }
    requires draws { (place.old.me.0.draws ≡ true) × (place.old.me.0.drawn ≡ true) }
    requires given { place.old.me.0.given < 2 ^ 32 }
    ensures same { IsSamePlace place.old place.new × (result.table_id ≡ place.old.table_id) }
    ensures left { place.new.me ≡ (giving_view place.old.me.0, []) }
    ensures new { result.me ≡ (new_view place.old.me.0, []) }
{
    lock.split_seat::<HandleSplit>(place)
}

/// Makes two places one.
pub(crate) fn join_handles<V: Chronicle + Drop>(
    lock: &LockWords<V>,
    place: &mut Place<V>,
    other: Place<V>,
)
    requires lock { IsPlaceOf lock.now.table_id place.old × IsPlaceOf lock.now.table_id other }
    requires free { IsFree place.old }
    requires other_free { IsFree other }
    ensures same { IsSamePlace place.old place.new }
    ensures joined { place.new.me ≡ (joined_view place.old.me.0 other.me.0, []) }
{
    lock.join_seat::<HandlesJoined>(place, other);
}

/// A look at the words, which tells that own lists are exact and that what was joined begins what is observed.
pub(crate) fn compare_histories<V: Chronicle + Drop>(lock: &LockWords<V>, place: &mut Place<V>)
    requires lock { IsPlaceOf lock.now.table_id place.old }
    ensures same { IsSamePlace place.old place.new }
    ensures compared { place.new.me ≡ (record place.old.me.0 { joined = [] }, place.old.me.1) }
    ensures told { AreCompared V.number place.old.me.0 }
{
    lock.load::<HistoriesCompared>(place, NUMBERS);
}
