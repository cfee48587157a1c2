//! What the rule of the lock says of each handle. No value of these types is made but a handle's place.
use crate::chronicle::Chronicle;
use atomic_table::{Seat, Shared, TableRule};
use std::collections::LinkedList;
use std::marker::PhantomData;
use std::snapshot::Snapshot;

/// The own operations of one handle number: the entries that it made, in order.
pub struct OwnList<E> {
    pub number: u64,
    pub entries: LinkedList<E>,
}

/// What a handle knows.
pub struct HandleView<E, O> {
    /// The beginning of the history that it has observed.
    pub observed: LinkedList<E>,
    /// The histories that handles had observed which were joined to it, until they are compared.
    pub joined: LinkedList<LinkedList<E>>,
    /// Its own operations, for each number that it keeps.
    pub own: LinkedList<OwnList<E>>,
    pub ticket: Option<u64>,
    /// Its turn has come.
    pub marked: bool,
    /// It may draw numbers.
    pub draws: bool,
    /// The numbers below it were given to handles. Only the view that draws knows it.
    pub given: u64,
    /// The next number is drawn and not yet given.
    pub drawn: bool,
    /// The initial state of the value. A view that was joined to another has none.
    pub origin: Option<O>,
}

/// The rule of the ticket lock.
pub struct LockRule<V> {
    value: PhantomData<V>,
}

impl<V: Chronicle> TableRule<Option<V>, HandleView<V::Entry, V::Origin>, Snapshot<V>>
    for LockRule<V> {
    ghost use Rattle.turn_gate.specs.TicketLockRule.{TicketLockRule, opening_view};

    ghost holds = { λ key. TicketLockRule V.origin V.entries V.number (V.origin key.value) };

    ghost first = { λ key. opening_view (V.origin key.value) };
}

/// The words and the slot of the lock.
pub type LockWords<V> = Shared<
    Option<V>,
    HandleView<<V as Chronicle>::Entry, <V as Chronicle>::Origin>,
    Snapshot<V>,
    LockRule<V>,
>;

/// A handle's place at the lock, with its view.
pub type Place<V> = Seat<Option<V>, HandleView<<V as Chronicle>::Entry, <V as Chronicle>::Origin>>;
