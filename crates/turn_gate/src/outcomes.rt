//! What each step on a word tells the handle that made it.

ghost use Rattle.turn_gate.specs.Outcomes.{TakesTicket, LooksForTurn, PassesTurn, CallsSleepers, DrawsNumber, ComparesHistories};
ghost use Rattle.turn_gate.specs.Outcomes.{giving_view, new_view, joined_view, spent_view};

use crate::chronicle::Chronicle;
use crate::view::HandleView;
use atomic_table::{Join, Play, Split};

/// A ticket was taken.
pub(crate) struct TicketTaken;

impl<V: Chronicle> Play<Option<V>, HandleView<V::Entry, V::Origin>> for TicketTaken {
    ghost then = { TakesTicket };
}

/// The number of turns that are over was read.
pub(crate) struct TurnLookedUp;

impl<V: Chronicle> Play<Option<V>, HandleView<V::Entry, V::Origin>> for TurnLookedUp {
    ghost then = { LooksForTurn V.origin V.entries V.number };
}

/// The turn was passed on.
pub(crate) struct TurnPassed;

impl<V: Chronicle> Play<Option<V>, HandleView<V::Entry, V::Origin>> for TurnPassed {
    ghost then = { PassesTurn V.entries V.number };
}

/// Those who sleep were called.
pub(crate) struct SleepersCalled;

impl<V: Chronicle> Play<Option<V>, HandleView<V::Entry, V::Origin>> for SleepersCalled {
    ghost then = { CallsSleepers };
}

/// A number was drawn.
pub(crate) struct NumberDrawn;

impl<V: Chronicle> Play<Option<V>, HandleView<V::Entry, V::Origin>> for NumberDrawn {
    ghost then = { DrawsNumber };
}

/// The histories that were joined were compared.
pub(crate) struct HistoriesCompared;

impl<V: Chronicle> Play<Option<V>, HandleView<V::Entry, V::Origin>> for HistoriesCompared {
    ghost then = { ComparesHistories V.number };
}

/// The number that was drawn was given to a new handle.
pub(crate) struct HandleSplit;

impl<E, O> Split<HandleView<E, O>> for HandleSplit {
    ghost left = { giving_view };

    ghost right = { new_view };
}

/// Two handles became one.
pub(crate) struct HandlesJoined;

impl<E, O> Join<HandleView<E, O>> for HandlesJoined {
    ghost both = { joined_view };

    ghost spent = { spent_view };
}
