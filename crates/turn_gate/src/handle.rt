//! The handles of a lock.
ghost use Rattle.std.specs.Prelude.{◌≡◌, ◌<◌, All, Contains};
ghost use Rattle.turn_gate.specs.Handles.{IsIdle};
ghost use Rattle.turn_gate.specs.Histories.{IsExact, numbers_of};

use crate::chronicle::Chronicle;
use crate::view::Place;
use std::marker::Model;

/// A lock handle: the right to ask for turns.
///
/// Contracts see it as a `HandleState`. Between two calls it holds no ticket and no turn. Where a handle is dropped its
/// entries stay in the history, and no other handle gets its number.
#[derive(Drop)]
pub struct GateSeat<V: Chronicle> {
    pub(crate) place: Place<V>,
    pub(crate) number: u32,
    pub(crate) given: u32,
    ghost idle: { IsIdle place },
}

impl<V: Chronicle> Model for GateSeat<V> {
    ghost use Rattle.std.specs.Prelude.{All};
    ghost use Rattle.turn_gate.specs.Handles.{HandleState, state_of, KeepsNumber, IsDrawer};
    ghost use Rattle.turn_gate.specs.Histories.{IsExact};

    ghost Value = { HandleState V.Entry V.Origin };

    ghost view = { λ s. state_of s.place s.number s.given s.idle };

    ghost invariant = { λ s.
        KeepsNumber s.place.me.0 s.number
        × IsDrawer s.place.me.0 s.number s.given
        × All (IsExact V.number s.place.me.0.observed) s.place.me.0.own };
}

impl<V: Chronicle> GateSeat<V> {
    /// The handle number.
    pub fn number(&self) -> u32
        ensures { result ≡ self.now.number }
    {
        self.number
    }

    /// How many handles it has given out. Only the handle with number 0 gives out any.
    pub fn given(&self) -> u32
        ensures given { result ≡ self.now.given }
        ensures others { 0 < self.now.number → result ≡ 0 }
    {
        self.given
    }

    /// What every handle keeps: an own list for its number, and in each own list exactly that number's entries of
    /// the history that it has observed.
    pub fn own_lists_are_exact(&self)
        ensures number { Contains (numbers_of self.now.own) self.now.number }
        ensures exact { All (IsExact V.number self.now.observed) self.now.own }
    {
        let _ = &self.place;
    }
}
