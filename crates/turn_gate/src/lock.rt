//! The lock.
ghost use Rattle.std.specs.Prelude.{◌≡◌, ◌+◌, ◌++◌, ◌<◌, ◌≤◌, All, IfOk, IsOk, OnOk, OnErr, IfErr, []};
ghost use mathlib.Core.List.{IsPrefix};
ghost use Rattle.turn_gate.specs.Histories.{IsExact, longer};
ghost use Rattle.turn_gate.specs.Handles.{first_handle, new_handle, TakesTurn};

use crate::chronicle::Chronicle;
use crate::handle::GateSeat;
use crate::operation::Deed;
use crate::steps::{
    NUMBERS, WORDS, acquire, compare_histories, draw_number, join_handles, release, split_handle,
};
use crate::view::{HandleView, LockRule};
use atomic_table::{Refused, Table};
use std::alloc::{AllocError, Global};
use std::marker::Model;
use std::snapshot::Snapshot;
use std::sync::Wait;

/// A ticket lock round a value with an append-only history.
///
/// Contracts see it as its identity, which no other lock has.
#[derive(Drop)]
pub struct Gate<V: Chronicle + Send + Drop> {
    table: Table<Option<V>, HandleView<V::Entry, V::Origin>, Snapshot<V>, LockRule<V>, Global>,
}

impl<V: Chronicle + Send + Drop> Model for Gate<V> {
    ghost use Rattle.turn_gate.specs.TicketLockRule.{IsSized};
    ghost use Rattle.turn_gate.specs.Handles.{GateId};

    ghost Value = { GateId };

    ghost view = { λ g. g.table.shared.table_id };

    ghost invariant = { λ g. IsSized g.table.shared.table_id };
}

/// There was no memory for a lock. The value comes back.
#[derive(Drop)]
pub struct MakeRefusal<V: Drop> {
    pub value: V,
}

impl<V: Chronicle + Send + Drop> Gate<V> {
    /// Puts a value with an empty history behind a lock. The handle has the number 0. An `Err` means out of memory, and gives the value back.
    pub fn make(alloc: Global, value: V) -> Result<(Gate<V>, GateSeat<V>), MakeRefusal<V>>
        requires empty { V.entries value ≡ [] }
        ensures ok { IfOk result (λ made. made.1 ≡ first_handle made.0 (V.origin value)) }
        ensures err { IfErr result (λ refusal. refusal.value ≡ value) }
    {
        let about = Snapshot::of(&value);
        // The number 0 is given to the first handle.
        let mut words = [0; WORDS];
        words[NUMBERS] = 1;
        let mut slots = Vec::new(alloc);
        if let Err(failed) = slots.push(Some(value)) {
            let value = failed.value.unwrap();
            return Err(MakeRefusal { value });
        }
        match Table::new(alloc, &words, slots, &about) {
            Ok((table, place)) => Ok((
                Gate { table },
                GateSeat {
                    place,
                    number: 0,
                    given: 0,
                },
            )),
            Err(Refused { mut slots }) => {
                let value = slots.pop().unwrap().unwrap();
                Err(MakeRefusal { value })
            }
        }
    }

    /// Gives out a new handle, with the next number.
    ///
    /// A handle of this lock takes no memory, so `alloc` isn't used and the call isn't refused.
    pub fn seat(&self, alloc: Global, root: &mut GateSeat<V>) -> Result<GateSeat<V>, AllocError>
        requires gate { root.old.gate ≡ self.now }
        requires root { (root.old.number ≡ 0) × (root.old.given < 4294967295) }
        ensures ok { IfOk result (λ seat. seat ≡ new_handle root.old) }
        ensures exact { IfOk result (λ seat. All (IsExact V.number seat.observed) seat.own) }
        ensures given { OnOk result (root.new ≡ record root.old { given = root.old.given + 1 }) }
        ensures err { OnErr result (root.new ≡ root.old) }
        ensures never_refused { IsOk result }
    {
        let _ = alloc;
        let lock = &self.table.shared;
        draw_number(lock, &mut root.place);
        let mut place = split_handle(lock, &mut root.place);
        compare_histories(lock, &mut place);
        root.given += 1;
        Ok(GateSeat {
            place,
            number: root.given,
            given: 0,
        })
    }

    /// Runs one operation under the lock: waits for its turn, acts once, and passes the turn on.
    pub fn turn<D: Deed<V>, R: Wait>(&self, rt: &R, seat: &mut GateSeat<V>, deed: D) -> D::Out
        requires gate { seat.old.gate ≡ self.now }
        requires origin { D.origin deed ≡ seat.old.origin }
        requires known { IsPrefix (D.known deed) seat.old.observed }
        ensures turn { TakesTurn V.number (λ before after. D.relates deed before result after)
            seat.old seat.new }
        ensures exact { All (IsExact V.number seat.new.observed) seat.new.own }
        ensures same { seat.new ≡ record seat.old { observed = seat.new.observed; own = seat.new.own } }
    {
        let lock = &self.table.shared;
        let mut value = acquire(rt, lock, &mut seat.place);
        let answer = deed.act(&mut value, seat.number);
        release(lock, &mut seat.place, value);
        answer
    }

    /// Joins two handles, with the longer observed history and the own operations of both.
    ///
    /// Where `from` was the handle with number 0, no more handles are given out.
    pub fn merge(&self, into: &mut GateSeat<V>, from: GateSeat<V>)
        requires gate { (into.old.gate ≡ self.now) × (from.gate ≡ self.now) }
        ensures observed { into.new.observed ≡ longer into.old.observed from.observed }
        ensures begins { IsPrefix into.old.observed into.new.observed }
        ensures from_begins { IsPrefix from.observed into.new.observed }
        ensures own { into.new.own ≡ into.old.own ++ from.own }
        ensures exact { All (IsExact V.number into.new.observed) into.new.own }
        ensures same { into.new ≡ record into.old { observed = into.new.observed; own = into.new.own } }
    {
        let lock = &self.table.shared;
        let GateSeat {
            place,
            number: _,
            given: _,
        } = from;
        join_handles(lock, &mut into.place, place);
        compare_histories(lock, &mut into.place);
    }

    /// Waits for its turn, takes the value out and ends the lock.
    pub fn close<R: Wait>(self, rt: &R, seat: GateSeat<V>) -> V
        requires gate { seat.gate ≡ self }
        ensures origin { V.origin result ≡ seat.origin }
        ensures observed { IsPrefix seat.observed (V.entries result) }
        ensures own { All (IsExact V.number (V.entries result)) seat.own }
        ensures numbers { seat.number ≡ 0 → All (λ e. V.number e ≤ seat.given) (V.entries result) }
    {
        let GateSeat {
            mut place,
            number: _,
            given: _,
        } = seat;
        let Gate { table } = self;
        let value = acquire(rt, &table.shared, &mut place);
        let mut closed = table.close_with(place);
        drop(closed.take(0));
        closed.free();
        value
    }
}
