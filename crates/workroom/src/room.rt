//! A workroom: the log behind its lock, and its desks.

ghost use Rattle.std.specs.Prelude.{◌≡◌, ◌↔◌, ◌+◌, ◌≤◌, ◌<◌, All, Err, IfOk, IfErr, IfSome, OnOk, OnErr, MatchResult};
ghost use mathlib.Core.List.{IsPrefix};
ghost use Rattle.cell_spec.specs.Writable.{IsWritable};
ghost use Rattle.history_spec.specs.Entries.{base_told, brief_of};
ghost use Rattle.rule_spec.specs.Affected.{RowsAreExact};
ghost use Rattle.turn_gate.specs.Histories.{IsExact};
ghost use Rattle.cell_bench.specs.Benches.{IsLoadRefusal, IsPlanned};
ghost use Rattle.workroom.specs.Desks.{IsRoomRefusal, IsSameDesk, IsTurned, IsUnentered, merged_desk};
ghost use Rattle.workroom.specs.Rooms.{IsLoadedRoom, IsNewRoom, desk_limit, new_desk};
ghost use Rattle.workroom.specs.Turns.{desk_of};

use crate::desk::Desk;
use crate::refusal::{DeskRefusal, RoomRefusal};
use crate::turn::Ask;
use chain_topo::Steps;
use commit_book::{Asked, Bench, Book, LoadRefusal, Prepared, Reply};
use edit_sets::FormFault;
use s57_types::{Cell, Duplicate};
use std::alloc::{AllocError, Global};
use std::marker::Model;
use std::sync::Wait;
use std::sync::ledger::Ledger;
use turn_gate::{Gate, GateSeat};

/// How many desks may be made.
const DESK_LIMIT: u32 = 16;

/// A workroom for one cell: the log of its editing history behind a lock, the lock's own handle, which makes no calls, and the bench
/// of the opening cell for new desks. It is seen as which room it is, and how many desks were made.
pub struct Workroom {
    gate: Gate<Book>,
    root: GateSeat<Book>,
    bench: Bench,
}

impl Drop for Workroom {
    fn drop(self) {
        let Workroom {
            gate: _,
            root: _,
            bench: _,
        } = self;
    }
}

impl Model for Workroom {
    ghost use Rattle.workroom.specs.Rooms.{IsRoomOf, RoomState};

    ghost Value = { RoomState };

    ghost view = { λ w. record { room = record { gate = w.gate; opening = w.root.origin }; desks = w.root.given } };

    ghost invariant = { λ w. IsRoomOf w.gate w.root w.bench };
}

impl Workroom {
    /// The workroom of a writable cell, without desks, with the look-ups that finding its findings takes.
    ///
    /// An `Err` says that the cell has more findings than the limit, or means out of memory.
    pub fn make<L: Ledger>(
        alloc: Global,
        cell: Cell,
        steps: &mut Steps<L>,
    ) -> Result<Workroom, LoadRefusal>
        requires { IsWritable cell }
        ensures { MatchResult result (IsLoadedRoom cell) (IsLoadRefusal cell) }
    {
        let bench = Bench::load(alloc, cell, steps)?;
        Ok(Workroom::of_bench(alloc, bench)?)
    }

    /// The workroom of a bench, without desks. An `Err` means out of memory.
    pub fn of_bench(alloc: Global, bench: Bench) -> Result<Workroom, AllocError>
        ensures { IfOk result (IsNewRoom bench) }
    {
        let opening = bench.copy(alloc)?;
        let Ok((gate, root)) = Gate::make(alloc, Book::of_bench(alloc, bench)) else {
            return Err(AllocError);
        };
        Ok(Workroom {
            gate,
            root,
            bench: opening,
        })
    }

    /// A new desk, with the next number from 1 on and base 0.
    ///
    /// An `Err` says that 16 desks were made, or means out of memory; no number is used up then.
    pub fn desk(&mut self, alloc: Global) -> Result<Desk, DeskRefusal>
        ensures ok { IfOk result (λ desk. desk ≡ new_desk self.old) }
        ensures more { OnOk result (self.new ≡ record self.old { desks = self.old.desks + 1 }) }
        ensures none { (result ≡ Err DeskRefusal.NoDesk) ↔ (self.old.desks ≡ desk_limit) }
        ensures err { OnErr result (self.new ≡ self.old) }
    {
        if self.root.given() >= DESK_LIMIT {
            return Err(DeskRefusal::NoDesk);
        }
        let bench = self.bench.copy(alloc).map_err(|_| DeskRefusal::NoMemory)?;
        let seat = self
            .gate
            .seat(alloc, &mut self.root)
            .map_err(|_| DeskRefusal::NoMemory)?;
        Ok(Desk::open(seat, bench))
    }

    /// Lets a desk see the newest state: its base becomes the number that is told, and its copy the cell after it.
    ///
    /// An `Err` says that the log has as many entries as it may have, or means out of memory, with the entry made or not.
    pub fn view<R: Wait>(
        &self,
        rt: &R,
        alloc: Global,
        desk: &mut Desk,
    ) -> Result<Reply, RoomRefusal>
        requires room { desk.old.room ≡ self.now.room }
        ensures same { IsSameDesk desk.old desk.new }
        ensures ok { IfOk result (λ reply. IsTurned desk.old Asked.View reply desk.new) }
        ensures base { IfOk result (λ reply. desk.new.base ≡ base_told (brief_of reply) desk.old.base) }
        ensures err { IfErr result (IsRoomRefusal desk.old Asked.View desk.new) }
    {
        desk.ask(rt, &self.gate, alloc, Ask::View)
    }

    /// Tells a desk the fault of its draft, in its turn. The base stays.
    ///
    /// An `Err` is as that of a view, but the entry is never made then.
    pub fn faulty<R: Wait>(
        &self,
        rt: &R,
        alloc: Global,
        desk: &mut Desk,
        fault: FormFault,
    ) -> Result<Reply, RoomRefusal>
        requires room { desk.old.room ≡ self.now.room }
        ensures same { IsSameDesk desk.old desk.new }
        ensures ok { IfOk result (λ reply. IsTurned desk.old (Asked.Faulty fault) reply desk.new) }
        ensures base { IfOk result (λ reply. desk.new.base ≡ base_told (brief_of reply) desk.old.base) }
        ensures err { IfErr result (IsUnentered desk.old desk.new) }
    {
        desk.ask(rt, &self.gate, alloc, Ask::Faulty(fault))
    }

    /// Commits what was prepared on a desk's copy, in its turn. An accepted commit moves the desk's base to its number, and the copy to
    /// the cell after it. What was built ahead is taken where no commit came since, and else what no newer commit has touched isn't judged
    /// again in the turn.
    ///
    /// An `Err` is as that of a view.
    pub fn commit<R: Wait>(
        &self,
        rt: &R,
        alloc: Global,
        desk: &mut Desk,
        prepared: Prepared,
    ) -> Result<Reply, RoomRefusal>
        requires room { desk.old.room ≡ self.now.room }
        requires base { prepared.base ≡ desk.old.base }
        requires level { prepared.edits.nall ≡ desk.old.cell.head.nall }
        requires rows { RowsAreExact prepared.edits.edits desk.old.cell prepared.rows }
        requires ahead { IfSome prepared.ahead (IsPlanned desk.old.cell prepared.edits.edits) }
        ensures same { IsSameDesk desk.old desk.new }
        ensures ok { IfOk result (λ reply. IsTurned desk.old (Asked.Commit desk.old.base prepared.edits) reply desk.new) }
        ensures base { IfOk result (λ reply. desk.new.base ≡ base_told (brief_of reply) desk.old.base) }
        ensures err { IfErr result (IsRoomRefusal desk.old (Asked.Commit desk.old.base prepared.edits) desk.new) }
    {
        desk.known();
        desk.ask(rt, &self.gate, alloc, Ask::Commit(prepared))
    }

    /// Ends a desk: another takes over its calls, and what it has observed. `into` keeps its number, its base and its copy.
    pub fn merge(&self, into: &mut Desk, from: Desk)
        requires room { into.old.room ≡ self.now.room }
        requires from_room { from.room ≡ self.now.room }
        ensures merged { into.new ≡ merged_desk into.old from }
        ensures begins { IsPrefix into.old.seen into.new.seen }
        ensures from_begins { IsPrefix from.seen into.new.seen }
    {
        into.take_over(&self.gate, from);
    }

    /// Ends the workroom and hands out the log, in the turn of a desk. Each entry is of a desk that was made, and the entries of each
    /// number that the desk keeps are exactly its own calls.
    pub fn close<R: Wait>(self, rt: &R, desk: Desk) -> Book
        requires room { desk.room ≡ self.room }
        ensures opening { result.opening ≡ self.room.opening }
        ensures begins { IsPrefix desk.seen result.entries }
        ensures own { All (IsExact desk_of result.entries) desk.own }
        ensures numbers { All (λ entry. (1 ≤ entry.desk) × (entry.desk ≤ self.desks)) result.entries }
    {
        let Workroom {
            gate,
            mut root,
            bench: _,
        } = self;
        gate.merge(&mut root, desk.into_seat());
        gate.close(rt, root)
    }
}
