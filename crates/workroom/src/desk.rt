//! A desk: its handle at the log, and its copy of the cell.

ghost use Rattle.std.specs.Prelude.{◌≡◌, ◌≤◌, [], List, All, Contains, IfOk, IfErr, IfSome, length};
ghost use mathlib.Core.List.{IsPrefix};
ghost use Rattle.history_spec.specs.{declared.entry.Entry.{Entry as SpecEntry}, Entries.{AreTold, base_told, brief_of, replayed}, EntriesReport.{cell_told}};
ghost use Rattle.cell_bench.specs.Benches.{IsPlanned};
ghost use Rattle.recheck.specs.Preparing.{prepared_rows};
ghost use Rattle.rule_spec.specs.{Affected.{RowsAreExact}, Findings.{all_findings}};
ghost use Rattle.turn_gate.specs.Histories.{IsExact, numbers_of};
ghost use Rattle.workroom.specs.{Desks.{IsRoomRefusal, IsSameDesk, IsTurned, desk_of_handle, merged_desk}, Turns.{CanAsk, asked_of, desk_of}};

use crate::refusal::RoomRefusal;
use crate::turn::{Ask, base_after, take_turn};
use cell_spec::{Findings, Subject};
use commit_book::{Bench, Book, BookRefusal, Prepared, Reply};
use edit_sets::EditSet;
use recheck::prepare;
use shared_table::{Shared, SharedTable};
use std::alloc::{AllocError, Global};
use std::marker::Model;
use std::sync::Wait;
use std::thread::Threads;
use turn_gate::{Gate, GateSeat};

/// A compiler's desk in a workroom: a copy of the cell as it is after so many accepted commits, its base. It is seen with what it has
/// observed of the history and with its own calls. Its calls are those of [`crate::Workroom`].
pub struct Desk {
    seat: GateSeat<Book>,
    bench: Bench,
    base: u32,
}

impl Drop for Desk {
    fn drop(self) {
        let Desk {
            seat: _,
            bench: _,
            base: _,
        } = self;
    }
}

impl Model for Desk {
    ghost use Rattle.workroom.specs.Desks.{DeskState, IsDesk, desk_of_handle};

    ghost Value = { DeskState };

    ghost view = { λ d. desk_of_handle d.seat d.bench d.base };

    ghost invariant = { λ d. IsDesk d.seat.origin d.seat.observed d.base d.bench };
}

impl Desk {
    /// The desk of a handle that has made no call, with a copy of the opening cell.
    pub(crate) fn open(seat: GateSeat<Book>, bench: Bench) -> Desk
        requires fresh { seat.observed ≡ [] }
        requires opening { bench ≡ seat.origin }
        ensures { result ≡ desk_of_handle seat bench 0 }
    {
        Desk {
            seat,
            bench,
            base: 0,
        }
    }

    /// Its handle.
    pub(crate) fn into_seat(self) -> GateSeat<Book>
        ensures gate { result.gate ≡ self.room.gate }
        ensures observed { result.observed ≡ self.seen }
        ensures own { result.own ≡ self.own }
    {
        let Desk {
            seat,
            bench: _,
            base: _,
        } = self;
        seat
    }

    /// Its number, from 1 on.
    pub fn number(&self) -> u32
        ensures { result ≡ self.now.number }
    {
        self.seat.number()
    }

    /// How many accepted commits its copy of the cell has taken in.
    pub fn base(&self) -> u32
        ensures { result ≡ self.now.base }
    {
        self.base
    }

    /// Its copy of the cell.
    pub fn bench(&self) -> &Bench
        ensures { result.now ≡ self.now.cell }
    {
        &self.bench
    }

    /// All findings of its copy of the cell: for each subject that has some, those about it.
    pub fn findings(&self) -> &SharedTable<Subject, Shared<Findings>>
        ensures { result.now ≡ all_findings self.now.cell }
    {
        self.bench.findings()
    }

    /// Prepares edits on its copy of the cell for a commit: the row of each affected subject of the edited cell is judged, before a turn is
    /// asked for and without waiting, and the bench that they leave is built. Where the copy doesn't take the edits there is neither.
    ///
    /// An `Err` means out of memory.
    pub fn prepare<R: Threads + Sync>(
        &self,
        rt: &R,
        alloc: Global,
        edits: EditSet,
    ) -> Result<Prepared, AllocError>
        requires level { edits.nall ≡ self.now.cell.head.nall }
        ensures base { IfOk result (λ prepared. prepared.base ≡ self.now.base) }
        ensures edits { IfOk result (λ prepared. prepared.edits ≡ edits) }
        ensures rows { IfOk result (λ prepared. prepared.rows ≡ prepared_rows edits.edits self.now.cell) }
        ensures right { IfOk result (λ prepared. RowsAreExact edits.edits self.now.cell prepared.rows) }
        ensures ahead { IfOk result (λ prepared. IfSome prepared.ahead (IsPlanned self.now.cell prepared.edits.edits)) }
    {
        prepare(rt, alloc, &self.bench, self.base, edits)
    }

    /// What every desk keeps: its copy is the cell after its base, however the history goes on.
    pub fn stands(&self)
        ensures { (later : List SpecEntry) → IsPrefix self.now.seen later → cell_told self.now.room.opening later self.now.base ≡ self.now.cell }
    {
        self.known();
    }

    /// What every desk keeps: each entry that it has observed has the answer at its point; its base isn't above the number of commits
    /// that these accept, its copy is the cell after that base, and the level of national texts is that of the opening; it has an own
    /// list for its number, and in each own list exactly that number's entries of what it has observed.
    pub fn known(&self)
        ensures told { AreTold self.now.room.opening self.now.seen }
        ensures base { self.now.base ≤ length (replayed self.now.room.opening self.now.seen).commits }
        ensures cell { self.now.cell ≡ cell_told self.now.room.opening self.now.seen self.now.base }
        ensures level { self.now.cell.head.nall ≡ self.now.room.opening.head.nall }
        ensures number { Contains (numbers_of self.now.own) self.now.number }
        ensures exact { All (IsExact desk_of self.now.seen) self.now.own }
    {
        self.seat.own_lists_are_exact();
    }

    /// Asks in its turn, and takes what the turn gives.
    pub(crate) fn ask<R: Wait>(
        &mut self,
        rt: &R,
        gate: &Gate<Book>,
        alloc: Global,
        ask: Ask,
    ) -> Result<Reply, RoomRefusal>
        requires room { self.old.room.gate ≡ gate.now }
        requires ask { CanAsk self.old.room.opening self.old.seen ask }
        ensures same { IsSameDesk self.old self.new }
        ensures ok { IfOk result (λ reply. IsTurned self.old (asked_of ask) reply self.new) }
        ensures base { IfOk result (λ reply. self.new.base ≡ base_told (brief_of reply) self.old.base) }
        ensures err { IfErr result (IsRoomRefusal self.old (asked_of ask) self.new) }
    {
        match take_turn(rt, gate, &mut self.seat, alloc, self.base, ask) {
            Ok(turned) => {
                let base = base_after(self.base, &turned.reply);
                let (reply, bench) = turned.into_parts();
                if base == self.base {
                    return Ok(reply);
                }
                let Some(bench) = bench else {
                    return Err(RoomRefusal::NoMemory { entered: true });
                };
                self.bench = bench;
                self.base = base;
                Ok(reply)
            }
            Err(BookRefusal::LogFull) => Err(RoomRefusal::LogFull),
            Err(BookRefusal::NoMemory) => Err(RoomRefusal::NoMemory { entered: false }),
        }
    }

    /// Takes over the calls of another desk, and what that has observed.
    pub(crate) fn take_over(&mut self, gate: &Gate<Book>, from: Desk)
        requires gate { self.old.room.gate ≡ gate.now }
        requires room { from.room ≡ self.old.room }
        ensures merged { self.new ≡ merged_desk self.old from }
        ensures begins { IsPrefix self.old.seen self.new.seen }
        ensures from_begins { IsPrefix from.seen self.new.seen }
    {
        let Desk {
            seat,
            bench: _,
            base: _,
        } = from;
        gate.merge(&mut self.seat, seat);
    }
}
