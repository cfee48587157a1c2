//! The log of the editing history of a cell.

ghost use Rattle.std.specs.Prelude.{◌≡◌, ◌+◌, ◌*◌, ◌≤◌, [], All, Err, IfOk, IfErr, MatchResult, drop, length};
ghost use Rattle.cell_spec.specs.Edits.{touched_keys};
ghost use Rattle.cell_spec.specs.Writable.{IsWritable};
ghost use Rattle.history_spec.specs.Entries.{AreTold};
ghost use Rattle.cell_bench.specs.Benches.{IsLoadRefusal};
ghost use Rattle.commit_book.specs.Books.{AreSetsOf, HaveLines, IsBookRefusal, IsEntered, IsNews, IsOpened, accepted_sets, entry_limit, history_of};
ghost use Rattle.commit_book.specs.Prepared.{AreRight, commit_budget};

use crate::accepted::{Accepted, accepted_after};
use crate::commit_places::CommitPlaces;
use crate::refusal::BookRefusal;
use crate::told::{EditSets, Told, sets_of, sets_told, with_set};
use cell_bench::{Bench, LoadRefusal, Prepared};
use chain_topo::Steps;
use edit_sets::{EditSet, FormFault};
use history_spec::{Asked, Entry};
use s57_types::Cell;
use std::alloc::{AllocError, Global};
use std::marker::Model;
use std::snapshot::Snapshot;
use std::sync::ledger::Ledger;
use turn_gate::Chronicle;

/// A cell in the course of its editing: its bench, the commits that it took, their places at the names that they edit, and an entry
/// for each answer. It is seen as the cell with which it was opened and its entries, which tell all else.
pub struct Book {
    opening: Snapshot<Bench>,
    pub(crate) bench: Bench,
    pub(crate) accepted: Vec<Accepted>,
    pub(crate) places: CommitPlaces,
    pub(crate) entries: Vec<Entry>,
}

impl Drop for Book {
    fn drop(self) {
        let Book {
            opening: _,
            bench: _,
            accepted: _,
            places: _,
            entries: _,
        } = self;
    }
}

impl Model for Book {
    ghost use Rattle.commit_book.specs.Books.{BookState, IsKept};
    ghost use Rattle.commit_book.specs.CommitPlaces.{AreNoted};

    ghost Value = { BookState };

    ghost view = { λ b. record { opening = b.opening.value; entries = b.entries.items } };

    ghost invariant = { λ b. IsKept b.opening.value b.entries.items b.bench b.accepted.items × AreNoted b.places b.accepted.items };
}

impl Chronicle for Book {
    type Entry = Entry;

    type Origin = Cell;

    ghost origin = { λ book. book.opening };

    ghost entries = { λ book. book.entries };

    ghost number = { λ entry. entry.desk };
}

impl Book {
    /// The book of a writable cell before its first entry, with the look-ups that finding its findings takes.
    ///
    /// An `Err` says that the cell has more findings than the limit, or means out of memory.
    pub fn make<L: Ledger>(
        alloc: Global,
        cell: Cell,
        steps: &mut Steps<L>,
    ) -> Result<Book, LoadRefusal>
        requires { IsWritable cell }
        ensures { MatchResult result (IsOpened cell) (IsLoadRefusal cell) }
    {
        let bench = Bench::load(alloc, cell, steps)?;
        Ok(Book::of_bench(alloc, bench))
    }

    /// The book of a bench before its first entry, without taking memory.
    pub fn of_bench(alloc: Global, bench: Bench) -> Book
        ensures { IsOpened bench result }
    {
        bench.known();
        Book {
            opening: Snapshot::of(&bench),
            bench,
            accepted: Vec::new(alloc),
            places: CommitPlaces::none(alloc),
            entries: Vec::new(alloc),
        }
    }

    /// What every book keeps: each entry has the answer at its point, the level of national texts is that of the opening, the edit
    /// sets that were accepted are those of the commits, their edits have lines, there are at most 1,000,000 entries, and the cell can be
    /// written.
    pub fn known(&self)
        ensures told { AreTold self.now.opening self.now.entries }
        ensures level { (history_of self.now).cell.head.nall ≡ self.now.opening.head.nall }
        ensures sets { AreSetsOf self.now.opening.head.nall (history_of self.now).commits (accepted_sets self.now.entries) }
        ensures lines { All HaveLines (accepted_sets self.now.entries) }
        ensures within { length self.now.entries ≤ entry_limit }
        ensures writable { IsWritable (history_of self.now).cell }
    {
        self.bench.known();
    }

    /// The entries in their order.
    pub fn entries(&self) -> &[Entry]
        ensures { result.now ≡ self.now.entries }
    {
        self.entries.as_slice()
    }

    /// How many commits the cell took.
    pub fn commits(&self) -> u32
        ensures { result ≡ length (history_of self.now).commits }
    {
        self.accepted.len() as u32
    }

    /// The bench of the cell after all entries.
    pub fn bench(&self) -> &Bench
        ensures { result.now ≡ (history_of self.now).cell }
    {
        &self.bench
    }

    /// The bench of the cell after all entries, without taking memory.
    pub fn into_bench(self) -> Bench
        ensures { result ≡ (history_of self).cell }
    {
        let Book {
            opening: _,
            bench,
            accepted: _,
            places: _,
            entries: _,
        } = self;
        bench
    }

    /// The edit sets that were accepted after a base.
    fn sets_after(&self, alloc: Global, base: u32) -> Result<Vec<EditSet>, AllocError>
        requires { base ≤ length (history_of self.now).commits }
        ensures sets { IfOk result (λ sets. sets.items ≡ drop base (accepted_sets self.now.entries)) }
        ensures within { base ≤ length (accepted_sets self.now.entries) }
    {
        sets_of(alloc, accepted_after(self.accepted.as_slice(), base))
    }

    /// Lets a desk see the newest state, and tells it the edit sets that were accepted after its base.
    ///
    /// An `Err` says that there are as many entries as there may be, or means out of memory; nothing is changed then.
    pub fn view(&mut self, alloc: Global, desk: u32, base: u32) -> Result<Told, BookRefusal>
        requires { base ≤ length (history_of self.old).commits }
        ensures ok { IfOk result (λ told. IsEntered self.old desk Asked.View self.new told.reply) }
        ensures news { IfOk result (IsNews base self.new) }
        ensures err { IfErr result (λ why. IsBookRefusal self.old.entries why × (self.new ≡ self.old)) }
        ensures full { length self.old.entries ≡ entry_limit → result ≡ Err BookRefusal.LogFull }
    {
        self.need_room()?;
        let sets = self.sets_after(alloc, base)?;
        let answered = self.answer_view(desk)?;
        Ok(Told {
            reply: answered.reply,
            news: EditSets::of_vec(sets),
        })
    }

    /// Tells a desk the fault of its draft.
    ///
    /// An `Err` is as that of a view.
    pub fn faulty(
        &mut self,
        alloc: Global,
        desk: u32,
        fault: FormFault,
    ) -> Result<Told, BookRefusal>
        ensures ok { IfOk result (λ told. IsEntered self.old desk (Asked.Faulty fault) self.new told.reply) }
        ensures news { IfOk result (λ told. told.news ≡ []) }
        ensures err { IfErr result (λ why. IsBookRefusal self.old.entries why × (self.new ≡ self.old)) }
        ensures full { length self.old.entries ≡ entry_limit → result ≡ Err BookRefusal.LogFull }
    {
        let answered = self.answer_faulty(desk, fault)?;
        Ok(Told {
            reply: answered.reply,
            news: EditSets::make(alloc),
        })
    }

    /// Commits the edits that a desk prepared, unless a newer commit edits what they edit or guard, or the cell doesn't take them;
    /// an accepted commit tells the edit sets that were accepted after its base, its own the last. Its rows are right on the cell of
    /// its base: those that hold no key that a newer commit touched count, and only what none of them tells is judged; with no newer
    /// commit that is nothing.
    ///
    /// An `Err` is as that of a view.
    pub fn commit<L: Ledger>(
        &mut self,
        alloc: Global,
        desk: u32,
        prepared: &Prepared,
        steps: &mut Steps<L>,
    ) -> Result<Told, BookRefusal>
        requires base { prepared.now.base ≤ length (history_of self.old).commits }
        requires level { prepared.now.edits.nall ≡ self.old.opening.head.nall }
        requires rows { AreRight self.old.opening self.old.entries prepared.now }
        ensures ok { IfOk result (λ told. IsEntered self.old desk (Asked.Commit prepared.now.base prepared.now.edits) self.new told.reply) }
        ensures news { IfOk result (IsNews prepared.now.base self.new) }
        ensures err { IfErr result (λ why. IsBookRefusal self.old.entries why × (self.new ≡ self.old)) }
        ensures full { length self.old.entries ≡ entry_limit → result ≡ Err BookRefusal.LogFull }
        ensures steps { steps.new ≤ steps.old + commit_budget self.old prepared.now }
        ensures alone { prepared.now.base ≡ length (history_of self.old).commits → steps.new
            ≤ steps.old + 4 * (length (touched_keys prepared.now.edits.edits (history_of self.old).cell) + length prepared.now.edits.edits) }
    {
        self.need_room()?;
        let newer = self.sets_after(alloc, prepared.base())?;
        let sets = with_set(alloc, newer, prepared.edits())?;
        let answered = self.enter_commit(alloc, desk, prepared, None, steps)?;
        let news = sets_told(alloc, &answered.reply, sets);
        Ok(Told {
            reply: answered.reply,
            news,
        })
    }
}
