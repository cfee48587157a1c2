//! A journal of accepted commits.

ghost use Rattle.std.specs.Prelude.{◌≡◌, ◌+◌, ◌*◌, ◌<◌, ◌≤◌, ◌^◌, ◌↔◌, [], Err, IfErr, IfOk, IfSome, IsSome, MatchResult, OnErr, OnOk, Some, false};
ghost use Rattle.std.specs.Prelude.{length, true};
ghost use Rattle.cell_spec.specs.Edits.{touched_keys};
ghost use Rattle.cell_spec.specs.Writable.{IsWritable};
ghost use Rattle.commit_book.specs.Books.{IsBookRefusal, IsEntered, IsNews, entry_limit, history_of};
ghost use Rattle.commit_book.specs.Prepared.{AreRight, IsAheadRight, commit_budget};
ghost use Rattle.crash_disk.specs.Disk.{LeavesOnly, Only};
ghost use Rattle.enc_outside.specs.Count.{Rose};
ghost use Rattle.book_journal.specs.Entries.{HaveLines, text_limit};
ghost use Rattle.book_journal.specs.Journals.{IsAcceptance};
ghost use Rattle.book_journal.specs.Keeping.{HasOrHasNot, IsAsBefore, IsStanding};
ghost use Rattle.book_journal.specs.Opening.{IsBookOfJournal, IsOpenCause, IsOpenedAt};
ghost use Rattle.book_journal.specs.Parts.{IsFullOrOut, IsPartOf, IsPartRefusal, IsTooLongOrOut, commit_asked, text_asked};
ghost use Rattle.book_journal.specs.Standing.{IsKeepRefusal, IsStill};
ghost use Rattle.book_journal.specs.Writing.{IsTornEntry, with_entry};

use crate::entry::entry_part_of;
use crate::open::open_book;
use crate::refusal::{KeepRefusal, OpenRefusal};
use crate::reply::is_accepted;
use crate::text::text_of;
use crate::writing::add_entry;
use chain_topo::Steps;
use commit_book::{Asked, Book, BookRefusal, Prepared, Reply, Told};
use crash_disk::Disk;
use edit_sets::FormFault;
use s57_types::Cell;
use std::alloc::Global;
use std::snapshot::Snapshot;
use std::sync::ledger::Ledger;
use std::thread::Threads;

/// The longest text of a commit's edits, in bytes.
const TEXT_LIMIT: usize = 16_777_216;

/// What stands behind the mark of the entry of a prepared commit.
///
/// An `Err` says that its text is over the limit, or means out of memory.
fn part_of(alloc: Global, desk: u32, prepared: &Prepared) -> Result<Vec<u8>, KeepRefusal>
    requires { HaveLines prepared.now.edits.edits }
    ensures ok { IfOk result (λ part. IsPartOf desk prepared.now part.items) }
    ensures err { IfErr result (IsPartRefusal prepared.now) }
{
    let text = text_of(alloc, prepared.edits().edits())?;
    if text.len() > TEXT_LIMIT {
        return Err(KeepRefusal::EntryTooLong(text.len() as u64));
    }
    Ok(entry_part_of(alloc, desk, &text)?)
}

/// The refusal of a commit whose answer isn't told.
fn untold(_told: Told, why: KeepRefusal) -> KeepRefusal
    ensures { result ≡ why }
{
    why
}

/// A book whose accepted commits are on a disk before they are acknowledged.
#[derive(Drop)]
pub struct Journal<'a, D: Disk> {
    disk: &'a mut D,
    book: Book,
    end: u64,
    broken: bool,
}

impl<'a, D: Disk> Journal<'a, D> {
    /// Opens the journal on a disk, over the cell that it began with: its book has the journal's commits, an entry for each. Nothing is repaired and
    /// nothing is cut: a file of at most one byte becomes an empty list, and no other file is written to. What a refusal leaves of the disk is told by
    /// `open_book`, which is asked here.
    ///
    /// An `Err` says that a call of the disk failed, that the cell has more findings than the limit, at which place of the file, from 0, an entry is damaged,
    /// or how many commits there are, where these are over the limit, or means out of memory.
    pub fn start<R: Threads + Sync, L: Ledger>(
        rt: &R,
        alloc: Global,
        cell: Cell,
        disk: &'a mut D,
        steps: &mut Steps<L>,
    ) -> Result<Journal<'a, D>, OpenRefusal>
        requires { IsWritable cell }
        ensures same_reference { IfOk result (λ journal. journal.disk.ghost_name ≡ disk.entry.ghost_name) }
        ensures book { IfOk result (λ journal. IsBookOfJournal cell journal.book) }
        ensures opened { IfOk result (λ journal. IsOpenedAt cell journal.book journal.end (D.content disk.old) (D.content journal.disk.now)
            (D.images journal.disk.now)) }
        ensures whole { IfOk result (λ journal. journal.broken ≡ false) }
        ensures stays_told { IfOk result (λ journal. IsSome (D.content journal.disk.now) ↔ IsSome (D.content disk.old)) }
        ensures still { IfOk result (IsStill D.content D.images) }
        // A crash at any moment of the call leaves what is read as something that a crash before it may have left.
        ensures moments { IfOk result (λ journal. IfSome (D.content disk.old)
            (λ _. LeavesOnly D.moment D.left_since disk.old journal.disk.now (IsAsBefore cell (D.images disk.old)))) }
        ensures counted { IfOk result (λ journal. D.faults journal.disk.now ≡ D.faults disk.old) }
        ensures err { IfErr result (IsOpenCause cell (D.content disk.old)) }
    {
        let (book, end) = open_book(rt, alloc, cell, disk, steps)?;
        Ok(Journal::over(disk, book, end))
    }

    /// The journal on a disk whose commits a book has, and whose list ends at a place. The place is below 2^63.
    pub fn over(disk: &'a mut D, book: Book, end: u64) -> Journal<'a, D>
        requires room { end < 2 ^ 63 }
        requires standing { IfSome (D.content disk.old) (IsStanding book.opening (history_of book).commits end (D.images disk.old)) }
        ensures same_reference { result.disk.ghost_name ≡ disk.entry.ghost_name }
        ensures disk { result.disk.now ≡ disk.old }
        ensures book { result.book ≡ book }
        ensures end { result.end ≡ end }
        ensures whole { result.broken ≡ false }
        ensures still { IsStill D.content D.images result }
    {
        Journal {
            disk,
            book,
            end,
            broken: false,
        }
    }

    /// The book.
    pub fn book(&self) -> &Book
        ensures { result.now ≡ self.now.book }
    {
        &self.book
    }

    /// Gives the disk back.
    pub fn into_disk(self) -> &'a mut D
        ensures same_reference { result.ghost_name ≡ self.entry.disk.ghost_name }
        ensures disk { result.now ≡ self.entry.disk.now }
    {
        let Journal {
            disk,
            book: _,
            end: _,
            broken: _,
        } = self;
        disk
    }

    /// Lets a desk see the newest state, as the book does. The disk isn't asked.
    pub fn view(&mut self, alloc: Global, desk: u32, base: u32) -> Result<Told, BookRefusal>
        requires base { base ≤ length (history_of self.old.book).commits }
        requires still { IsStill D.content D.images self.old }
        ensures still { IsStill D.content D.images self.new }
        ensures same_reference { self.new.disk.ghost_name ≡ self.old.disk.ghost_name }
        ensures disk { self.new.disk.now ≡ self.old.disk.now }
        ensures broken { self.new.broken ≡ self.old.broken }
        ensures ok { IfOk result (λ told. IsEntered self.old.book desk Asked.View self.new.book told.reply) }
        ensures news { IfOk result (IsNews base self.new.book) }
        ensures err { IfErr result (λ why. IsBookRefusal self.old.book.entries why × (self.new.book ≡ self.old.book)) }
        ensures full { length self.old.book.entries ≡ entry_limit → result ≡ Err BookRefusal.LogFull }
    {
        self.book.view(alloc, desk, base)
    }

    /// Tells a desk the fault of its draft, as the book does. The disk isn't asked.
    pub fn faulty(
        &mut self,
        alloc: Global,
        desk: u32,
        fault: FormFault,
    ) -> Result<Told, BookRefusal>
        requires { IsStill D.content D.images self.old }
        ensures still { IsStill D.content D.images self.new }
        ensures same_reference { self.new.disk.ghost_name ≡ self.old.disk.ghost_name }
        ensures disk { self.new.disk.now ≡ self.old.disk.now }
        ensures broken { self.new.broken ≡ self.old.broken }
        ensures ok { IfOk result (λ told. IsEntered self.old.book desk (Asked.Faulty fault) self.new.book told.reply) }
        ensures news { IfOk result (λ told. told.news ≡ []) }
        ensures err { IfErr result (λ why. IsBookRefusal self.old.book.entries why × (self.new.book ≡ self.old.book)) }
        ensures full { length self.old.book.entries ≡ entry_limit → result ≡ Err BookRefusal.LogFull }
    {
        self.book.faulty(alloc, desk, fault)
    }

    /// Whether no call ended in a fault of the disk.
    fn need_whole(&self) -> Result<(), KeepRefusal>
        ensures { MatchResult result (λ _. self.now.broken ≡ false) (λ why. (why ≡ KeepRefusal.Broken) × (self.now.broken ≡ true)) }
    {
        if self.broken {
            return Err(KeepRefusal::Broken);
        }
        Ok(())
    }

    /// Adds an entry to the list on the disk. After an `Err`, which is a fault of the disk, no further commit is kept.
    fn keep(&mut self, part: &[u8]) -> Result<(), KeepRefusal>
        requires some { 0 < length part.now }
        requires room { self.old.end + length part.now < 2 ^ 64 }
        requires standing { IfSome (D.content self.old.disk.now) (λ file. (self.old.end < length file) × Only file (D.images self.old.disk.now)) }
        ensures same_reference { self.new.disk.ghost_name ≡ self.old.disk.ghost_name }
        ensures book { self.new.book ≡ self.old.book }
        ensures end { OnOk result (self.new.end ≡ self.old.end + length part.now) }
        ensures end_err { OnErr result (self.new.end ≡ self.old.end) }
        ensures whole { OnOk result (self.new.broken ≡ self.old.broken) }
        ensures broken { OnErr result (self.new.broken ≡ true) }
        ensures fault { IfErr result (λ why. why ≡ KeepRefusal.DiskFault) }
        ensures rose { OnErr result (Rose (D.faults self.old.disk.now) (D.faults self.new.disk.now)) }
        ensures counted { OnOk result (D.faults self.new.disk.now ≡ D.faults self.old.disk.now) }
        ensures no_fall { D.faults self.old.disk.now ≤ D.faults self.new.disk.now }
        ensures content { OnOk result (IfSome (D.content self.old.disk.now)
            (λ file. D.content self.new.disk.now ≡ Some (with_entry file self.old.end part.now))) }
        ensures told { IsSome (D.content self.new.disk.now) → IsSome (D.content self.old.disk.now) }
        ensures stays_told { IsSome (D.content self.old.disk.now) → IsSome (D.content self.new.disk.now) }
        ensures kept { OnOk result (IfSome (D.content self.old.disk.now) (λ file. Only (with_entry file self.old.end part.now) (D.images self.new.disk.now))) }
        ensures moments { IfSome (D.content self.old.disk.now)
            (λ file. LeavesOnly D.moment D.left_since self.old.disk.now self.new.disk.now (IsTornEntry file self.old.end part.now)) }
    {
        let added = add_entry(self.disk, self.end, part);
        if added.is_err() {
            self.broken = true;
            return Err(KeepRefusal::DiskFault);
        }
        self.end += part.len() as u64;
        Ok(())
    }

    /// Adds the entry of a commit that the book answered, if it is accepted; one that isn't writes nothing. `before` is the book before its answer.
    ///
    /// An `Err` is a fault of the disk.
    fn keep_answered(
        &mut self,
        before: Snapshot<Book>,
        desk: u32,
        prepared: &Prepared,
        part: &[u8],
        reply: &Reply,
    ) -> Result<(), KeepRefusal>
        requires entered { IsEntered before.value desk (Asked.Commit prepared.now.base prepared.now.edits) self.old.book reply.now }
        requires within { length before.value.entries ≤ entry_limit }
        requires level { prepared.now.edits.nall ≡ before.value.opening.head.nall }
        requires lines { HaveLines prepared.now.edits.edits }
        requires part { IsPartOf desk prepared.now part.now }
        requires whole { self.old.broken ≡ false }
        requires still { IsStill D.content D.images (record self.old { book = before.value }) }
        ensures still { IsStill D.content D.images self.new }
        ensures same_reference { self.new.disk.ghost_name ≡ self.old.disk.ghost_name }
        ensures book { self.new.book ≡ self.old.book }
        ensures refused { ¬ (IsAcceptance reply.now) → self.new.disk.now ≡ self.old.disk.now }
        ensures whole { OnOk result (self.new.broken ≡ false) }
        ensures stays_told { IsSome (D.content self.new.disk.now) ↔ IsSome (D.content self.old.disk.now) }
        ensures fault { IfErr result (λ why. why ≡ KeepRefusal.DiskFault) }
        ensures accepted { OnErr result (IsAcceptance reply.now) }
        ensures broken { OnErr result (self.new.broken ≡ true) }
        ensures rose { OnErr result (Rose (D.faults self.old.disk.now) (D.faults self.new.disk.now)) }
        ensures counted { OnOk result (D.faults self.new.disk.now ≡ D.faults self.old.disk.now) }
        // A crash at any moment of the call leaves the commits from before it, or these and the new one.
        ensures moments { IfSome (D.content self.old.disk.now)
            (λ _. LeavesOnly D.moment D.left_since self.old.disk.now self.new.disk.now
            (HasOrHasNot before.value.opening (history_of before.value).commits (commit_asked desk prepared.now))) }
        ensures no_fall { D.faults self.old.disk.now ≤ D.faults self.new.disk.now }
    {
        prepared.edits().known();
        if !is_accepted(reply) {
            return Ok(());
        }
        self.keep(part)?;
        Ok(())
    }

    /// Commits the edits that a desk prepared, as the book does, and has an accepted commit on the disk before it answers. All memory is taken before
    /// the disk is written to; a commit that isn't accepted writes nothing.
    ///
    /// An `Err` says that an earlier call ended in a fault of the disk, that the text of the edits is too long, is as that of the book, or says that
    /// the disk failed. Only after the last the book or the disk may be changed: the book has the commit, and the journal is to be opened again.
    pub fn commit<L: Ledger>(
        &mut self,
        alloc: Global,
        desk: u32,
        prepared: &Prepared,
        steps: &mut Steps<L>,
    ) -> Result<Told, KeepRefusal>
        requires base { prepared.now.base ≤ length (history_of self.old.book).commits }
        requires level { prepared.now.edits.nall ≡ self.old.book.opening.head.nall }
        requires rows { AreRight self.old.book.opening self.old.book.entries prepared.now }
        requires lines { HaveLines prepared.now.edits.edits }
        requires still { IsStill D.content D.images self.old }
        ensures still { IsStill D.content D.images self.new }
        ensures same_reference { self.new.disk.ghost_name ≡ self.old.disk.ghost_name }
        ensures ok { IfOk result (λ told. IsEntered self.old.book desk (Asked.Commit prepared.now.base prepared.now.edits) self.new.book told.reply) }
        ensures news { IfOk result (IsNews prepared.now.base self.new.book) }
        ensures refused { IfOk result (λ told. ¬ (IsAcceptance told.reply) → self.new.disk.now ≡ self.old.disk.now) }
        ensures whole { OnOk result (self.new.broken ≡ false) }
        ensures stays_told { IsSome (D.content self.new.disk.now) ↔ IsSome (D.content self.old.disk.now) }
        ensures err { IfErr result (IsKeepRefusal D.faults desk prepared.now self.old self.new) }
        ensures counted { OnOk result (D.faults self.new.disk.now ≡ D.faults self.old.disk.now) }
        ensures broken { self.old.broken ≡ true → result ≡ Err KeepRefusal.Broken }
        ensures long { text_limit < length (text_asked prepared.now) → MatchResult result (λ _. ⊥) IsTooLongOrOut }
        ensures full { self.old.broken ≡ false → length (text_asked prepared.now) ≤ text_limit → length self.old.book.entries ≡ entry_limit
            → MatchResult result (λ _. ⊥) IsFullOrOut }
        // A crash at any moment of the call leaves the commits from before it, or these and the new one.
        ensures moments { self.old.broken ≡ false → IfSome (D.content self.old.disk.now)
            (λ _. LeavesOnly D.moment D.left_since self.old.disk.now self.new.disk.now
            (HasOrHasNot self.old.book.opening (history_of self.old.book).commits (commit_asked desk prepared.now))) }
        ensures no_fall { D.faults self.old.disk.now ≤ D.faults self.new.disk.now }
        ensures steps { steps.new ≤ steps.old + commit_budget self.old.book prepared.now }
        ensures alone { prepared.now.base ≡ length (history_of self.old.book).commits → steps.new ≤ steps.old
            + 4 * (length (touched_keys prepared.now.edits.edits (history_of self.old.book).cell) + length prepared.now.edits.edits) }
    {
        self.need_whole()?;
        self.book.known();
        let part = part_of(alloc, desk, prepared)?;
        let before = Snapshot::of(&self.book);
        let told = self.book.commit(alloc, desk, prepared, steps)?;
        match self.keep_answered(before, desk, prepared, &part, &told.reply) {
            Ok(()) => Ok(told),
            Err(why) => Err(untold(told, why)),
        }
    }

    /// A commit without its news. What was built ahead is right, too: where no commit came since, it is taken and not planned again.
    ///
    /// An `Err` is as that of a commit.
    pub fn answer_commit<L: Ledger>(
        &mut self,
        alloc: Global,
        desk: u32,
        prepared: &Prepared,
        steps: &mut Steps<L>,
    ) -> Result<Reply, KeepRefusal>
        requires base { prepared.now.base ≤ length (history_of self.old.book).commits }
        requires level { prepared.now.edits.nall ≡ self.old.book.opening.head.nall }
        requires rows { AreRight self.old.book.opening self.old.book.entries prepared.now }
        requires ahead { IsAheadRight self.old.book.opening self.old.book.entries prepared.now }
        requires lines { HaveLines prepared.now.edits.edits }
        requires still { IsStill D.content D.images self.old }
        ensures still { IsStill D.content D.images self.new }
        ensures same_reference { self.new.disk.ghost_name ≡ self.old.disk.ghost_name }
        ensures ok { IfOk result (IsEntered self.old.book desk (Asked.Commit prepared.now.base prepared.now.edits) self.new.book) }
        ensures refused { IfOk result (λ reply. ¬ (IsAcceptance reply) → self.new.disk.now ≡ self.old.disk.now) }
        ensures whole { OnOk result (self.new.broken ≡ false) }
        ensures stays_told { IsSome (D.content self.new.disk.now) ↔ IsSome (D.content self.old.disk.now) }
        ensures err { IfErr result (IsKeepRefusal D.faults desk prepared.now self.old self.new) }
        ensures counted { OnOk result (D.faults self.new.disk.now ≡ D.faults self.old.disk.now) }
        ensures broken { self.old.broken ≡ true → result ≡ Err KeepRefusal.Broken }
        ensures long { text_limit < length (text_asked prepared.now) → MatchResult result (λ _. ⊥) IsTooLongOrOut }
        ensures full { self.old.broken ≡ false → length (text_asked prepared.now) ≤ text_limit → length self.old.book.entries ≡ entry_limit
            → MatchResult result (λ _. ⊥) IsFullOrOut }
        // A crash at any moment of the call leaves the commits from before it, or these and the new one.
        ensures moments { self.old.broken ≡ false → IfSome (D.content self.old.disk.now)
            (λ _. LeavesOnly D.moment D.left_since self.old.disk.now self.new.disk.now
            (HasOrHasNot self.old.book.opening (history_of self.old.book).commits (commit_asked desk prepared.now))) }
        ensures no_fall { D.faults self.old.disk.now ≤ D.faults self.new.disk.now }
        ensures steps { steps.new ≤ steps.old + commit_budget self.old.book prepared.now }
        ensures alone { prepared.now.base ≡ length (history_of self.old.book).commits → steps.new ≤ steps.old
            + 4 * (length (touched_keys prepared.now.edits.edits (history_of self.old.book).cell) + length prepared.now.edits.edits) }
    {
        self.need_whole()?;
        self.book.known();
        let part = part_of(alloc, desk, prepared)?;
        let before = Snapshot::of(&self.book);
        let answered = self.book.answer_commit(alloc, desk, prepared, steps)?;
        self.keep_answered(before, desk, prepared, &part, &answered.reply)?;
        Ok(answered.reply)
    }
}
