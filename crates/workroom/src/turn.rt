//! What a desk asks, and its turn at the log.

ghost use Rattle.std.specs.Prelude.{◌≡◌, ◌<◌, IfOk, IfErr, IfSome};
ghost use Rattle.history_spec.specs.Entries.{AreTold, base_told, brief_of};
ghost use Rattle.turn_gate.specs.Handles.{TakesTurn};
ghost use Rattle.commit_book.specs.Books.{IsBookRefusal, IsEntered, history_of};
ghost use Rattle.workroom.specs.Turns.{CanAsk, IsReady, IsTurn, asked_of, desk_of};

use commit_book::{Answered, Asked, Bench, Book, BookRefusal, Prepared, Reply};
use edit_sets::FormFault;
use look_counter::start_counter;
use s57_types::Duplicate;
use std::alloc::Global;
use std::marker::{Brand, Model};
use std::snapshot::Snapshot;
use std::sync::Wait;
use std::sync::ledger::{Blank, Ledger};
use turn_gate::{Deed, Gate, GateSeat};

/// What a desk asks.
#[derive(Drop)]
pub(crate) enum Ask {
    View,
    Faulty(FormFault),
    Commit(Prepared),
}

/// What a turn gives: the answer; a copy of the log's bench, where the answer moves the base and there is memory for it; and the
/// bench that a commit replaced, which is dropped after the turn.
pub(crate) struct Turned {
    pub(crate) reply: Reply,
    pub(crate) bench: Option<Bench>,
    pub(crate) replaced: Option<Bench>,
}

impl Drop for Turned {
    fn drop(self) {
        let Turned {
            reply: _,
            bench: _,
            replaced: _,
        } = self;
    }
}

impl Turned {
    /// The answer, and the copy of the log's bench. What a commit replaced is dropped.
    pub(crate) fn into_parts(self) -> (Reply, Option<Bench>)
        ensures reply { result.0 ≡ self.reply }
        ensures bench { result.1 ≡ self.bench }
    {
        let Turned {
            reply,
            bench,
            replaced: _,
        } = self;
        (reply, bench)
    }
}

/// What a desk with this base asks in its turn.
#[derive(Drop)]
pub(crate) struct Turn {
    alloc: Global,
    base: u32,
    ask: Ask,
    seat: Snapshot<GateSeat<Book>>,
}

impl Model for Turn {
    ghost use Rattle.workroom.specs.Turns.{CanAsk, TurnState};

    ghost Value = { TurnState };

    ghost view = { λ t. record { ask = t.ask; opening = t.seat.value.origin; seen = t.seat.value.observed } };

    ghost invariant = { λ t. CanAsk t.seat.value.origin t.seat.value.observed t.ask };
}

impl Deed<Book> for Turn {
    type Out = Result<Turned, BookRefusal>;

    ghost use Rattle.workroom.specs.Turns.{IsTurn};

    ghost origin = { λ t. t.opening };

    ghost known = { λ t. t.seen };

    ghost relates = { λ t before out after. IsTurn t.opening t.ask before out after };

    fn act(self, value: &mut Book, desk: u32) -> Result<Turned, BookRefusal> {
        let Answered { reply, replaced } = answer(self.alloc, value, desk, &self.ask)?;
        let bench = copy_for(self.alloc, value, self.base, &reply);
        Ok(Turned {
            reply,
            bench,
            replaced,
        })
    }
}

/// Has a book answer what a desk asks.
fn answer(alloc: Global, book: &mut Book, desk: u32, ask: &Ask) -> Result<Answered, BookRefusal>
    requires { CanAsk book.old.opening book.old.entries ask.now }
    ensures ok { IfOk result (λ answered. IsEntered book.old desk (asked_of ask.now) book.new answered.reply) }
    ensures err { IfErr result (λ why. IsBookRefusal book.old.entries why × (book.new ≡ book.old)) }
    ensures told { AreTold book.new.opening book.new.entries }
{
    let answered = match ask {
        Ask::View => book.answer_view(desk),
        Ask::Faulty(fault) => book.answer_faulty(desk, *fault),
        Ask::Commit(prepared) => {
            answer_commit::<Brand>(alloc, book, desk, prepared, Blank::new(1))
        }
    };
    book.known();
    answered
}

/// The same for a commit, with a counter of its own: nobody asks how many look-ups a turn takes.
fn answer_commit<L: Ledger>(
    alloc: Global,
    book: &mut Book,
    desk: u32,
    prepared: &Prepared,
    blank: Blank,
) -> Result<Answered, BookRefusal>
    requires name { blank.name ≡ L.name }
    requires parts { blank.parts ≡ L.parts }
    requires some_part { 0 < L.parts }
    requires ready { IsReady book.old.opening book.old.entries prepared.now }
    ensures ok { IfOk result (λ answered. IsEntered book.old desk (Asked.Commit prepared.now.base prepared.now.edits) book.new answered.reply) }
    ensures err { IfErr result (λ why. IsBookRefusal book.old.entries why × (book.new ≡ book.old)) }
{
    let mut steps = start_counter::<L>(blank);
    book.answer_commit(alloc, desk, prepared, &mut steps)
}

/// The base of a desk after an answer.
pub(crate) fn base_after(base: u32, reply: &Reply) -> u32
    ensures { result ≡ base_told (brief_of reply.now) base }
{
    match reply {
        Reply::Viewed { number, .. } | Reply::Accepted { number, .. } => *number,
        _ => base,
    }
}

/// A copy of the bench of a book, where an answer moves a base and there is memory for it.
fn copy_for(alloc: Global, book: &Book, base: u32, reply: &Reply) -> Option<Bench>
    ensures { IfSome result (λ bench. bench ≡ (history_of book.now).cell) }
{
    if base_after(base, reply) == base {
        return None;
    }
    book.bench().copy(alloc).ok()
}

/// Asks in the turn of a handle.
pub(crate) fn take_turn<R: Wait>(
    rt: &R,
    gate: &Gate<Book>,
    seat: &mut GateSeat<Book>,
    alloc: Global,
    base: u32,
    ask: Ask,
) -> Result<Turned, BookRefusal>
    requires gate { seat.old.gate ≡ gate.now }
    requires ask { CanAsk seat.old.origin seat.old.observed ask }
    ensures turn { TakesTurn desk_of (λ before after. IsTurn seat.old.origin ask before result after) seat.old seat.new }
    ensures same { seat.new ≡ record seat.old { observed = seat.new.observed; own = seat.new.own } }
{
    let turn = Turn {
        alloc,
        base,
        ask,
        seat: Snapshot::of(seat),
    };
    gate.turn(rt, seat, turn)
}
