//! What is left when all sessions have ended.

ghost use Rattle.std.specs.Prelude.{◌≡◌, ◌≤◌, [], ◌∷◌, ◌++◌, All, IfErr, IfOk, IfSome, OnOk, length, map};
ghost use Rattle.room_run.specs.Rooms.{DoneWith, IsGathered, IsNotFull, IsOneOf, KeepsDesks, outcome_of};

use crate::compiler::{Compiler, Ended};
use crate::run::RunEnd;
use commit_book::Book;
use report_text::Transcript;
use sessions::Session;
use std::alloc::{AllocError, Global};
use std::sync::Wait;
use workroom::{Desk, Workroom};

/// What is left of a session: how far it came, and how it ended.
#[derive(Drop)]
pub(crate) struct Outcome {
    pub(crate) session: Session,
    pub(crate) ended: Ended,
}

/// Ends the desks of compilers: one desk takes them over.
fn merge_all(
    alloc: Global,
    room: &Workroom,
    into: &mut Desk,
    compilers: Vec<Compiler>,
) -> Result<Vec<Outcome>, AllocError>
    requires into { into.old.room ≡ room.now.room }
    requires rooms { All (λ k. k.desk.room ≡ room.now.room) compilers.items }
    ensures room { into.new.room ≡ into.old.room }
    ensures keeps { OnOk result (KeepsDesks into.old compilers.items into.new) }
    ensures outcomes { IfOk result (λ outcomes. outcomes.items ≡ map outcome_of compilers.items) }
{
    let mut outcomes = Vec::new(alloc);
    for compiler in compilers {
        let Compiler {
            desk,
            session,
            ended,
        } = compiler;
        room.merge(into, desk);
        outcomes.push(Outcome { session, ended })?;
    }
    Ok(outcomes)
}

/// Ends all desks and the room, and hands out the log. Every desk is taken over, also that of a session that ended early: the log has its
/// entries.
pub(crate) fn gather<R: Wait>(
    rt: &R,
    alloc: Global,
    room: Workroom,
    compilers: Vec<Compiler>,
) -> Result<(Book, Vec<Outcome>), AllocError>
    requires some { 1 ≤ length compilers.items }
    requires rooms { All (λ k. k.desk.room ≡ room.room) compilers.items }
    ensures { IfOk result (λ left. IsGathered room compilers.items left.0 left.1.items) }
{
    let mut compilers = compilers;
    let Some(last) = compilers.pop() else {
        unreachable!()
    };
    let Compiler {
        mut desk,
        session,
        ended,
    } = last;
    let mut outcomes = merge_all(alloc, &room, &mut desk, compilers)?;
    outcomes.push(Outcome { session, ended })?;
    let book = room.close(rt, desk);
    book.known();
    Ok((book, outcomes))
}

/// The lines of all sessions, where each is done; else how the run ended.
pub(crate) fn transcripts_of(
    alloc: Global,
    outcomes: Vec<Outcome>,
) -> Result<Vec<Transcript>, RunEnd>
    requires { All IsNotFull outcomes.items }
    ensures done { IfOk result (λ transcripts. DoneWith outcomes.items transcripts.items) }
    ensures end { IfErr result (IsOneOf outcomes.items) }
{
    if let Some(end) = first_stuck(&outcomes) {
        return Err(end);
    }
    let mut transcripts = Vec::new(alloc);
    for outcome in outcomes {
        match outcome.ended {
            Ended::Done => keep_lines(&mut transcripts, outcome.session)?,
            Ended::Stuck(stuck) => return Err(RunEnd::Stuck(stuck)),
            Ended::NoMemory => return Err(RunEnd::NoMemory),
            Ended::Full => unreachable!(),
        }
    }
    Ok(transcripts)
}

/// Appends the lines of a session.
fn keep_lines(transcripts: &mut Vec<Transcript>, session: Session) -> Result<(), AllocError>
    ensures { OnOk result (transcripts.new.items ≡ transcripts.old.items ++ session.lines ∷ []) }
{
    transcripts.push(session.into_transcript())?;
    Ok(())
}

/// The end of a run in which a session was stuck: of the first that was.
fn first_stuck(outcomes: &[Outcome]) -> Option<RunEnd>
    ensures { IfSome result (IsOneOf outcomes.now) }
{
    for outcome in outcomes {
        if let Ended::Stuck(stuck) = outcome.ended {
            return Some(RunEnd::Stuck(stuck));
        }
    }
    None
}
