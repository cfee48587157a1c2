//! One compiler of the cell: a session at its desk.

ghost use Rattle.std.specs.Prelude.{◌≡◌, ◌<◌, IfErr, IfOk, OnOk, count_by};
ghost use Rattle.room_run.specs.Compilers.{IsAnswered, IsAtDesk, IsCut, IsHaltedAt, IsOneFurther, IsOver};
ghost use Rattle.room_run.specs.Rooms.{IsFresh};
ghost use Rattle.text_spec.specs.ScriptLines.{is_shared};
ghost use Rattle.workroom.specs.Desks.{IsSameDesk};

use edit_sets::FormRefusal;
use enc_outside::{Meet, Stuck};
use history_spec::Reply;
use sessions::{Session, Shared};
use std::alloc::{AllocError, Global};
use std::sync::Wait;
use std::thread::Threads;
use workroom::{Desk, RoomRefusal, Workroom};

/// How a session ended.
#[derive(Clone, Copy, Debug, Drop)]
pub enum Ended {
    /// Its whole script is done.
    Done,
    /// A rendezvous gave up before one of its views and commits.
    Stuck(Stuck),
    /// Out of memory.
    NoMemory,
    /// The log had as many entries as it may have.
    Full,
}

impl From<AllocError> for Ended {
    ghost use Rattle.room_run.specs.declared.compiler.Ended.TheVariants.{NoMemory};

    ghost from_gives = { λ _ ended. ended ≡ NoMemory };

    fn from(_error: AllocError) -> Ended {
        Ended::NoMemory
    }
}

impl From<RoomRefusal> for Ended {
    ghost use Rattle.room_run.specs.Compilers.{ended_by};

    ghost from_gives = { λ refusal ended. ended ≡ ended_by refusal };

    fn from(refusal: RoomRefusal) -> Ended {
        match refusal {
            RoomRefusal::LogFull => Ended::Full,
            RoomRefusal::NoMemory { .. } => Ended::NoMemory,
        }
    }
}

/// A session at its desk, and how it ended.
#[derive(Drop)]
pub(crate) struct Compiler {
    pub(crate) desk: Desk,
    pub(crate) session: Session,
    pub(crate) ended: Ended,
}

/// Commits a session's draft, of which all is checked before the desk waits for its turn, or tells the draft's fault of form.
fn commit<R: Threads + Wait + Sync>(
    rt: &R,
    room: &Workroom,
    alloc: Global,
    desk: &mut Desk,
    session: &Session,
) -> Result<Reply, RoomRefusal>
    requires room { desk.old.room ≡ room.now.room }
    ensures same { IsSameDesk desk.old desk.new }
    ensures ok { IfOk result (IsAnswered desk.old session.now Shared.Commit desk.new) }
    ensures err { IfErr result (IsCut desk.old desk.new) }
{
    desk.known();
    let nall = desk.bench().head().nall;
    match session.offer(alloc, nall) {
        Ok(set) => {
            let Ok(prepared) = desk.prepare(rt, alloc, set) else {
                return Err(RoomRefusal::NoMemory { entered: false });
            };
            room.commit(rt, alloc, desk, prepared)
        }
        Err(FormRefusal::Fault(fault)) => room.faulty(rt, alloc, desk, fault),
        Err(FormRefusal::NoMemory) => Err(RoomRefusal::NoMemory { entered: false }),
    }
}

/// Asks the log what the session's next command asks.
fn ask<R: Threads + Wait + Sync>(
    rt: &R,
    room: &Workroom,
    alloc: Global,
    desk: &mut Desk,
    session: &Session,
    shared: Shared,
) -> Result<Reply, RoomRefusal>
    requires room { desk.old.room ≡ room.now.room }
    ensures same { IsSameDesk desk.old desk.new }
    ensures ok { IfOk result (IsAnswered desk.old session.now shared desk.new) }
    ensures err { IfErr result (IsCut desk.old desk.new) }
{
    match shared {
        Shared::View => room.view(rt, alloc, desk),
        Shared::Commit => commit(rt, room, alloc, desk, session),
    }
}

/// Does a session's commands up to its next one that all sessions see, and that one: it is asked of the log in the desk's turn, and its
/// answer taken in.
fn serve_next<R: Threads + Wait + Sync, M: Meet>(
    rt: &R,
    room: &Workroom,
    alloc: Global,
    meet: &M,
    desk: &mut Desk,
    session: &mut Session,
    serial: u32,
) -> Result<(), Ended>
    requires room { desk.old.room ≡ room.now.room }
    requires at_desk { IsAtDesk desk.old session.old }
    requires left { count_by is_shared session.old.done < count_by is_shared session.old.script }
    ensures same { IsSameDesk desk.old desk.new }
    ensures script { session.new.script ≡ session.old.script }
    ensures ok { OnOk result (IsOneFurther session.old desk.new session.new) }
    ensures err { IfErr result (IsHaltedAt (M.sticks meet.now) serial session.old desk.new) }
{
    desk.stands();
    let Some(shared) = session.advance(alloc, desk.bench(), desk.base())? else {
        unreachable!()
    };
    if let Err(stuck) = meet.arrive(desk.number(), serial) {
        return Err(Ended::Stuck(stuck));
    }
    let reply = ask(rt, room, alloc, desk, session, shared)?;
    session.told(alloc, shared, &reply)?;
    Ok(())
}

/// Runs a session at its desk to its end.
pub(crate) fn serve<R: Threads + Wait + Sync, M: Meet>(
    rt: &R,
    room: &Workroom,
    alloc: Global,
    meet: &M,
    compiler: &mut Compiler,
) -> Ended
    requires { IsFresh room.now.room compiler.old }
    ensures same { IsSameDesk compiler.old.desk compiler.new.desk }
    ensures script { compiler.new.session.script ≡ compiler.old.session.script }
    ensures over { IsOver (M.sticks meet.now) compiler.old.session.script compiler.new.desk compiler.new.session result }
{
    for served in 0..compiler.session.shared() {
        if let Err(ended) = serve_next(
            rt,
            room,
            alloc,
            meet,
            &mut compiler.desk,
            &mut compiler.session,
            served + 1,
        ) {
            return ended;
        }
    }
    compiler.desk.stands();
    match compiler
        .session
        .advance(alloc, compiler.desk.bench(), compiler.desk.base())
    {
        Ok(_) => Ended::Done,
        Err(_) => Ended::NoMemory,
    }
}
