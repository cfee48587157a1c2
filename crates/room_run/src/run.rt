//! Sessions in threads.

ghost use Rattle.std.specs.Prelude.{◌≡◌, ◌≤◌, ◌<◌, ℕ, All, IfErr, IfOk, OnOk, length, slice_index_or};
ghost use Rattle.room_run.specs.Rooms.{AreOpened, IsFresh, IsHeld, IsRun, IsRunEnd};
ghost use Rattle.sessions.specs.Replays.{IsShortScript, session_limit};

use crate::compiler::{Compiler, Ended, serve};
use crate::gather::{gather, transcripts_of};
use enc_outside::{Meet, Stuck};
use script_text::Script;
use sessions::{Replayed, Session};
use std::alloc::{AllocError, Global};
use std::sync::Wait;
use std::thread;
use std::thread::Threads;
use workroom::{DeskRefusal, Workroom};

/// Why a run has no report.
#[derive(Clone, Copy, Debug, PartialEq, Eq)]
pub enum RunEnd {
    /// A rendezvous gave up: the first session that was stuck, and its view or commit.
    Stuck(Stuck),
    /// Out of memory.
    NoMemory,
}

impl From<AllocError> for RunEnd {
    ghost use Rattle.room_run.specs.declared.run.RunEnd.TheVariants.{NoMemory};

    ghost from_gives = { λ _ end. end ≡ NoMemory };

    fn from(_error: AllocError) -> RunEnd {
        RunEnd::NoMemory
    }
}

/// A session for each script, each at a new desk.
fn open_all(
    alloc: Global,
    room: &mut Workroom,
    scripts: Vec<Script>,
) -> Result<Vec<Compiler>, AllocError>
    requires none { room.old.desks ≡ 0 }
    requires few { length scripts.items ≤ session_limit }
    ensures room { OnOk result (room.new ≡ record room.old { desks = length scripts.items }) }
    ensures opened { IfOk result (λ compilers. AreOpened room.old.room scripts.items compilers.items) }
{
    let mut compilers = Vec::new(alloc);
    for script in scripts {
        let desk = match room.desk(alloc) {
            Ok(desk) => desk,
            Err(DeskRefusal::NoMemory) => return Err(AllocError),
            Err(DeskRefusal::NoDesk) => unreachable!(),
        };
        compilers.push(Compiler {
            desk,
            session: Session::make(alloc, script),
            ended: Ended::Done,
        })?;
    }
    Ok(compilers)
}

/// Runs one session to its end.
fn run_one<R: Threads + Wait + Sync, M: Meet>(
    rt: &R,
    room: &Workroom,
    alloc: Global,
    meet: &M,
    compiler: &mut Compiler,
)
    requires { IsFresh room.now.room compiler.old }
    ensures { IsRun (M.sticks meet.now) compiler.old compiler.new }
{
    compiler.ended = serve(rt, room, alloc, meet, compiler);
}

/// Runs each session in a thread of its own.
fn run_threads<R: Threads + Wait + Sync, M: Meet + Sync>(
    rt: &R,
    room: &Workroom,
    alloc: Global,
    meet: &M,
    compilers: &mut [Compiler],
)
    requires { All (IsFresh room.now.room) compilers.old }
    ensures run { (i : ℕ) (d : _) → i < length compilers.old
        → IsRun (M.sticks meet.now) (slice_index_or compilers.old i d) (slice_index_or compilers.new i d) }
    ensures len { length compilers.new ≡ length compilers.old }
{
    let threads = compilers.len().max(1);
    thread::for_each_mut(
        rt,
        compilers,
        threads,
        &|_, compiler: &mut Compiler|
            requires { IsFresh room.now.room compiler.old }
            ensures { IsRun (M.sticks meet.entry.now) compiler.old compiler.new }
        { run_one(rt, room, alloc, meet, compiler) },
    );
}

/// The same of a vector.
fn run_all<R: Threads + Wait + Sync, M: Meet + Sync>(
    rt: &R,
    room: &Workroom,
    alloc: Global,
    meet: &M,
    compilers: &mut Vec<Compiler>,
)
    requires { All (IsFresh room.now.room) compilers.old.items }
    ensures run { (i : ℕ) (d : _) → i < length compilers.old.items
        → IsRun (M.sticks meet.now) (slice_index_or compilers.old.items i d) (slice_index_or compilers.new.items i d) }
    ensures len { length compilers.new.items ≡ length compilers.old.items }
{
    run_threads(rt, room, alloc, meet, compilers.as_mut_slice());
}

/// Runs scripts on the cell of a new workroom, each in a thread of its own at a desk of its own. The log's entries are those of the
/// sessions, each session's in its own order, and each session's lines are right beside them.
///
/// An `Err` tells the first session that was stuck and which of its views and commits that was, counted from 1, or means out of memory.
pub fn run_sessions<R: Threads + Wait + Sync, M: Meet + Sync>(
    rt: &R,
    alloc: Global,
    room: Workroom,
    scripts: Vec<Script>,
    meet: &M,
) -> Result<Replayed, RunEnd>
    requires none { room.desks ≡ 0 }
    requires some { 1 ≤ length scripts.items }
    requires few { length scripts.items ≤ session_limit }
    requires short { All IsShortScript scripts.items }
    ensures held { IfOk result (IsHeld room.room.opening scripts.items) }
    ensures end { IfErr result (IsRunEnd (M.sticks meet.now) scripts.items) }
{
    let mut room = room;
    let mut compilers = open_all(alloc, &mut room, scripts)?;
    run_all(rt, &room, alloc, meet, &mut compilers);
    let (book, outcomes) = gather(rt, alloc, room, compilers)?;
    let transcripts = transcripts_of(alloc, outcomes)?;
    Ok(Replayed { book, transcripts })
}
