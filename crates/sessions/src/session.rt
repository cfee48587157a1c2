//! One session.

ghost use Rattle.std.specs.Prelude.{◌≡◌, ◌++◌, ◌∷◌, [], false, count_by, IfOk, MatchOption, MatchResult, OnErr, OnOk, Some};
ghost use Rattle.edit_sets.specs.FormFault.{IsFormRefusal, IsSetOf};
ghost use Rattle.history_spec.specs.ReportText.{reply_line};
ghost use Rattle.history_spec.specs.Served.{draft_after, no_draft};
ghost use Rattle.text_spec.specs.ScriptLines.{is_shared};
ghost use Rattle.sessions.specs.SessionStates.{DoesAlone, IsNext, StaysServed, Stops, shared_command};

use crate::draft::Draft;
use crate::local::do_local;
use cell_bench::Bench;
use edit_sets::{EditSet, FormRefusal};
use history_spec::Reply;
use report_text::Transcript;
use room_laws::a_session_goes_on;
use script_text::Script;
use std::alloc::{AllocError, Global};
use std::marker::Model;
use text_spec::Command;

/// A command that all sessions see.
#[derive(Clone, Copy, Debug, PartialEq, Eq)]
pub enum Shared {
    View,
    Commit,
}

/// What stands next in a session's script.
#[derive(Clone, Copy, Debug, PartialEq, Eq)]
enum Stop {
    /// A command that was done, and that no other session sees.
    Local,
    /// A command that all see, and that waits for its answer.
    Shared(Shared),
    /// The end.
    End,
}

/// A session: its script, how much of it is done, its draft and its lines.
#[derive(Debug)]
pub struct Session {
    script: Script,
    next: usize,
    draft: Draft,
    transcript: Transcript,
}

impl Drop for Session {
    fn drop(self) {
        let Session {
            script: _,
            next: _,
            draft: _,
            transcript: _,
        } = self;
    }
}

impl Model for Session {
    ghost use Rattle.std.specs.Prelude.{take};
    ghost use Rattle.sessions.specs.SessionStates.{IsSession, SessionState};

    ghost Value = { SessionState };

    ghost view = { λ s. record { script = s.script; done = take s.next s.script; draft = s.draft; lines = s.transcript } };

    ghost invariant = { λ s. IsSession s.script s.next s.draft };
}

/// The command that all see, if it is one.
fn shared_of(command: &Command) -> Option<Shared>
    ensures { MatchOption result (is_shared command.now ≡ false) (λ shared. command.now ≡ shared_command shared) }
{
    match command {
        Command::View => Some(Shared::View),
        Command::Commit => Some(Shared::Commit),
        Command::Drop | Command::List(_) | Command::Push(_) | Command::Guard(_) => None,
    }
}

impl Session {
    /// A session that has done nothing yet.
    pub fn make(alloc: Global, script: Script) -> Session
        ensures script { result.script ≡ script }
        ensures done { result.done ≡ [] }
        ensures draft { result.draft ≡ no_draft }
        ensures lines { result.lines ≡ [] }
    {
        Session {
            script,
            next: 0,
            draft: Draft::make(alloc),
            transcript: Transcript::make(alloc),
        }
    }

    /// How many views and commits the script has.
    pub fn shared(&self) -> u32
        ensures { result ≡ count_by is_shared self.now.script }
    {
        self.script.shared()
    }

    /// Does the next command where no other session sees it.
    fn do_next(&mut self, alloc: Global, bench: &Bench, base: u32) -> Result<Stop, AllocError>
        ensures script { self.new.script ≡ self.old.script }
        ensures served { StaysServed base bench.now self.old self.new }
        ensures alone { DoesAlone base bench.now self.old self.new }
        ensures stops { IfOk result (Stops self.old self.new) }
    {
        a_session_goes_on();
        let Some(command) = self.script.commands().get(self.next) else {
            return Ok(Stop::End);
        };
        if let Some(shared) = shared_of(command) {
            return Ok(Stop::Shared(shared));
        }
        do_local(
            alloc,
            &mut self.draft,
            &mut self.transcript,
            command,
            base,
            bench,
        )?;
        self.next += 1;
        Ok(Stop::Local)
    }

    /// Does the commands up to the next one that all sessions see, and answers that one, or none at the end of the script. `bench` is of the
    /// cell after the session's base.
    ///
    /// An `Err` means out of memory: the commands before are done.
    pub fn advance(
        &mut self,
        alloc: Global,
        bench: &Bench,
        base: u32,
    ) -> Result<Option<Shared>, AllocError>
        ensures script { self.new.script ≡ self.old.script }
        ensures served { StaysServed base bench.now self.old self.new }
        ensures alone { DoesAlone base bench.now self.old self.new }
        ensures next { IfOk result (IsNext self.new) }
    {
        let mut stop = self.do_next(alloc, bench, base)?;
        while let Stop::Local = stop {
            stop = self.do_next(alloc, bench, base)?;
        }
        match stop {
            Stop::Shared(shared) => Ok(Some(shared)),
            Stop::Local | Stop::End => Ok(None),
        }
    }

    /// The edit set that a commit sends, at the level of its cell, or the first fault of the draft's form. An `Err` is that fault, or out of memory.
    pub fn offer(&self, alloc: Global, nall: u8) -> Result<EditSet, FormRefusal>
        ensures { MatchResult result (IsSetOf nall self.now.draft.edits self.now.draft.guards) (IsFormRefusal nall self.now.draft.edits self.now.draft.guards) }
    {
        self.draft.set(alloc, nall)
    }

    /// Takes in the answer to the command that all see. A commit empties the draft, whatever the answer.
    ///
    /// An `Err` means out of memory, and leaves the session as it was.
    pub fn told(&mut self, alloc: Global, shared: Shared, reply: &Reply) -> Result<(), AllocError>
        requires { IsNext self.old (Some shared) }
        ensures script { self.new.script ≡ self.old.script }
        ensures done { OnOk result (self.new.done ≡ self.old.done ++ shared_command shared ∷ []) }
        ensures draft { OnOk result (self.new.draft ≡ draft_after (shared_command shared) self.old.draft) }
        ensures lines { OnOk result (self.new.lines ≡ self.old.lines ++ reply_line reply.now) }
        ensures err { OnErr result (self.new ≡ self.old) }
    {
        self.transcript.push_reply(reply)?;
        if shared == Shared::Commit {
            self.draft = Draft::make(alloc);
        }
        self.next += 1;
        Ok(())
    }

    /// The lines, without taking memory.
    pub fn into_transcript(self) -> Transcript
        ensures { result ≡ self.lines }
    {
        let Session {
            script: _,
            next: _,
            draft: _,
            transcript,
        } = self;
        transcript
    }
}
