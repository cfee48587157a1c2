//! A session's draft and its lines, and the commands that ask nothing of the log.

ghost use Rattle.std.specs.Prelude.{◌≡◌, ◌++◌, ◌+◌, ◌<◌, ◌^◌, ◌∷◌, [], OnOk, length};
ghost use Rattle.history_spec.specs.ReportText.{draft_line, reply_line};
ghost use Rattle.history_spec.specs.Served.{no_draft};
ghost use Rattle.keep_run.specs.Sessions.{draft_of};

use cell_spec::Edit;
use history_spec::Reply;
use report_text::Transcript;
use s57_types::{Duplicate, RecName};
use std::alloc::{AllocError, Global};

/// What a session has put together for its next commit, and the lines of its commands so far.
#[derive(Debug)]
pub(crate) struct Session {
    pub(crate) edits: Vec<Edit>,
    pub(crate) guards: Vec<RecName>,
    pub(crate) transcript: Transcript,
}

impl Drop for Session {
    fn drop(self) {
        let Session {
            edits: _,
            guards: _,
            transcript: _,
        } = self;
    }
}

impl Session {
    /// A session that has done nothing yet.
    pub(crate) fn make(alloc: Global) -> Session
        ensures draft { draft_of result ≡ no_draft }
        ensures lines { result.transcript ≡ [] }
    {
        Session {
            edits: Vec::new(alloc),
            guards: Vec::new(alloc),
            transcript: Transcript::make(alloc),
        }
    }

    /// Puts an edit into the draft.
    pub(crate) fn push_edit(&mut self, alloc: Global, edit: &Edit) -> Result<(), AllocError>
        requires { length self.old.edits.items + 1 < 2 ^ 32 }
        ensures edits { OnOk result (self.new.edits.items ≡ self.old.edits.items ++ edit.now ∷ []) }
        ensures guards { self.new.guards.items ≡ self.old.guards.items }
        ensures lines { OnOk result (self.new.transcript ≡ self.old.transcript ++ draft_line (length self.old.edits.items + 1)) }
    {
        let copy = edit.copy(alloc)?;
        self.edits.push(copy)?;
        self.transcript.push_draft(self.edits.len() as u32)
    }

    /// Puts a guard into the draft, which counts its edits alone.
    pub(crate) fn push_guard(&mut self, name: RecName) -> Result<(), AllocError>
        requires { length self.old.edits.items < 2 ^ 32 }
        ensures edits { self.new.edits.items ≡ self.old.edits.items }
        ensures guards { OnOk result (self.new.guards.items ≡ self.old.guards.items ++ name ∷ []) }
        ensures lines { OnOk result (self.new.transcript ≡ self.old.transcript ++ draft_line (length self.old.edits.items)) }
    {
        self.guards.push(name)?;
        self.transcript.push_draft(self.edits.len() as u32)
    }

    /// Writes the line of an answer.
    pub(crate) fn tell(&mut self, reply: Reply) -> Result<(), AllocError>
        ensures edits { self.new.edits ≡ self.old.edits }
        ensures guards { self.new.guards ≡ self.old.guards }
        ensures lines { OnOk result (self.new.transcript ≡ self.old.transcript ++ reply_line reply) }
    {
        self.transcript.push_reply(&reply)
    }

    /// Empties the draft.
    pub(crate) fn clear(&mut self, alloc: Global)
        ensures draft { draft_of self.new ≡ no_draft }
        ensures lines { self.new.transcript ≡ self.old.transcript }
    {
        self.edits = Vec::new(alloc);
        self.guards = Vec::new(alloc);
    }

    /// The lines.
    pub(crate) fn into_transcript(self) -> Transcript
        ensures { result ≡ self.transcript }
    {
        let Session {
            edits: _,
            guards: _,
            transcript,
        } = self;
        transcript
    }
}
