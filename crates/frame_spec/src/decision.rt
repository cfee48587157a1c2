//! The record frame as a relation on places is what the tests of its parts decide.

ghost use Rattle.std.specs.Prelude.{Result, MatchResult, ◌≡◌, ℕ, Bool, List};
ghost use Rattle.frame_spec.specs.FrameDecision.{frame_at};
ghost use Rattle.frame_spec.specs.FrameFaults.{HasFrameFault};
ghost use Rattle.frame_spec.specs.RecordFrame.{FrameView, RecordFrame};
ghost use Rattle.frame_spec.specs.declared.fault.FrameFault.{FrameFault};

/// What the tests find is the record that stands at the place, or the fault that it has.
pub fn frame_is_decided()
    ensures { (b : List ℕ) (p : ℕ) (first : Bool) →
        MatchResult (frame_at b p first) (RecordFrame b p first) (HasFrameFault b p first) }
{}

/// A place has one answer: the record that stands there, or its fault.
pub fn one_answer()
    ensures { (b : List ℕ) (p : ℕ) (first : Bool) (answer : Result FrameView FrameFault) →
        MatchResult answer (RecordFrame b p first) (HasFrameFault b p first) → answer ≡ frame_at b p first }
{}
