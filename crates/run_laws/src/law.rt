//! What a run of sessions in one history is.

ghost use Rattle.std.specs.Prelude.{◌≡◌, ◌≤◌, ℕ, List, length, slice_get};
ghost use Rattle.s57_types.specs.declared.cell.Cell.{Cell};
ghost use Rattle.text_spec.specs.declared.command.Command.{Command};
ghost use Rattle.text_spec.specs.OrderLine.{IsOrder};
ghost use Rattle.history_spec.specs.Sessions.{Request, history_after, ordered_requests, replies_from, request_step, requests_of, script_of};
ghost use Rattle.history_spec.specs.Steps.{History, opening};
ghost use Rattle.history_spec.specs.declared.reply.Reply.{Reply};
ghost use Rattle.room_laws.specs.Orders.{quotas_of};
ghost use Rattle.run_laws.specs.Causes.{IsAnswered, TellsItsCause};
ghost use Rattle.run_laws.specs.Course.{IsCourse};
ghost use Rattle.run_laws.specs.Left.{IsLeft};
ghost use Rattle.run_laws.specs.Requests.{requests_by, sessions_of};

/// In an order of the sessions each request is of the session that the order names at its place, and each session has all its views and commits,
/// once and in the order of its script.
pub fn sessions_are_served_in_order()
    ensures order { (scripts : List (List Command)) (order : List ℕ) → IsOrder (quotas_of scripts) order
        → sessions_of (ordered_requests scripts order) ≡ order }
    ensures each { (scripts : List (List Command)) (order : List ℕ) → IsOrder (quotas_of scripts) order
        → (i : ℕ) → 1 ≤ i → i ≤ length scripts → requests_by i (ordered_requests scripts order) ≡ requests_of (script_of scripts i) }
{}

/// The answer to a view or a commit has its cause in the history at its point: a commit is refused only for the fault that it is told, for the newer
/// commit that it is shown, or because of the cell, and changes nothing; else it is accepted. A cause has no other answer. So has each answer of a
/// run its cause.
pub fn answers_tell_their_cause()
    ensures one { (h : History) (desk : ℕ) (request : Request)
        → TellsItsCause h desk request (request_step h (desk, request)).0 (request_step h (desk, request)).1 }
    ensures only { (h : History) (desk : ℕ) (request : Request) (reply : Reply) (after : History)
        → TellsItsCause h desk request reply after → (request_step h (desk, request)).0 ≡ reply }
    ensures each { (h : History) (requests : List (ℕ × Request)) (place desk : ℕ) (request : Request)
        → slice_get requests place ≡ Some (desk, request) → IsAnswered h requests place desk request }
{}

/// A run of requests on a cell leaves the drafts that were accepted, each once and in order, the cell after all their edits, and each desk on the
/// number that it was last told.
pub fn runs_leave_what_was_accepted()
    ensures { (c : Cell) (requests : List (ℕ × Request))
        → IsLeft c requests (replies_from (opening c) requests) (history_after (opening c) requests) }
{}

/// Scripts that are run on a cell in an order of their sessions take their course: all that the laws above say of it.
pub fn runs_take_their_course()
    ensures { (c : Cell) (scripts : List (List Command)) (order : List ℕ) → IsOrder (quotas_of scripts) order → IsCourse c scripts order }
{}
