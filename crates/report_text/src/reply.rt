//! The line of an answer.

ghost use Rattle.std.specs.Prelude.{◌≡◌, ◌++◌, ◌∷◌, [], OnErr, OnOk, codes, decimal};
ghost use Rattle.text_spec.specs.Lines.{line, spaced_words};
ghost use Rattle.history_spec.specs.ReportText.{form_words, refusal_words, refused_line, reply_line, unfit_words};
ghost use Rattle.report_text.specs.Newer.{newer_words};

use edit_sets::FormFault;
use history_spec::{Reply, StateRefusal};
use s57_types::{RecName, Unfit};
use std::alloc::AllocError;
use text_lines::{push_bytes, push_name, push_number, push_numbered, push_text};

/// How many bytes a line has room for at first: most lines of a session are shorter.
pub(crate) const LINE_ROOM: usize = 64;

/// Appends the words of why a record can't be written.
fn push_unfit(out: &mut Vec<u8>, why: Unfit) -> Result<(), AllocError>
    ensures { OnOk result (out.new.items ≡ out.old.items ++ spaced_words (unfit_words why)) }
{
    match why {
        Unfit::TooLong => push_text(out, " too long"),
        Unfit::BadText => push_text(out, " bad text"),
        Unfit::BadName => push_text(out, " bad name"),
    }
}

/// Appends the words of a draft's fault.
fn push_form_words(out: &mut Vec<u8>, fault: FormFault) -> Result<(), AllocError>
    ensures { OnOk result (out.new.items ≡ out.old.items ++ spaced_words (form_words fault)) }
{
    match fault {
        FormFault::Empty => push_text(out, " empty"),
        FormFault::TooMany(count) => {
            push_text(out, " too many")?;
            push_number(out, count)
        }
        FormFault::TooManyGuards(count) => {
            push_text(out, " too many guards")?;
            push_number(out, count)
        }
        FormFault::Twice(place) => push_numbered(out, "twice", place),
        FormFault::Unfit(place, why) => {
            push_numbered(out, "unfit", place)?;
            push_unfit(out, why)
        }
    }
}

/// Appends the words of why a cell doesn't take the edits.
fn push_refusal_words(out: &mut Vec<u8>, refusal: StateRefusal) -> Result<(), AllocError>
    ensures { OnOk result (out.new.items ≡ out.old.items ++ spaced_words (refusal_words refusal)) }
{
    match refusal {
        StateRefusal::AddExists(name) => {
            push_text(out, " exists")?;
            push_name(out, name)
        }
        StateRefusal::SetMissing(name) => {
            push_text(out, " set missing")?;
            push_name(out, name)
        }
        StateRefusal::DelMissing(name) => {
            push_text(out, " del missing")?;
            push_name(out, name)
        }
        StateRefusal::CellFull(count) => {
            push_text(out, " cell full")?;
            push_number(out, count)
        }
        StateRefusal::HeadTooLong(bytes) => {
            push_text(out, " head too long")?;
            push_number(out, bytes)
        }
        StateRefusal::FindingsFull => push_text(out, " findings full"),
    }
}

/// Appends the words of a newer commit of what this one edits or guards: its number, the name and the desk.
fn push_newer_words(
    out: &mut Vec<u8>,
    number: u32,
    name: RecName,
    desk: u32,
) -> Result<(), AllocError>
    ensures { OnOk result (out.new.items ≡ out.old.items ++ spaced_words (newer_words number name desk)) }
{
    push_numbered(out, "newer", number)?;
    push_name(out, name)?;
    push_numbered(out, "desk", desk)
}

/// Appends the line of a draft that has a fault.
fn push_formed(out: &mut Vec<u8>, fault: FormFault) -> Result<(), AllocError>
    ensures { OnOk result (out.new.items ≡ out.old.items ++ refused_line (form_words fault)) }
{
    push_text(out, "commit refused")?;
    push_form_words(out, fault)?;
    push_text(out, "\n")
}

/// Appends the line of a commit that clashes with a newer one.
fn push_newer(out: &mut Vec<u8>, number: u32, name: RecName, desk: u32) -> Result<(), AllocError>
    ensures { OnOk result (out.new.items ≡ out.old.items ++ refused_line (newer_words number name desk)) }
{
    push_text(out, "commit refused")?;
    push_newer_words(out, number, name, desk)?;
    push_text(out, "\n")
}

/// Appends a line of a text and why a cell doesn't take the edits.
pub(crate) fn push_refusal(
    out: &mut Vec<u8>,
    text: &str,
    refusal: StateRefusal,
) -> Result<(), AllocError>
    ensures { OnOk result (out.new.items ≡ out.old.items ++ line text.now (refusal_words refusal)) }
{
    push_text(out, text)?;
    push_refusal_words(out, refusal)?;
    push_text(out, "\n")
}

/// Appends a line of two words, a commit's number, and how many findings the cell has.
pub(crate) fn push_state(
    out: &mut Vec<u8>,
    first: &str,
    second: &str,
    number: u32,
    findings: u32,
) -> Result<(), AllocError>
    ensures { OnOk result (out.new.items ≡ out.old.items
        ++ line first.now (second.now ∷ decimal number ∷ codes "findings" ∷ decimal findings ∷ [])) }
{
    push_text(out, first)?;
    push_numbered(out, second, number)?;
    push_numbered(out, "findings", findings)?;
    push_text(out, "\n")
}

/// Appends the line of an answer.
///
/// An `Err` means out of memory, and leaves the text as it was.
pub(crate) fn push_reply(out: &mut Vec<u8>, reply: &Reply) -> Result<(), AllocError>
    ensures ok { OnOk result (out.new.items ≡ out.old.items ++ reply_line reply.now) }
    ensures err { OnErr result (out.new.items ≡ out.old.items) }
{
    let mut line = Vec::with_capacity(*out.allocator(), LINE_ROOM)?;
    push_reply_line(&mut line, reply)?;
    push_bytes(out, &line)
}

/// Appends the same, and after an `Err` perhaps a part of the line.
fn push_reply_line(out: &mut Vec<u8>, reply: &Reply) -> Result<(), AllocError>
    ensures { OnOk result (out.new.items ≡ out.old.items ++ reply_line reply.now) }
{
    match reply {
        Reply::Viewed { number, findings } => push_state(out, "view", "seen", *number, *findings),
        Reply::Formed(fault) => push_formed(out, *fault),
        Reply::Newer {
            number,
            name,
            desk,
            ..
        } => push_newer(out, *number, *name, *desk),
        Reply::Refused(refusal) => push_refusal(out, "commit refused", *refusal),
        Reply::Accepted { number, findings } => {
            push_state(out, "commit", "accepted", *number, *findings)
        }
    }
}
