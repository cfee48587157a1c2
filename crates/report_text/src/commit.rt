//! The history's part of a report.

ghost use Rattle.std.specs.Prelude.{◌≡◌, ◌++◌, ◌∷◌, [], All, IfSome, OnOk, codes, decimal, true};
ghost use Rattle.std.specs.List.{flat_map};
ghost use Rattle.cell_spec.specs.declared.edit.Edit.{Edit as SpecEdit};
ghost use Rattle.commit_book.specs.Books.{HaveLines, accepted_in, accepted_sets};
ghost use Rattle.history_spec.specs.EntriesReport.{entry_part};
ghost use Rattle.text_spec.specs.EditLine.{edit_line, has_line};
ghost use Rattle.text_spec.specs.Lines.{line};

use cell_spec::Edit;
use history_spec::{Asked, Brief, Entry};
use std::alloc::{AllocError, Global};
use text_lines::{push_number, push_numbered, push_text, write_edit};

/// Appends the first line of an accepted commit's part.
fn push_head(out: &mut Vec<u8>, number: u32, desk: u32, findings: u32) -> Result<(), AllocError>
    ensures { OnOk result (out.new.items ≡ out.old.items
        ++ line (codes "commit") (decimal number ∷ codes "desk" ∷ decimal desk ∷ codes "findings" ∷ decimal findings ∷ [])) }
{
    push_text(out, "commit")?;
    push_number(out, number)?;
    push_numbered(out, "desk", desk)?;
    push_numbered(out, "findings", findings)?;
    push_text(out, "\n")
}

/// Appends the lines of edits.
fn push_edits(alloc: Global, out: &mut Vec<u8>, edits: &[Edit]) -> Result<(), AllocError>
    requires { All (λ (edit : SpecEdit). has_line edit ≡ true) edits.now }
    ensures { OnOk result (out.new.items ≡ out.old.items ++ flat_map edit_line edits.now) }
{
    for edit in edits {
        write_edit(alloc, edit, out)?;
    }
    Ok(())
}

/// Appends an entry's part of the history: of an accepted commit its number, its desk, how many findings the cell has after it, and its
/// edits; of another entry nothing.
fn push_entry(alloc: Global, out: &mut Vec<u8>, entry: &Entry) -> Result<(), AllocError>
    requires { IfSome (accepted_in entry.now) HaveLines }
    ensures { OnOk result (out.new.items ≡ out.old.items ++ entry_part entry.now) }
{
    let Asked::Commit { edits, .. } = &entry.asked else {
        return Ok(());
    };
    let Brief::Accepted { number, findings } = entry.brief else {
        return Ok(());
    };
    push_head(out, number, entry.desk, findings)?;
    push_edits(alloc, out, edits.edits())
}

/// Appends the parts of entries.
pub(crate) fn push_entries(
    alloc: Global,
    out: &mut Vec<u8>,
    entries: &[Entry],
) -> Result<(), AllocError>
    requires { All HaveLines (accepted_sets entries.now) }
    ensures { OnOk result (out.new.items ≡ out.old.items ++ flat_map entry_part entries.now) }
{
    for entry in entries {
        push_entry(alloc, out, entry)?;
    }
    Ok(())
}
