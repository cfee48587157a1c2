//! The order line.

ghost use Rattle.std.specs.Prelude.{◌≡◌, ◌++◌, OnOk, decimal, map};
ghost use Rattle.history_spec.specs.Entries.{order_of_entries};
ghost use Rattle.text_spec.specs.Lines.{spaced_words};
ghost use Rattle.text_spec.specs.OrderLine.{order_line};

use history_spec::Entry;
use std::alloc::AllocError;
use text_lines::{push_number, push_text};

/// Appends the number of each entry's desk, behind a space.
fn push_desks(out: &mut Vec<u8>, entries: &[Entry]) -> Result<(), AllocError>
    ensures { OnOk result (out.new.items ≡ out.old.items ++ spaced_words (map decimal (order_of_entries entries.now))) }
{
    for entry in entries {
        push_number(out, entry.desk)?;
    }
    Ok(())
}

/// Appends the line that tells of which desk each entry is.
pub(crate) fn push_order(out: &mut Vec<u8>, entries: &[Entry]) -> Result<(), AllocError>
    ensures { OnOk result (out.new.items ≡ out.old.items ++ order_line (order_of_entries entries.now)) }
{
    push_text(out, "order")?;
    push_desks(out, entries)?;
    push_text(out, "\n")
}
