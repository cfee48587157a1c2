//! A law, the contract of a function that does nothing.

ghost use Rattle.edit_answers.specs.Named.{EditsLeaveTheirRecords};

/// What an edited cell has under a name is what the edit of that name leaves, or what it had where no edit is of it.
pub fn edits_leave_their_records()
    ensures { EditsLeaveTheirRecords }
{}
