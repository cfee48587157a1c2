//! What words and files ask for.

ghost use Rattle.enc_top.specs.Inputs.{AsksOneAnswer};

/// Words and files ask for one answer: a task, or the status at which the call ends.
pub fn one_answer_is_asked()
    ensures { AsksOneAnswer }
{}
