//! Tests of the log of the editing history and of the workroom before it, through their calls.
#![tactic(auto)]

#[cfg(test)]
mod tests;
