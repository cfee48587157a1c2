//! Tests of the bench through its calls: after commits its findings are those of the edited cell, and few look-ups are made.
#![tactic(auto)]

#[cfg(test)]
mod tests;
