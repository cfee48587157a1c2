//! Small cells, as definitions, on which other crates evaluate theirs.
#![tactic(auto)]
