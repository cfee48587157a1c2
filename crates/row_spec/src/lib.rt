//! Rows in ascending order of their keys, and rows in blocks that stand one after another, as definitions with their lemmas.
#![tactic(auto)]
