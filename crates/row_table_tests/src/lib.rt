//! Tests of the table of rows: what a caller sees of it.
#![tactic(auto)]

#[cfg(test)]
mod rows;
