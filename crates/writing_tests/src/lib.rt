//! Tests of the fields of records.
#![tactic(auto)]

#[cfg(test)]
mod tests;
