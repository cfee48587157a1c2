//! Tests of which records and heads can be written.
#![tactic(auto)]

#[cfg(test)]
mod heads;
#[cfg(test)]
mod records;
#[cfg(test)]
mod texts;
