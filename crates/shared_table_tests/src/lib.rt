//! Tests of the table of which copies share pieces: what a caller sees of it.
#![tactic(auto)]

#[cfg(test)]
mod copies;
#[cfg(test)]
mod keys;
