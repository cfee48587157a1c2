//! Tests of the ticket lock: handles in threads, over two values.
#![tactic(auto)]

#[cfg(test)]
mod accounts;
#[cfg(test)]
mod signatures;
