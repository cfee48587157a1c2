//! Tests of the indexed store, of edits laid over it, and of the indexes of tiles and of read sets, through their calls.
#![tactic(auto)]

#[cfg(test)]
mod tests;
