//! Tests of the lower crates through their public calls: lists, record frames, segments, loops, devices, edit sets, generated cells.
#![tactic(auto)]

#[cfg(test)]
mod tests;
