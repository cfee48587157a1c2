//! Tests of winding numbers: points that are typed out, and drawn closed lines, counted by another ray.
#![tactic(auto)]

#[cfg(test)]
mod tests;
