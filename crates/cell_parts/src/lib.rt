//! The parts of small cells, as definitions: heads, names, nodes, edges and features.
#![tactic(auto)]
