//! The texts of reports, scripts and orders, as definitions, with the commands that scripts are made of.
#![tactic(auto)]

mod command;

pub use command::Command;
