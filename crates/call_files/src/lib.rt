//! The files of a call: its input files, each read and judged before the next, and the text and the file that are left when its work is done.
#![tactic(auto)]

mod cell_input;
mod input;
mod order_input;
mod output;
mod script_input;
mod work;

pub use cell_input::{Checked, read_bench, read_cell, read_update};
pub use order_input::order_in_file;
pub use output::finish;
pub use script_input::{quotas_of, script_in_file, scripts_in_files};
pub use work::{Export, Work};
