//! Scripts: the commands of one session, a line each.
#![tactic(auto)]

mod cut;
mod feature;
mod head;
mod item;
mod items;
mod law;
mod reading;
mod refusal;
mod script;
mod spelling;
mod text;
mod value;
mod vector;

pub use law::{a_line_is_of_one_command, a_text_has_one_reading, read_written};
pub use reading::{read_command, read_script};
pub use refusal::ScriptRefusal;
pub use script::Script;
pub use text_spec::Command;
