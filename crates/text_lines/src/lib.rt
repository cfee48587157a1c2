//! Writing the words and lines of reports and scripts, and reading numbers.
#![tactic(auto)]

mod edit;
mod item;
mod number;
mod words;

pub use edit::write_edit;
pub use number::{read_signed, read_unsigned};
pub use words::{
    push_bytes, push_identity, push_name, push_number, push_numbered, push_text, push_word,
    word_of_kind,
};
