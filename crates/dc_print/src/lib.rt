//! The lines that the commands print: of words, of verdicts, of texts that can't be read.
#![tactic(auto)]

mod put;
mod text;
mod verdicts;
mod words;

pub use put::{put_hex_8, put_number};
pub use text::{TEXT_CAPACITY, Text, append, append_number, digit_of, hex_8};
pub use verdicts::{
    append_member, print_accepted, print_cert_fault, print_refused, print_table_fault,
};
pub use words::{WORD_ROOM, put_word};
