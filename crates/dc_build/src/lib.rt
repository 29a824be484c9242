//! Tables of a document: they are built where it breaks no rule, of its parts or of its text.
#![tactic(auto)]

mod assemble;
mod made;
mod read;
mod tables;
mod written;

pub use read::{read_tables, read_written};
pub use tables::Build;
pub use written::WrittenTables;
