//! The text of tables: what a TOML document says, exactly, or its first fault.
//!
//! `toml` reads the text as an untyped tree; this crate looks at the tree table by table and key by key, and puts what
//! it finds into `Parts`.
#![tactic(auto)]

pub mod keys;
mod layout;
pub mod lists;
mod open;
pub mod place;
mod read;
mod sections;
mod spellings;

pub use layout::Layout;
pub use read::{document, read_parts, read_unlaid};
